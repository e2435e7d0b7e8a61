//! What a client takes of read replies.

ghost use Rattle.law_joins.specs.Choices.{ChoicesAreTaken, FormsAreLawful};

use basil_types::version::versions_are_told_apart;
use client_reads::laws::choices_rest_on_replies;

/// What a client chooses among valid replies that were seen is what the laws let a correct client take.
pub fn choices_are_taken()
    ensures { ChoicesAreTaken }
{
    choices_rest_on_replies();
    versions_are_told_apart();
}

/// A client whose reads are such choices may sign its transaction.
pub fn forms_are_lawful()
    ensures { FormsAreLawful }
{
    choices_are_taken();
}
