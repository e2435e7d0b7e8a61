//! Every run is safe.

ghost use Rattle.cluster_run.specs.Safety.{RunsAreSafe};
ghost use Rattle.cluster_run.specs.Breaking.{BreachesAreReal, RunsUpToABreachAreSafe};
ghost use Rattle.cluster_run.specs.Holding.{ClientsHold};
ghost use Rattle.cluster_run.specs.Reading.{ReadsAreTaken};

use crate::acts::{answers_are_acts, answers_keep_order};
use agreement_laws::{
    agreement, invariant_after_answer, invariant_after_event, invariant_at_start, voters,
};
use basil_types::transaction::one_spelling;
use basil_types::version::versions_are_told_apart;
use basil_types::words::words_tell_fields;
use certificates::laws::{no_refusal_exactly, proofs_carry};
use client_reads::laws::replies_exactly;
use frame_views::laws::read_frames_fit;
use law_joins::choices::choices_are_taken;
use law_joins::shown::certificates_are_certificates;
use serial_laws::{are_safe, settings_are_sane};

/// What a client is told of a read that has its choice, by valid replies that were seen, is what the argument for reads
/// lets it take.
pub fn reads_are_taken()
    ensures { ReadsAreTaken }
{
    versions_are_told_apart();
    choices_are_taken();
}

/// Each call and each frame of a client keeps what it holds: what it signs is the words of a transaction that a slot
/// which it began formed by its own reads, each of which has its choice by replies that were taken as valid.
pub fn clients_hold()
    ensures { ClientsHold }
{}

/// Every run without a breach is safe: no transaction has both a commit and an abort certificate, and each committed
/// transaction of a correct client read, key by key, what the latest committed writer before it left, and told that.
pub fn runs_are_safe()
    ensures { RunsAreSafe }
{
    words_tell_fields();
    one_spelling();
    read_frames_fit();
    settings_are_sane();
    no_refusal_exactly();
    proofs_carry();
    certificates_are_certificates();
    replies_exactly();
    invariant_at_start();
    invariant_after_event();
    invariant_after_answer();
    agreement();
    voters();
    answers_are_acts();
    answers_keep_order();
    choices_are_taken();
    are_safe();
    reads_are_taken();
}

/// What ends a run is a real breach: of a correct party, a signature that the kit accepts on words that it had not
/// signed up to there; or two texts that differ and have one SHA-256.
pub fn breaches_are_real()
    ensures { BreachesAreReal }
{}

/// A run that ends in a breach is without one, and safe, in each part of it before the event that breaks.
pub fn runs_up_to_a_breach_are_safe()
    ensures { RunsUpToABreachAreSafe }
{
    runs_are_safe();
    breaches_are_real();
}
