//! Every run agrees.

ghost use Rattle.cluster_run.specs.Headline.{RunsAgree};

use crate::acts::{answers_are_acts, answers_keep_order};
use agreement_laws::{
    agreement, invariant_after_answer, invariant_after_event, invariant_at_start,
};
use basil_types::transaction::one_spelling;
use basil_types::words::words_tell_fields;
use certificates::laws::{no_refusal_exactly, proofs_carry};
use frame_views::laws::read_frames_fit;
use law_joins::shown::certificates_are_certificates;
use serial_laws::settings_are_sane;

/// In every run without a breach no transaction has both a commit and an abort certificate.
pub fn runs_agree()
    ensures { RunsAgree }
{
    words_tell_fields();
    one_spelling();
    read_frames_fit();
    settings_are_sane();
    no_refusal_exactly();
    proofs_carry();
    certificates_are_certificates();
    invariant_at_start();
    invariant_after_event();
    invariant_after_answer();
    agreement();
    answers_are_acts();
    answers_keep_order();
}
