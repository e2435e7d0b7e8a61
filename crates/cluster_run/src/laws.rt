//! The laws of every run without a breach, by their names.

ghost use Rattle.cluster_run.specs.RunLaws.{InEveryRun, Invariant, SeenAreFound};
ghost use Rattle.cluster_run.specs.RunLaws.{Counting, LockIn, Exclusion, Dependency, HaveCauses};

use crate::acts::{answers_are_acts, answers_keep_order};
use agreement_laws::{
    counting, dependency, exclusion, invariant_after_answer, invariant_after_event,
    invariant_at_start, lock_in,
};
use basil_types::transaction::one_spelling;
use basil_types::words::words_tell_fields;
use certificates::laws::{no_refusal_exactly, proofs_carry};
use frame_views::laws::read_frames_fit;
use law_joins::shown::certificates_are_certificates;
use serial_laws::settings_are_sane;

/// In every run the invariant of the argument for agreement holds, with the transactions that were seen; and each of
/// them is the one of its id.
pub fn invariant_in_every_run()
    ensures invariant { InEveryRun Invariant }
    ensures found { SeenAreFound }
{
    words_tell_fields();
    one_spelling();
    read_frames_fit();
    settings_are_sane();
    no_refusal_exactly();
    proofs_carry();
    certificates_are_certificates();
    invariant_at_start();
    invariant_after_event();
    invariant_after_answer();
    answers_are_acts();
    answers_keep_order();
}

/// In every run no transaction that can be committed can have a fast or a logged abort certificate, over all views.
pub fn runs_count()
    ensures { InEveryRun Counting }
{
    settings_are_sane();
    counting();
    invariant_in_every_run();
}

/// In every run the log certificates of a transaction name one decision, over all views.
pub fn runs_lock_in()
    ensures { InEveryRun LockIn }
{
    settings_are_sane();
    lock_in();
    invariant_in_every_run();
}

/// In every run no two transactions that can both be committed conflict.
pub fn runs_exclude()
    ensures { InEveryRun Exclusion }
{
    settings_are_sane();
    exclusion();
    invariant_in_every_run();
}

/// In every run what a transaction that can be committed depends on can be committed.
pub fn runs_depend()
    ensures { InEveryRun Dependency }
{
    settings_are_sane();
    dependency();
    invariant_in_every_run();
}

/// In every run each transaction of which an abort certificate was seen has a fast or a logged one, or is blocked: a
/// commit tally's worth of replicas of a shard won't vote to commit it, since one that conflicts can be committed.
pub fn aborts_have_causes()
    ensures { InEveryRun HaveCauses }
{
    invariant_in_every_run();
}
