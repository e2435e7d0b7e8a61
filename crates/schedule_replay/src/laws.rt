//! The laws of every schedule.

ghost use Rattle.schedule_replay.specs.Laws.{BreaksAreReal, ReportsAreSafe};

use cluster_run::kits::{lms_kits_sign, plain_kits_sign};
use cluster_run::safety::{runs_are_safe, runs_up_to_a_breach_are_safe};
use premise_watch::laws::counted_are_few;
use replay_kit::batch_kits_sign;
use schedule_text::laws::grammar_is_read;

/// A report is that of a run in which at most f replicas of each shard are faulty, and the run is safe: no transaction
/// has both a commit and an abort certificate, and each committed transaction of a correct client read, key by key,
/// what the latest committed writer before it wrote.
pub fn reports_are_safe()
    ensures { ReportsAreSafe }
{
    grammar_is_read();
    counted_are_few();
    plain_kits_sign();
    lms_kits_sign();
    batch_kits_sign();
    runs_are_safe();
}

/// What is told as broken is the breach in which a schedule's run ends, at one of its lines: of a correct party, a
/// signature that the kit accepts on words that it had not signed up to there; or two texts that differ and have one
/// SHA-256. The run is safe until there.
pub fn breaks_are_real()
    ensures { BreaksAreReal }
{
    grammar_is_read();
    counted_are_few();
    plain_kits_sign();
    lms_kits_sign();
    batch_kits_sign();
    runs_up_to_a_breach_are_safe();
}
