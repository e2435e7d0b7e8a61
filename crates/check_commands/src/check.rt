//! Whether a writeback's certificate proves its decision.

ghost use Rattle.std.specs.Prelude.{◌≡◌, IfOk, None, Ok};
ghost use Rattle.basil_types.specs.Shown.{transaction_of};
ghost use Rattle.frame_views.specs.Fitting.{FitsCertificate, FitsWriteback, bounds_of};
ghost use Rattle.frame_views.specs.Shown.{certificate_of, writeback_of};
ghost use Rattle.txn_meta.specs.Form.{form_fault};
ghost use Rattle.check_commands.specs.Checking as checking;
ghost use Rattle.check_commands.specs.Checking.{accepted_by, proved_by, judged, judged_alone};
ghost use Rattle.check_commands.specs.Checking.{framed, writeback_on, checked_under, headed, checked, Framed};
ghost use Rattle.line_fields.specs.TextLines.{lines_of};
ghost use Rattle.command_ends.specs.Endings.{outcome_is};

use crate::proving::{judge_by, judge_by_replay};
use basil_types::cluster::Cluster;
use basil_types::memory::NoMemory;
use basil_types::transaction::TransactionView;
use batch_sign::BatchKeys;
use command_ends::ending::Ending;
use frame_views::certificates::CertificateView;
use frame_views::frames::{MessageView, WritebackView};
use keyring::plain::PlainKeys;
use line_fields::fields::frames::read_hex;
use line_fields::keys_kind::KeysKind;
use line_fields::lines::first_line;
use line_fields::reason::Reason;
use lms_sign::LmsSet;
use schedule_text::line::{Line, LineFault};
use schedule_text::reading::read_line;
use std::alloc::Global;
use txn_meta::form::check_form;

/// The keys of a replay.
#[derive(Clone, Copy)]
pub(crate) enum Ring {
    /// Plain ones.
    Plain,
    /// Those of LMS, with this parameter set.
    Lms { set: LmsSet },
    /// Plain ones, of signatures in batches.
    Batch,
}

/// The keys that a header asks for.
fn ring_of(keys: KeysKind) -> Ring
    ensures { result ≡ checking.ring_of keys }
{
    match keys {
        KeysKind::Plain => Ring::Plain,
        KeysKind::W4H5 => Ring::Lms { set: LmsSet::W4H5 },
        KeysKind::W4H10 => Ring::Lms { set: LmsSet::W4H10 },
        KeysKind::W8H5 => Ring::Lms { set: LmsSet::W8H5 },
        KeysKind::W8H10 => Ring::Lms { set: LmsSet::W8H10 },
        KeysKind::Batch => Ring::Batch,
    }
}

/// Whether a certificate proves the decision that it is for, by the keys of a replay.
fn judge_with(
    alloc: Global,
    ring: Ring,
    cluster: &Cluster,
    t: TransactionView<'_>,
    c: &CertificateView<'_>,
) -> Result<Ending, NoMemory>
    requires form { form_fault (transaction_of t) ≡ None }
    requires fits { FitsCertificate (bounds_of cluster.now) (certificate_of c.now) }
    ensures { IfOk result
        (λ e. outcome_is e
        ≡ proved_by (accepted_by cluster.now ring) cluster.now (transaction_of t.entry) (certificate_of c.now)) }
{
    match ring {
        Ring::Plain => judge_by(alloc, &PlainKeys::new(cluster), cluster, t, c),
        Ring::Lms { set } => judge_by_replay(alloc, set, cluster, t, c),
        Ring::Batch => judge_by(
            alloc,
            &BatchKeys::new(PlainKeys::new(cluster)),
            cluster,
            t,
            c,
        ),
    }
}

/// The same after the form of the transaction.
#[tactic(auto, unfolding(crate::specs::Checking::judged))]
fn judge(
    alloc: Global,
    ring: Ring,
    cluster: &Cluster,
    m: &WritebackView<'_>,
) -> Result<Ending, NoMemory>
    requires { FitsWriteback (bounds_of cluster.now) (writeback_of m.now) }
    ensures { IfOk result (λ e. outcome_is e ≡ judged (accepted_by cluster.now ring) cluster.now (writeback_of m.now)) }
{
    match check_form(m.transaction) {
        Ok(()) => judge_with(alloc, ring, cluster, m.transaction, &m.certificate),
        Err(_) => Ok(Ending::Refused { reason: 7 }),
    }
}

/// The writeback that a frame says, or the reason why the line is refused.
#[tactic(auto, unfolding(crate::specs::Checking::framed))]
pub(crate) fn read_writeback<'a>(
    bytes: &'a [u8],
    cluster: &Cluster,
) -> Result<WritebackView<'a>, Reason>
    ensures value { Framed result (framed cluster.now bytes.now) }
    ensures fits { IfOk result (λ m. FitsWriteback (bounds_of cluster.now) (writeback_of m)) }
{
    match frame_views::frames::check(bytes, cluster) {
        Ok(MessageView::Writeback(m)) => Ok(m),
        Ok(_) => Err(Reason::Misspelt),
        Err(_) => Err(Reason::OutOfSize),
    }
}

/// What the second line and those behind it lead to.
fn check_lines(
    alloc: Global,
    ring: Ring,
    cluster: &Cluster,
    line: &[u8],
    more: &[u8],
) -> Result<Ending, NoMemory>
    ensures { IfOk result
        (λ e. outcome_is e ≡ judged_alone ring cluster.now (writeback_on cluster.now line.now) (lines_of more.now)) }
{
    let Ok(bytes) = read_hex(alloc, line)? else {
        return Ok(Ending::BadLine {
            line: 2,
            reason: Reason::OutOfSize,
        });
    };
    match read_writeback(bytes.as_slice(), cluster) {
        Ok(m) => {
            if first_line(more).is_some() {
                return Ok(Ending::BadLine {
                    line: 3,
                    reason: Reason::Misspelt,
                });
            }
            judge(alloc, ring, cluster, &m)
        }
        Err(reason) => Ok(Ending::BadLine { line: 2, reason }),
    }
}

/// What the lines behind a header lead to.
fn check_under(
    alloc: Global,
    cluster: &Cluster,
    keys: KeysKind,
    bytes: &[u8],
) -> Result<Ending, NoMemory>
    ensures { IfOk result (λ e. outcome_is e ≡ checked_under cluster.now (checking.ring_of keys) (lines_of bytes.now)) }
{
    let Some((line, more)) = first_line(bytes) else {
        return Ok(Ending::BadLine {
            line: 2,
            reason: Reason::OutOfSize,
        });
    };
    check_lines(alloc, ring_of(keys), cluster, line, more)
}

/// What a first line and those behind it lead to.
fn check_headed(alloc: Global, line: &Line, more: &[u8]) -> Result<Ending, NoMemory>
    ensures { IfOk result (λ e. outcome_is e ≡ headed (Ok line.now) (lines_of more.now)) }
{
    match line {
        Line::Header { cluster, keys, .. } => check_under(alloc, cluster, *keys, more),
        _ => Ok(Ending::BadLine {
            line: 1,
            reason: Reason::NoHeader,
        }),
    }
}

/// What the bytes of an input to `check` lead to.
pub fn check(alloc: Global, bytes: &[u8]) -> Result<Ending, NoMemory>
    ensures { IfOk result (λ e. outcome_is e ≡ checked bytes.now) }
{
    let Some((first, more)) = first_line(bytes) else {
        return Ok(Ending::BadLine {
            line: 1,
            reason: Reason::NoHeader,
        });
    };
    match read_line(alloc, first, 1) {
        Ok(line) => check_headed(alloc, &line, more),
        Err(LineFault::BadLine { .. }) => Ok(Ending::BadLine {
            line: 1,
            reason: Reason::NoHeader,
        }),
        Err(LineFault::NoMemory) => Err(NoMemory),
    }
}
