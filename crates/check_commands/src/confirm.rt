//! Whether a writeback's certificate proves its decision to who has the file of the cluster.

ghost use Rattle.std.specs.Prelude.{◌≡◌, IfOk, Ok};
ghost use Rattle.check_commands.specs.Checking.{judged};
ghost use Rattle.check_commands.specs.Confirming.{confirmed, confirmed_by};
ghost use Rattle.command_ends.specs.Endings.{outcome_is};
ghost use Rattle.cluster_file.specs.Text.{cluster_in};
ghost use Rattle.frame_views.specs.Fitting.{FitsWriteback, bounds_of};
ghost use Rattle.frame_views.specs.Shown.{writeback_of};
ghost use Rattle.keyring_lms.specs.Keys.{lms_accepts};

use crate::check::read_writeback;
use crate::proving::judge_by;
use basil_types::memory::NoMemory;
use cluster_file::{ClusterFile, FileFault, read_cluster};
use command_ends::ending::Ending;
use command_input::files::file_reason;
use frame_views::frames::WritebackView;
use keyring_lms::LmsKeys;
use line_fields::fields::frames::read_hex;
use line_fields::lines::next_line;
use line_fields::reason::Reason;
use std::alloc::Global;
use txn_meta::form::check_form;

/// Whether a writeback's certificate proves its decision, by the public keys of a cluster's file.
#[tactic(auto, unfolding(crate::specs::Checking::judged))]
fn judge_in(alloc: Global, file: &ClusterFile, m: &WritebackView<'_>) -> Result<Ending, NoMemory>
    requires { FitsWriteback (bounds_of file.now.cluster) (writeback_of m.now) }
    ensures { IfOk result (λ e.
        outcome_is e ≡ judged (lms_accepts file.now.publics) file.now.cluster (writeback_of m.now)) }
{
    match check_form(m.transaction) {
        Ok(()) => {
            let keys = LmsKeys::from_publics(alloc, file.publics())?;
            judge_by(alloc, &keys, &file.cluster, m.transaction, &m.certificate)
        }
        Err(_) => Ok(Ending::Refused { reason: 7 }),
    }
}

/// What a line leads to in the cluster of a file.
fn confirm_in(alloc: Global, file: &ClusterFile, line: &[u8]) -> Result<Ending, NoMemory>
    ensures { IfOk result (λ e. outcome_is e ≡ confirmed_by line.now (Ok file.now)) }
{
    let Ok(bytes) = read_hex(alloc, line)? else {
        return Ok(Ending::BadLine {
            line: 1,
            reason: Reason::OutOfSize,
        });
    };
    match read_writeback(bytes.as_slice(), &file.cluster) {
        Ok(m) => judge_in(alloc, file, &m),
        Err(reason) => Ok(Ending::BadLine { line: 1, reason }),
    }
}

/// What a line and the bytes of a cluster's file lead to.
fn confirm_by(alloc: Global, line: &[u8], file: &[u8]) -> Result<Ending, NoMemory>
    ensures { IfOk result (λ e. outcome_is e ≡ confirmed_by line.now (cluster_in file.now)) }
{
    match read_cluster(alloc, file) {
        Ok(file) => confirm_in(alloc, &file, line),
        Err(FileFault::BadFile { reason }) => Ok(Ending::BadLine {
            line: 2,
            reason: file_reason(reason),
        }),
        Err(FileFault::NoMemory) => Err(NoMemory),
    }
}

/// What the bytes of an input to `confirm` lead to. An empty one is an empty line before an empty file.
pub fn confirm(alloc: Global, bytes: &[u8]) -> Result<Ending, NoMemory>
    ensures { IfOk result (λ e. outcome_is e ≡ confirmed bytes.now) }
{
    if bytes.is_empty() {
        return confirm_by(alloc, &[], &[]);
    }
    let (line, file) = next_line(bytes);
    confirm_by(alloc, line, file)
}
