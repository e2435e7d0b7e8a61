//! Whether each read of listed transactions is what the serial order gives it.

ghost use Rattle.std.specs.Prelude.{◌≡◌, ◌≤◌, IfOk, length};
ghost use Rattle.audit_text.specs.Findings.{finding_of};
ghost use Rattle.command_ends.specs.Outcome.{longest_input};
ghost use Rattle.check_commands.specs.Auditing.{audited};
ghost use Rattle.command_ends.specs.Endings.{outcome_is};

use audit_text::finding::{Finding, audit_text};
use basil_types::bytes::Bytes;
use basil_types::memory::NoMemory;
use command_ends::ending::Ending;
use std::alloc::Global;

/// What the bytes of an input to `audit` lead to.
pub fn audit(alloc: Global, bytes: &[u8]) -> Result<Ending, NoMemory>
    requires { length bytes.now ≤ longest_input }
    ensures { IfOk result (λ e. outcome_is e ≡ audited (finding_of bytes.now)) }
{
    match audit_text(alloc, bytes)? {
        Finding::BadLine { line, reason } => Ok(Ending::BadLine { line, reason }),
        Finding::Serial => Ok(Ending::Written(Bytes::copy_of(alloc, b"serial\n")?)),
        Finding::Stray(line) => Ok(Ending::Stray(line)),
    }
}
