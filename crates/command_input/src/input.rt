//! The bytes of the source.

ghost use Rattle.std.specs.Prelude.{◌≡◌, ◌<◌, IfOk, IfSome, IsErrOf};
ghost use Rattle.basil_types.specs.Causes.{Rose};
ghost use Rattle.command_ends.specs.Outcome.{is_too_long};
ghost use Rattle.command_input.specs.Inputs.{IsWhole, IsShort};
ghost use Rattle.command_input.specs.Reading.{IsReadThrough, StopsSoon};

use basil_types::bytes::Bytes;
use basil_types::memory::NoMemory;
use basil_types::source::{Failed, Source};
use std::alloc::Global;

/// The most bytes of an input that is read whole.
const LONGEST_INPUT: usize = 16_777_216;

/// The most bytes that are read at once.
pub const PIECE: usize = 4096;

/// Why an input came to nothing.
#[derive(Clone, Copy)]
pub enum InputFail {
    /// The source failed.
    Failed,
    /// A link failed.
    Link,
    /// Memory is wanting.
    NoMemory,
}

impl From<NoMemory> for InputFail {
    ghost use Rattle.std.specs.Prelude.{◌≡◌};
    ghost use Rattle.command_input.specs.declared.input.InputFail.TheVariants.{NoMemory};

    ghost from_gives = { λ _ e. e ≡ NoMemory };

    fn from(_refused: NoMemory) -> InputFail {
        InputFail::NoMemory
    }
}

/// An input that is read whole.
#[derive(Drop)]
pub enum Whole {
    /// All its bytes.
    Bytes(Bytes),
    /// It has more than 16,777,216.
    TooLong,
}

/// Reads a source to its end, unless it gives more than 16,777,216 bytes.
pub fn read_whole<S: Source>(alloc: Global, source: &mut S) -> Result<Whole, InputFail>
    ensures bytes { IfOk result (λ whole. IfSome (S.left source.old) (λ bytes. IsWhole whole bytes)) }
    ensures short { IfOk result IsShort }
    ensures through { IfOk result (λ _. IfSome (S.left source.old) (λ bytes.
        IsReadThrough is_too_long bytes (S.left source.new))) }
    ensures soon { IfSome (S.left source.old) (λ bytes. StopsSoon is_too_long bytes (S.left source.new)) }
    ensures failed { IsErrOf result InputFail.Failed → Rose (S.faults source.old) (S.faults source.new) }
    ensures told { S.faults source.old < S.faults source.new → IsErrOf result InputFail.Failed }
    ensures unlinked { IsErrOf result InputFail.Link → ⊥ }
{
    let mut all = Vec::new(alloc);
    let mut buf = [0u8; PIECE];
    'turns: for _ in 0..u64::MAX {
        match source.read(&mut buf) {
            Ok(0) => return Ok(Whole::Bytes(Bytes::from_vec(all))),
            Ok(count) => {
                if all.extend_from_slice(&buf[..count]).is_err() {
                    return Err(InputFail::NoMemory);
                }
            }
            Err(Failed) => return Err(InputFail::Failed),
        }
        if all.len() > LONGEST_INPUT {
            return Ok(Whole::TooLong);
        }
    }
    Err(InputFail::NoMemory)
}
