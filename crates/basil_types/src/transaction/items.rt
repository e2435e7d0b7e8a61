//! Readers of one read or one write.

ghost use Rattle.std.specs.Prelude.{◌≡◌};
ghost use Rattle.basil_types.specs.Parsed.{read_at, gives_at, given_at, write_at};
ghost use Rattle.basil_types.specs.Items.{read_of, write_of};
ghost use Rattle.basil_types.specs.Steps.{Gives};

use super::parts::{ReadItem, WriteItem};
use crate::reading::{Fault, flag, next_key, value, version};

/// A read whose key is above the one before it.
#[tactic(auto, unfolding(crate::specs::Parsed::read_at))]
pub(crate) fn read<'a>(before: &[u8], bytes: &'a [u8]) -> Result<(ReadItem<'a>, &'a [u8]), Fault>
    ensures { Gives (λ x. (read_of x.0, x.1.now)) result (read_at before.now bytes.now) }
{
    let (key, rest) = next_key(before, bytes)?;
    let (version, rest) = version(rest)?;
    let (dependency, rest) = flag(rest)?;
    Ok((
        ReadItem {
            key,
            version,
            dependency,
        },
        rest,
    ))
}

/// Whether a value follows.
#[tactic(auto, unfolding(crate::specs::Parsed::gives_at))]
fn gives(format: u8, bytes: &[u8]) -> Result<(bool, &[u8]), Fault>
    ensures { Gives (λ x. (x.0, x.1.now)) result (gives_at format bytes.now) }
{
    if format == 1 {
        Ok((true, bytes))
    } else {
        flag(bytes)
    }
}

/// The value, or the empty one where none follows.
#[tactic(auto, unfolding(crate::specs::Parsed::given_at))]
fn given(gives: bool, bytes: &[u8]) -> Result<(&[u8], &[u8]), Fault>
    ensures { Gives (λ x. (x.0.now, x.1.now)) result (given_at gives bytes.now) }
{
    if gives {
        value(bytes)
    } else {
        Ok((&bytes[..0], bytes))
    }
}

/// A write whose key is above the one before it.
#[tactic(auto, unfolding(crate::specs::Parsed::write_at))]
pub(crate) fn write<'a>(
    format: u8,
    before: &[u8],
    bytes: &'a [u8],
) -> Result<(WriteItem<'a>, &'a [u8]), Fault>
    ensures { Gives (λ x. (write_of x.0, x.1.now)) result (write_at format before.now bytes.now) }
{
    let (key, rest) = next_key(before, bytes)?;
    let (given_one, rest) = gives(format, rest)?;
    let (value, rest) = given(given_one, rest)?;
    Ok((
        WriteItem {
            key,
            value,
            deletes: !given_one,
        },
        rest,
    ))
}
