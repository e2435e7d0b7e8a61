//! A cluster's file that is refused.

ghost use Rattle.std.specs.Prelude.{◌≡◌};
ghost use Rattle.command_input.specs.Files as files;

use cluster_file::{NOT_A_FILE, REFUSED_CLUSTER, WRONG_PARTIES};
use line_fields::reason::Reason;

/// The reason of a file that is refused, by its number.
pub fn file_reason(number: u8) -> Reason
    ensures { result ≡ files.file_reason number }
{
    match number {
        REFUSED_CLUSTER => Reason::NoHeader,
        NOT_A_FILE => Reason::Misspelt,
        WRONG_PARTIES => Reason::OutOfRange,
        _ => Reason::OutOfSize,
    }
}
