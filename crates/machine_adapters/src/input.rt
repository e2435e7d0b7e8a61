//! Standard input as a source.

ghost use Rattle.std.specs.Prelude.{◌≡◌};

use basil_types::source::{Failed, Source};
use std::io::Read;

/// A source over any reader, with a count of its faults.
#[derive(Drop)]
pub struct Input<R> {
    inner: R,
    faults: u64,
}

impl<R: Read> Input<R> {
    /// A source over this reader. No read has failed.
    pub fn new(inner: R) -> Input<R>
        ensures { result ≡ record { inner = inner; faults = 0 } }
    {
        Input { inner, faults: 0 }
    }
}

impl<R: Read> Source for Input<R> {
    ghost left = { λ s. R.remaining s.inner };

    ghost faults = { λ s. s.faults };

    fn read(&mut self, buf: &mut [u8]) -> Result<usize, Failed> {
        match self.inner.read(buf) {
            Ok(count) => Ok(count),
            Err(_) => {
                self.faults = self.faults.saturating_add(1);
                Err(Failed)
            }
        }
    }
}
