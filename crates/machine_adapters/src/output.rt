//! Standard output as a sink.

ghost use Rattle.std.specs.Prelude.{◌≡◌};

use basil_types::sink::Sink;
use basil_types::source::Failed;
use std::io::Write;

/// A sink over any writer, with a count of its faults. It doesn't tell what it has taken.
#[derive(Drop)]
pub struct Output<W> {
    inner: W,
    faults: u64,
}

impl<W: Write> Output<W> {
    /// A sink over this writer. No write has failed.
    pub fn new(inner: W) -> Output<W>
        ensures { result ≡ record { inner = inner; faults = 0 } }
    {
        Output { inner, faults: 0 }
    }
}

impl<W: Write> Sink for Output<W> {
    ghost use Rattle.std.specs.Prelude.{None};

    ghost taken = { λ _. None };

    ghost faults = { λ s. s.faults };

    fn write(&mut self, bytes: &[u8]) -> Result<(), Failed> {
        match self.inner.write_all(bytes) {
            Ok(()) => Ok(()),
            Err(_) => {
                self.faults = self.faults.saturating_add(1);
                Err(Failed)
            }
        }
    }
}
