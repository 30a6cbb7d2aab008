// A sink over a writer of std.
ghost use Rattle.std.specs.Prelude.{ℕ, List, None};
ghost use Rattle.std.specs.declared.option.Option.{Option};

use crate::told::told;
use crate::{Failed, Sink};
use std::io::Write;

/// What a writer takes. It tells no content. A piece is written whole and flushed; an error of the
/// writer is a failure, and so is a write of 0 bytes of a piece that isn't empty.
#[derive(Drop)]
pub struct WriteSink<W> {
    inner: W,
    failures: u64,
}

impl<W> WriteSink<W> {
    /// A sink over the writer.
    pub fn new(inner: W) -> WriteSink<W> {
        WriteSink { inner, failures: 0 }
    }
}

impl<W: Write> Sink for WriteSink<W> {
    ghost put_bytes = { λ _. None };

    ghost failures = { λ s. s.failures };

    fn put(&mut self, piece: &[u8]) -> Result<(), Failed> {
        let written = self.inner.write_all(piece).ok();
        told(&mut self.failures, written)?;
        let flushed = self.inner.flush().ok();
        told(&mut self.failures, flushed)
    }
}
