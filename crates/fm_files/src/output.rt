// Where the program's bytes go.
ghost use Rattle.std.specs.Prelude.{ℕ, List, None};
ghost use Rattle.std.specs.declared.option.Option.{Option};

use crate::failures::Failures;
use crate::trouble::{Trouble, of};
use fm_outer::{Failed, Sink};
use std::io::Write;

/// A sink over a writer. A piece is written whole and flushed.
#[derive(Drop)]
pub struct Output<W> {
    name: &'static str,
    writer: W,
    failures: Failures,
}

impl<W> Output<W> {
    /// A sink over the writer, which has this name.
    pub fn new(name: &'static str, writer: W) -> Output<W> {
        Output {
            name,
            writer,
            failures: Failures::new(),
        }
    }

    /// Why it first failed, if it did.
    pub fn trouble(&self) -> Option<Trouble> {
        self.failures.first()
    }
}

impl<W: Write> Sink for Output<W> {
    ghost put_bytes = { λ _. None };

    ghost failures = { λ s. s.failures.count };

    fn put(&mut self, piece: &[u8]) -> Result<(), Failed> {
        let written = of(self.name, self.writer.write_all(piece));
        self.failures.told(written)?;
        let flushed = of(self.name, self.writer.flush());
        self.failures.told(flushed)
    }
}
