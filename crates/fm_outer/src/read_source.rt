// A source over a reader of std.
ghost use Rattle.std.specs.Prelude.{ℕ, List, None};
ghost use Rattle.std.specs.declared.option.Option.{Option};

use crate::told::told;
use crate::{Failed, Source};
use std::io::Read;

/// What a reader gives. It tells no content, and fails exactly where the reader answers an error.
#[derive(Drop)]
pub struct ReadSource<R> {
    inner: R,
    failures: u64,
}

impl<R> ReadSource<R> {
    /// A source over the reader.
    pub fn new(inner: R) -> ReadSource<R> {
        ReadSource { inner, failures: 0 }
    }
}

impl<R: Read> Source for ReadSource<R> {
    ghost left = { λ _. None };

    ghost failures = { λ s. s.failures };

    fn next(&mut self, buf: &mut [u8]) -> Result<usize, Failed> {
        let answer = self.inner.read(buf).ok();
        told(&mut self.failures, answer)
    }
}
