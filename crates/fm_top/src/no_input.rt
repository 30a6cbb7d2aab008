// The input of what reads none.
use fm_outer::{Failed, Source};

/// A source of no bytes.
#[derive(Drop)]
pub(crate) struct NoInput;

impl Source for NoInput {
    ghost use Rattle.std.specs.Prelude.{Some, []};

    ghost left = { λ _. Some [] };

    ghost failures = { λ _. 0 };

    fn next(&mut self, _buf: &mut [u8]) -> Result<usize, Failed> {
        Ok(0)
    }
}
