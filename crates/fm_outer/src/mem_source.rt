// A source in memory.
ghost use Rattle.std.specs.Prelude.{◌≡◌, ℕ, ◌<◌, ◌≤◌, ◌++◌, length, take, drop, not, true, false};
ghost use Rattle.std.specs.Prelude.{is_ok, IfOk, OnErr, Some};
ghost use Rattle.std.specs.Io.{ReadsAtMost};
ghost use Rattle.std.specs.Io.KnownBytes.{ReadConsumes};
ghost use Rattle.fm_outer.specs.Failures.{HasCause};
ghost use Rattle.fm_outer.specs.FailPlan.{is_due, fresh_plan};
ghost use Rattle.fm_outer.specs.MemSource.{given_count, source_after};

use crate::fail_plan::FailPlan;
use crate::{Failed, Source};
use std::marker::Model;

/// Bytes in memory, given in pieces. The calls whose numbers it was told fail, and no others; the
/// first call has the number 0.
#[derive(Drop)]
pub struct MemSource {
    bytes: Vec<u8>,
    at: usize,
    piece: usize,
    plan: FailPlan,
}

impl Model for MemSource {
    ghost use Rattle.std.specs.Prelude.{◌≤◌, length, drop};
    ghost use Rattle.fm_outer.specs.MemSource.{SourceState};

    ghost Value = { SourceState };

    ghost view = { λ s. record { left = drop s.at s.bytes.items; piece = s.piece; plan = s.plan } };

    ghost invariant = { λ s. (s.at ≤ length s.bytes.items) × (1 ≤ s.piece) };
}

impl MemSource {
    /// A source of these bytes that gives at most `piece` of them a call.
    pub fn new(bytes: Vec<u8>, piece: usize, fails: Vec<u64>) -> MemSource
        requires { 1 ≤ piece }
        ensures { result ≡ record {
          left = bytes.items;
          piece = piece;
          plan =
              fresh_plan fails.items;
        } }
    {
        MemSource {
            bytes,
            at: 0,
            piece,
            plan: FailPlan::new(fails),
        }
    }

    /// The bytes that are left.
    pub fn rest(&self) -> &[u8]
        ensures { result.now ≡ self.now.left }
    {
        &self.bytes[self.at..]
    }
}

// Puts the front of `from` at the front of `buf`.
fn fill_front(buf: &mut [u8], from: &[u8], count: usize)
    requires room { count ≤ length buf.old }
    requires enough { count ≤ length from.now }
    ensures { from.now ≡ take count buf.new ++ drop count from.now }
{
    buf[..count].copy_from_slice(&from[..count]);
}

impl Source for MemSource {
    ghost left = { λ s. Some s.left };

    ghost failures = { λ s. s.plan.failures };

    fn next(&mut self, buf: &mut [u8]) -> Result<usize, Failed>
        requires { 0 < length buf.old }
        ensures bound { ReadsAtMost result buf.new }
        ensures bytes { ReadConsumes (Some self.old.left) (Some self.new.left) result buf.new }
        ensures cause { HasCause self.old.plan.failures self.new.plan.failures result }
        // It fails exactly where it is due to.
        ensures fails { is_ok result ≡ not (is_due self.old.plan) }
        ensures count { IfOk result (λ n. (n ≡ given_count self.old (length buf.old))
            × (self.new ≡ source_after true n self.old)) }
        ensures err { OnErr result (self.new ≡ source_after false 0 self.old) }
    {
        let done = !self.plan.is_due();
        self.plan.answer(done)?;
        let rest = self.rest();
        let count = self.piece.min(buf.len().min(rest.len()));
        fill_front(buf, rest, count);
        self.at += count;
        Ok(count)
    }
}
