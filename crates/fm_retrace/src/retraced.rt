//! A module that takes entries again.

ghost use Rattle.std.specs.Prelude.{◌≡◌, ◌+◌, ◌≤◌, ◌^◌, ℕ, max, length, All, IfOk, true, false};
ghost use Rattle.fm_core.specs.Folds.{state_along};
ghost use Rattle.fm_entry.specs.Entries.{IsSpelled};
ghost use Rattle.fm_entry.specs.Words.{IsSpelledSpoken};
ghost use Rattle.fm_retrace.specs.Retracing.{SaysNext, entries_between};

use crate::words::says_just;
use fm_bytes::NoMemory;
use fm_core::Module;
use fm_entry::{Entry, Spoken};
use std::alloc::Global;

/// An object of a module that takes entries again: it has come to one past the last number that it
/// spoke at, or to the base where that is greater.
#[derive(Drop)]
pub struct Retraced<M> {
    pub object: M,
    /// One past the last number that it spoke at; 0 before.
    pub past: u64,
}

impl<M: Module> Retraced<M> {
    /// Whether what it says next, along the entries from the base on, is just the record. Then it
    /// has come there.
    pub(crate) fn take(
        &mut self,
        alloc: Global,
        base: u64,
        entries: &[Entry],
        record: &Spoken,
    ) -> Result<bool, NoMemory>
        requires few { base + length entries.now ≤ 2 ^ 46 }
        requires entries { All IsSpelled entries.now }
        requires spelled { IsSpelledSpoken record.now }
        requires own { (M.meaning self.old.object).own ≡ record.now.module }
        ensures yes { IfOk result (λ says. says ≡ true → SaysNext base entries.now
            (M.meaning self.old.object) (M.state self.old.object) self.old.past record.now) }
        ensures no { IfOk result (λ says. says ≡ false → SaysNext base entries.now
            (M.meaning self.old.object) (M.state self.old.object) self.old.past record.now → ⊥) }
        ensures past { IfOk result (λ says. says ≡ true
            → self.new.past ≡ record.now.number + 1) }
        ensures taken { IfOk result (λ says. says ≡ true → M.state self.new.object
            ≡ state_along (M.meaning self.old.object) (M.state self.old.object)
            (max base self.old.past) (entries_between base (max base self.old.past)
            (max base (record.now.number + 1)) entries.now)) }
        ensures kept { M.meaning self.new.object ≡ M.meaning self.old.object }
        ensures within { self.old.past ≤ base + length entries.now
            → self.new.past ≤ base + length entries.now }
    {
        if record.number < self.past {
            return Ok(false);
        }
        if record.number < base {
            self.past = record.number + 1;
            return Ok(true);
        }
        if record.number - base >= entries.len() as u64 {
            return Ok(false);
        }
        let first = base.max(self.past);
        let later = &entries[(first - base) as usize..];
        let piece = &later[..(record.number + 1 - first) as usize];
        if says_just(alloc, &mut self.object, first, piece, record)? {
            self.past = record.number + 1;
            Ok(true)
        } else {
            Ok(false)
        }
    }
}
