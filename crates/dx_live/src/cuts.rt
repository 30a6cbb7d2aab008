//! Which links of a region are cut: a mark for each effect of each instance.

ghost use Rattle.std.specs.Prelude.{◌≡◌, ◌==◌, ◌&&◌, ◌||◌, ◌+◌, ◌<◌, ◌^◌, ℕ, true, false, None};
ghost use Rattle.std.specs.Prelude.{length, slice_set, IfOk, IfSome};
ghost use Rattle.ev_incidence.specs.Sets.{is_member, has_mark, ascends};
ghost use Rattle.dx_live.specs.Cuts.{CutsValue, mark_place, cut_at, AreStarts, AreAscending};

use crate::region::{number_at, place_among};
use ev_graph::{CutTest, NoMemory};
use ev_incidence::Incidence;
use smallvec::SmallVec;
use std::alloc::Global;
use std::marker::Model;

/// A mark for each effect of each instance of an incidence. It takes a byte an effect and 4 an
/// instance, in the value itself where there are at most four of them.
#[derive(Drop)]
pub struct Cuts {
    /// Where the marks of each instance begin.
    starts: SmallVec<u32, 4>,
    marks: SmallVec<bool, 4>,
    /// Whether some link may be cut: where none is, no mark is looked for.
    is_marked: bool,
}

impl Model for Cuts {
    ghost use Rattle.std.specs.Prelude.{◌≡◌, ℕ, false};
    ghost use Rattle.ev_incidence.specs.Sets.{has_mark};
    ghost use Rattle.dx_live.specs.Cuts.{CutsValue};

    ghost Value = { CutsValue };

    ghost view = { λ c. record { starts = c.starts.items; marks = c.marks.items } };

    ghost invariant = { λ c.
        c.is_marked ≡ false → (e : ℕ) → has_mark c.marks.items e ≡ false };
}

fn starts_of(alloc: Global, table: &Incidence) -> Result<(SmallVec<u32, 4>, u32), NoMemory>
    ensures { IfOk result (λ made. AreStarts (length table.now.effects) table.now.effects
        made.0.items made.1) }
{
    let mut starts = SmallVec::new(alloc);
    let mut total = 0;
    let count = table.count() as u32;
    for place in 0..count {
        let more = table.effects(place).len() as u32;
        if more > u32::MAX - total {
            return Err(NoMemory);
        }
        starts.push(total)?;
        total += more;
    }
    Ok((starts, total))
}

impl Cuts {
    /// No link is cut. 2^32 effects or more are want of memory.
    pub fn new(alloc: Global, table: &Incidence) -> Result<Cuts, NoMemory>
        ensures starts { IfOk result (λ cuts. AreStarts (length table.now.effects)
            table.now.effects cuts.starts (length cuts.marks)) }
        ensures none { IfOk result (λ cuts. (e : ℕ) → has_mark cuts.marks e ≡ false) }
    {
        let (starts, total) = starts_of(alloc, table)?;
        let marks = SmallVec::from_elem(alloc, false, total as usize)?;
        Ok(Cuts {
            starts,
            marks,
            is_marked: false,
        })
    }

    /// Equal marks.
    pub fn copy(&self, alloc: Global) -> Result<Cuts, NoMemory>
        ensures { IfOk result (λ cuts. cuts ≡ self.now) }
    {
        let starts = SmallVec::from_slice(alloc, self.starts.as_slice())?;
        let marks = SmallVec::from_slice(alloc, self.marks.as_slice())?;
        Ok(Cuts {
            starts,
            marks,
            is_marked: self.is_marked,
        })
    }

    /// Where the mark of an effect stands, of the instance with these effects.
    pub fn place_of(&self, effects: &[u32], place: u32, effect: u32) -> Option<usize>
        requires ascend { ascends effects.now ≡ true }
        requires few { length effects.now < 2 ^ 32 }
        ensures found { IfSome result (λ at. (is_member effects.now effect ≡ true)
            × (at ≡ mark_place self.now effects.now place effect)) }
        ensures none { result ≡ None → is_member effects.now effect ≡ false }
    {
        match place_among(effects, effect) {
            Some(at) => Some(number_at(self.starts.as_slice(), place) as usize + at as usize),
            None => None,
        }
    }

    /// Whether there is a mark at a place.
    pub fn has(&self, at: usize) -> bool
        ensures { result ≡ has_mark self.now.marks at }
    {
        self.marks.get(at).copied().unwrap_or(false)
    }

    /// Whether the link of an effect is cut, of the instance with these effects.
    pub fn is_cut(&self, effects: &[u32], place: u32, effect: u32) -> bool
        requires ascend { ascends effects.now ≡ true }
        requires few { length effects.now < 2 ^ 32 }
        ensures { result ≡ (is_member effects.now effect
            && has_mark self.now.marks (mark_place self.now effects.now place effect)) }
    {
        if !self.is_marked {
            return false;
        }
        match self.place_of(effects, place, effect) {
            Some(at) => self.has(at),
            None => false,
        }
    }

    /// Puts a mark at a place.
    pub fn mark(&mut self, at: usize)
        requires { at < length self.old.marks }
        ensures { self.new ≡ record self.old { marks = slice_set self.old.marks at true } }
    {
        self.is_marked = true;
        self.marks[at] = true;
    }
}

/// The links of an incidence that are cut.
#[derive(Drop)]
pub struct LocalCuts<'a> {
    pub table: &'a Incidence,
    pub cuts: &'a Cuts,
    ghost ascending: { AreAscending table.now.effects },
}

impl CutTest for LocalCuts<'_> {
    ghost is_cut = { λ c. cut_at c.table.now.effects c.cuts.now };

    fn has(&self, instance: u32, effect: u32) -> bool {
        self.cuts
            .is_cut(self.table.effects(instance), instance, effect)
    }
}

/// The same where none is cut, as a test that looks nowhere.
#[derive(Drop)]
pub struct NoneCut<'a> {
    pub table: &'a Incidence,
    pub cuts: &'a Cuts,
    ghost none: { (e : ℕ) → has_mark cuts.now.marks e ≡ false },
}

impl CutTest for NoneCut<'_> {
    ghost is_cut = { λ c. cut_at c.table.now.effects c.cuts.now };

    fn has(&self, instance: u32, effect: u32) -> bool {
        let _ = (instance, effect);
        false
    }
}
