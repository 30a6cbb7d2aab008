//! A set that shrinks, with its counters.

ghost use Rattle.std.specs.Prelude.{◌≡◌, ◌+◌, ◌-◌, ◌<◌, ◌≤◌, ◌++◌, ◌∷◌, [], ℕ, true, length, cond};
ghost use Rattle.std.specs.Prelude.{replicate, false};
ghost use Rattle.std.specs.Prelude.{slice_index, slice_set, IfOk, IfSome, IfNone, None};
ghost use Rattle.ev_incidence.specs.Sets.{has_mark};
ghost use Rattle.dx_sets.specs.Sets.{SetsValue, removed};

use ev_graph::NoMemory;
use smallvec::SmallVec;
use std::alloc::Global;
use std::marker::Model;

/// A set of nodes that shrinks, and what is counted of it. It takes 9 bytes a node and 8 an
/// instance, in the value itself where there are at most four of them.
#[derive(Drop)]
pub struct Sets {
    marks: SmallVec<bool, 4>,
    /// The nodes that have left the set, in that order. There is a place for each node.
    gone: SmallVec<u32, 4>,
    /// How many have left, and how many of these were looked at.
    left: usize,
    looked: usize,
    causes_left: SmallVec<u32, 4>,
    effects_left: SmallVec<u32, 4>,
    support: SmallVec<u32, 4>,
}

impl Model for Sets {
    ghost use Rattle.std.specs.Prelude.{◌≡◌, ◌+◌, ◌≤◌, drop, take, length};
    ghost use Rattle.std.specs.List.{count_by};
    ghost use Rattle.dx_sets.specs.Sets.{SetsValue};

    ghost Value = { SetsValue };

    ghost view = { λ s. record {
      marks = s.marks.items;
      pending = drop s.looked (take s.left s.gone.items);
      causes_left = s.causes_left.items;
      effects_left = s.effects_left.items;
      support = s.support.items;
    } };

    ghost invariant = { λ s.
        (s.left + count_by (λ b. b) s.marks.items ≤ length s.gone.items)
        × (length s.gone.items ≡ length s.marks.items) × (s.looked ≤ s.left) };
}

fn number_at(numbers: &[u32], place: u32) -> u32
    ensures { result ≡ slice_index numbers.now place }
{
    numbers.get(place as usize).copied().unwrap_or(0)
}

fn mark_each(marks: &mut [bool])
    ensures each { (e : ℕ) → e < length marks.old → has_mark marks.new e ≡ true }
    ensures size { length marks.new ≡ length marks.old }
{
    for node in 0..marks.len() {
        marks[node] = true;
    }
}

impl Sets {
    /// The empty set among so many nodes and instances.
    pub fn new(alloc: Global, nodes: usize, count: usize) -> Result<Sets, NoMemory>
        ensures { IfOk result (λ sets. sets ≡ record {
          marks = replicate nodes false;
          pending = [];
          causes_left = replicate count 0;
          effects_left = replicate count 0;
          support = replicate nodes 0;
        }) }
    {
        let marks = SmallVec::from_elem(alloc, false, nodes)?;
        let gone = SmallVec::from_elem(alloc, 0, nodes)?;
        let causes_left = SmallVec::from_elem(alloc, 0, count)?;
        let effects_left = SmallVec::from_elem(alloc, 0, count)?;
        let support = SmallVec::from_elem(alloc, 0, nodes)?;
        Ok(Sets {
            marks,
            gone,
            left: 0,
            looked: 0,
            causes_left,
            effects_left,
            support,
        })
    }

    /// Equal sets.
    pub fn copy(&self, alloc: Global) -> Result<Sets, NoMemory>
        ensures { IfOk result (λ sets. sets ≡ self.now) }
    {
        let marks = SmallVec::from_slice(alloc, self.marks.as_slice())?;
        let gone = SmallVec::from_slice(alloc, self.gone.as_slice())?;
        let causes_left = SmallVec::from_slice(alloc, self.causes_left.as_slice())?;
        let effects_left = SmallVec::from_slice(alloc, self.effects_left.as_slice())?;
        let support = SmallVec::from_slice(alloc, self.support.as_slice())?;
        Ok(Sets {
            marks,
            gone,
            left: self.left,
            looked: self.looked,
            causes_left,
            effects_left,
            support,
        })
    }

    /// How many nodes there are.
    pub fn nodes(&self) -> usize
        ensures { result ≡ length self.now.marks }
    {
        self.marks.len()
    }

    /// Whether the node is in the set.
    pub fn has(&self, node: u32) -> bool
        ensures { result ≡ has_mark self.now.marks node }
    {
        self.marks.get(node as usize).copied().unwrap_or(false)
    }

    /// Takes a node out of the set, if it is there; it is to be looked at then.
    pub fn remove(&mut self, node: u32)
        ensures { self.new ≡ removed self.old node }
    {
        if self.has(node) {
            self.marks[node as usize] = false;
            self.gone[self.left] = node;
            self.left += 1;
        }
    }

    /// The first node that left the set and is not yet looked at, so that what leaves together is
    /// looked at together.
    pub fn pop_front(&mut self) -> Option<u32>
        ensures none { result ≡ None → (self.new ≡ self.old) × (self.old.pending ≡ []) }
        ensures some { IfSome result (λ node.
            self.old ≡ record self.new { pending = node ∷ self.new.pending }) }
    {
        if self.looked == self.left {
            return None;
        }
        let node = self.gone[self.looked];
        self.looked += 1;
        Some(node)
    }

    /// How many causes of the instance are in the set or not yet looked at; 0 past the end.
    pub fn causes_left(&self, place: u32) -> u32
        ensures { result ≡ slice_index self.now.causes_left place }
    {
        number_at(self.causes_left.as_slice(), place)
    }

    /// How many effects of the instance are; 0 past the end.
    pub fn effects_left(&self, place: u32) -> u32
        ensures { result ≡ slice_index self.now.effects_left place }
    {
        number_at(self.effects_left.as_slice(), place)
    }

    /// How many instances give the node; 0 past the end.
    pub fn support(&self, node: u32) -> u32
        ensures { result ≡ slice_index self.now.support node }
    {
        number_at(self.support.as_slice(), node)
    }

    /// One cause of the instance fewer.
    pub fn lose_cause(&mut self, place: u32)
        requires { 0 < slice_index self.old.causes_left place }
        ensures { self.new ≡ record self.old {
          causes_left =
              slice_set self.old.causes_left place (slice_index self.old.causes_left place - 1);
        } }
    {
        self.causes_left[place as usize] -= 1;
    }

    /// One effect of the instance fewer.
    pub fn lose_effect(&mut self, place: u32)
        requires { 0 < slice_index self.old.effects_left place }
        ensures { self.new ≡ record self.old {
          effects_left =
              slice_set self.old.effects_left place (slice_index self.old.effects_left place - 1);
        } }
    {
        self.effects_left[place as usize] -= 1;
    }

    /// One instance fewer that gives the node.
    pub fn lose_support(&mut self, node: u32)
        requires { 0 < slice_index self.old.support node }
        ensures { self.new ≡ record self.old {
          support =
              slice_set self.old.support node (slice_index self.old.support node - 1);
        } }
    {
        self.support[node as usize] -= 1;
    }

    /// Puts all nodes into the set.
    pub fn mark_all(&mut self)
        ensures marks { (e : ℕ) → e < length self.old.marks → has_mark self.new.marks e ≡ true }
        ensures size { length self.new.marks ≡ length self.old.marks }
        ensures same { self.new ≡ record self.old { marks = self.new.marks; pending = [] } }
    {
        self.left = 0;
        self.looked = 0;
        mark_each(self.marks.as_mut_slice());
    }

    /// Sets how many causes and effects of an instance are left.
    pub fn set_counts(&mut self, place: u32, causes: u32, effects: u32)
        requires causes { place < length self.old.causes_left }
        requires effects { place < length self.old.effects_left }
        ensures { self.new ≡ record self.old {
          causes_left = slice_set self.old.causes_left place causes;
          effects_left = slice_set self.old.effects_left place effects;
        } }
    {
        self.causes_left[place as usize] = causes;
        self.effects_left[place as usize] = effects;
    }

    /// Sets how many instances give a node.
    pub fn set_support(&mut self, node: u32, givers: u32)
        requires { node < length self.old.support }
        ensures { self.new ≡ record self.old { support = slice_set self.old.support node givers } }
    {
        self.support[node as usize] = givers;
    }
}
