//! Pairs, kept with their names one behind the other.

ghost use Rattle.std.specs.Prelude.{◌≡◌, ◌+◌, ◌<◌, ◌≤◌, OnOk, OnErr, IsTrue, length, option_map};
ghost use Rattle.fm_nv.specs.Data.{no_pairs, add, count, depth, data_depth, find, name_at};
ghost use Rattle.fm_nv.specs.Data.{value_at};
ghost use Rattle.fm_nv.specs.Spelled.{is_pair_name};
ghost use Rattle.std.specs.Bool.{OnTrue};
ghost use Rattle.fm_nv.specs.Ascending.{IsPast};
ghost use Rattle.fm_nv.specs.View.{AreEnds, begins, bytes_between, datum, pairs_in};

use crate::nv::{Cell, Content, Value};
use fm_bytes::NoMemory;
use std::alloc::Global;

impl Content {
    /// No pairs. What is added later takes memory of `alloc`.
    pub(crate) fn new(alloc: Global) -> Content
        ensures { result ≡ no_pairs }
    {
        Content {
            deep: 1,
            ascending: true,
            names: Vec::new(alloc),
            cells: Vec::new(alloc),
        }
    }

    /// How many pairs there are.
    pub(crate) fn len(&self) -> usize
        ensures count { result ≡ count self.now }
        ensures bound { result ≤ 65535 }
    {
        self.cells.len()
    }

    /// How deep the list of the pairs is. It takes no time: the depth is kept.
    pub(crate) fn depth(&self) -> u64
        ensures { result ≡ depth self.now }
    {
        self.deep
    }

    /// The bytes of the name at a place, counted from 0.
    pub(crate) fn name_bytes(&self, at: usize) -> &[u8]
        requires { at < count self.now }
        ensures name { result.now ≡ name_at at self.now }
        ensures fits { IsTrue (is_pair_name (name_at at self.now)) }
    {
        name_in(&self.names, &self.cells, at)
    }

    /// The value at a place, counted from 0.
    pub(crate) fn value(&self, at: usize) -> &Value
        requires { at < count self.now }
        ensures value { datum result.now ≡ value_at at self.now }
        ensures smaller { data_depth (datum result.now) < depth self.now }
    {
        &self.cells[at].value
    }

    /// The value at a name, where the name is there.
    #[tactic(auto, using(crate::proofs::Places::from_step, crate::proofs::Places::from_past))]
    pub(crate) fn get(&self, name: &str) -> Option<&Value>
        ensures { option_map (λ v. datum v.now) result ≡ find name.now self.now }
    {
        let count = self.len();
        for at in 0..count {
            if self.name_bytes(at) == name.as_bytes() {
                return Some(self.value(at));
            }
        }
        None
    }

    /// Whether a name is greater than each name of the pairs: false where that isn't known.
    #[tactic(auto, using(crate::proofs::Greatest::past_nothing))]
    pub(crate) fn is_past(&self, name: &str) -> bool
        ensures { OnTrue result (IsPast name.now self.now) }
    {
        let count = self.len();
        if count == 0 {
            return true;
        }
        self.ascending && self.name_bytes(count - 1).cmp(name.as_bytes()).is_lt()
    }

    /// Adds a pair at the end, whether its name is there or not.
    pub(crate) fn push(&mut self, name: &str, value: Value) -> Result<(), NoMemory>
        requires name { IsTrue (is_pair_name name.now) }
        requires room { count self.old < 65535 }
        ensures ok { OnOk result (self.new ≡ add name.now (datum value) self.old) }
        ensures kept { OnErr result (self.new ≡ self.old) }
    {
        let deep = self.deep.max(value.depth() + 1);
        let ascending = self.is_past(name);
        let end = (self.names.len() + name.len()) as u32;
        self.cells.reserve(1)?;
        self.names.extend_from_slice(name.as_bytes())?;
        self.cells.push_reserved(Cell { end, value });
        self.deep = deep;
        self.ascending = ascending;
        Ok(())
    }
}

/// The bytes of the name at a place.
fn name_in<'a>(names: &'a [u8], cells: &[Cell], at: usize) -> &'a [u8]
    requires at { at < length cells.now }
    requires ends { AreEnds (length names.now) 0 cells.now }
    ensures { result.now ≡ name_at at (pairs_in names.now 0 cells.now) }
{
    let begin = place_of(cells, at) as usize;
    let end = place_of(cells, at + 1) as usize;
    piece(names, begin, end)
}

/// The bytes between two places.
fn piece(names: &[u8], begin: usize, end: usize) -> &[u8]
    requires order { begin ≤ end }
    requires within { end ≤ length names.now }
    ensures { result.now ≡ bytes_between begin end names.now }
{
    &names[begin..end]
}

/// Where the name at a place begins: where the one before it ends.
fn place_of(cells: &[Cell], at: usize) -> u32
    requires { at ≤ length cells.now }
    ensures { result ≡ begins 0 cells.now at }
{
    if at == 0 {
        return 0;
    }
    cells[at - 1].end
}
