//! What a list tells of itself.

ghost use Rattle.std.specs.Prelude.{◌≡◌, ◌+◌, ◌==◌, ◌<◌, ◌≤◌, IsTrue, Some, option_map};
ghost use Rattle.fm_nv.specs.Data.{no_pairs, count, depth, data_depth, find, name_at, value_at};
ghost use Rattle.fm_nv.specs.Spelled.{IsSpelledList, is_pair_name};
ghost use Rattle.fm_nv.specs.View.{datum};

use crate::nv::{Nv, Value};
use std::alloc::Global;

impl Nv {
    /// The list without pairs. What is added later takes memory of `alloc`.
    pub fn new(alloc: Global) -> Nv
        ensures { result ≡ no_pairs }
    {
        Nv {
            alloc,
            content: None,
        }
    }

    /// How many pairs it has.
    pub fn len(&self) -> usize
        ensures count { result ≡ count self.now }
        ensures bound { result ≤ 65535 }
    {
        match &self.content {
            None => 0,
            Some(content) => content.len(),
        }
    }

    /// Whether it has no pair.
    pub fn is_empty(&self) -> bool
        ensures { result ≡ (count self.now == 0) }
    {
        self.len() == 0
    }

    /// How deep lists stand in it, itself counted. It takes no time: the depth is kept.
    pub fn depth(&self) -> u64
        ensures deep { result ≡ depth self.now }
        ensures bound { result ≤ 8 }
        ensures spelled { IsSpelledList self.now }
    {
        match &self.content {
            None => 1,
            Some(content) => content.depth(),
        }
    }

    /// The value at a name, where the name is there.
    pub fn get(&self, name: &str) -> Option<&Value>
        ensures { option_map (λ v. datum v.now) result ≡ find name.now self.now }
    {
        match &self.content {
            None => None,
            Some(content) => content.get(name),
        }
    }

    /// The name of the pair at a place, counted from 0.
    pub fn name(&self, at: usize) -> &str
        requires { at < count self.now }
        ensures { result.now ≡ name_at at self.now }
    {
        match std::str::from_utf8(self.name_bytes(at)) {
            Ok(name) => name,
            Err(_) => unreachable!(),
        }
    }

    /// The value of the pair at a place, counted from 0.
    pub fn value(&self, at: usize) -> &Value
        requires { at < count self.now }
        ensures value { datum result.now ≡ value_at at self.now }
        ensures smaller { data_depth (datum result.now) < depth self.now }
    {
        match &self.content {
            None => unreachable!(),
            Some(content) => content.value(at),
        }
    }

    /// The bytes of the name at a place, counted from 0.
    pub(crate) fn name_bytes(&self, at: usize) -> &[u8]
        requires { at < count self.now }
        ensures name { result.now ≡ name_at at self.now }
        ensures fits { IsTrue (is_pair_name (name_at at self.now)) }
    {
        match &self.content {
            None => unreachable!(),
            Some(content) => content.name_bytes(at),
        }
    }
}
