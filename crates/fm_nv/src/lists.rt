//! Arrays of lists.

ghost use Rattle.std.specs.Prelude.{◌≡◌, ◌≤◌, ◌<◌, IsTrue, length};
ghost use Rattle.fm_nv.specs.Data.{lists_count, lists_depth, lists_of};
ghost use Rattle.fm_nv.specs.Spelled.{lists_fit};

use crate::nv::{Nv, NvLists};

impl NvLists {
    /// The array of these lists.
    pub fn from_vec(items: Vec<Nv>) -> NvLists
        ensures { result ≡ items.items }
    {
        NvLists { items }
    }

    /// The lists, given back.
    pub fn into_vec(self) -> Vec<Nv>
        ensures { result.items ≡ self }
    {
        self.items
    }

    /// The lists.
    pub fn as_slice(&self) -> &[Nv]
        ensures { result.now ≡ self.now }
    {
        &self.items
    }

    /// How many lists it has.
    #[tactic(auto, using(crate::proofs::Places::lists_count_of))]
    pub fn len(&self) -> usize
        ensures count { result ≡ length self.now }
        ensures lists { result ≡ lists_count (lists_of self.now) }
    {
        self.items.len()
    }

    /// How deep the deepest of the lists is, and 0 where there is none. It takes one step a list,
    /// since each list keeps its own depth.
    pub fn depth(&self) -> u64
        ensures deep { result ≡ lists_depth (lists_of self.now) }
        ensures bound { result ≤ 8 }
        ensures spelled { IsTrue (lists_fit (lists_of self.now)) }
    {
        deepest(&self.items)
    }
}

/// How deep the deepest of the lists is.
fn deepest(items: &[Nv]) -> u64
    ensures deep { result ≡ lists_depth (lists_of items.now) }
    ensures bound { result ≤ 8 }
    ensures spelled { IsTrue (lists_fit (lists_of items.now)) }
{
    let mut deep = 0;
    'items: for list in items {
        deep = deep.max(list.depth());
    }
    deep
}
