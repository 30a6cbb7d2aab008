//! The declared events, or engines, in order and without likes.
ghost use Rattle.std.specs.Prelude.{◌≡◌, ◌<◌, ◌^◌, ◌++◌, ◌∷◌, [], length, false, OnOk, IfSome};
ghost use Rattle.ev_check.specs.Declarations.{is_declared, declared_number};

use crate::known::Known;
use fm_bytes::NoMemory;
use indexmap::IndexSet;
use std::alloc::Global;
use std::marker::Model;

/// Events or engines in order of their statements, no two alike: the place in the list is the
/// number, and a set in that order finds it. Contracts see the list.
#[derive(Drop)]
pub(crate) struct DeclaredSet {
    items: IndexSet<Known>,
}

impl Model for DeclaredSet {
    ghost use Rattle.std.specs.Prelude.{◌<◌, ◌^◌, List, length};
    ghost use Rattle.ev_tree.specs.declared.tree.Declared.{Declared};

    ghost Value = { List Declared };

    ghost view = { λ d. d.items.keys };

    ghost invariant = { λ d. length d.items.keys < 2 ^ 32 };
}

impl DeclaredSet {
    /// The empty list.
    pub(crate) fn new(alloc: Global) -> Self
        ensures { result ≡ [] }
    {
        DeclaredSet {
            items: IndexSet::new(alloc),
        }
    }

    /// Puts one at the end; more than a `u32` counts are too many for memory.
    pub(crate) fn push(&mut self, item: Known) -> Result<(), NoMemory>
        requires { is_declared self.old item ≡ false }
        ensures { OnOk result (self.new ≡ self.old ++ item ∷ []) }
    {
        if self.items.len() >= 4_294_967_295 {
            return Err(NoMemory);
        }
        self.items.insert(item)?;
        Ok(())
    }

    /// All of them, in order.
    pub(crate) fn as_slice(&self) -> &[Known]
        ensures same { result.now ≡ self.now }
        ensures few { length self.now < 2 ^ 32 }
    {
        self.items.as_slice()
    }

    /// The number of what is alike; None where none is.
    pub(crate) fn find(&self, wanted: &Known) -> Option<u32>
        ensures number { result ≡ declared_number self.now wanted.now }
        ensures below { IfSome result (λ n. n < length self.now) }
    {
        match self.items.get_index_of(wanted) {
            Some(number) => Some(number as u32),
            None => None,
        }
    }

    /// Whether one of them is alike.
    pub(crate) fn declares(&self, wanted: &Known) -> bool
        ensures { result ≡ is_declared self.now wanted.now }
    {
        self.items.contains(wanted)
    }
}
