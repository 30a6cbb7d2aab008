ghost use Rattle.std.specs.Prelude.{◌≡◌, IfOk, List, ℕ, option_copied};
ghost use Rattle.std.specs.Ordering.{nat_cmp};
ghost use Rattle.std.specs.Cmp.Lexicographic.{slice_cmp};
ghost use Rattle.std.specs.List.Sorted.{IsStrictlySortedBy};
ghost use Rattle.std.specs.Map.{keys_of};
ghost use Rattle.fm_topo.specs.Query.{property_value};

use crate::values::{TopoText, TopoValue};
use fm_bytes::{Copies, NoMemory};
use std::alloc::Global;
use std::marker::Model;

/// The properties of one path, in byte order of their names.
#[derive(Debug, Drop)]
pub struct Properties {
    items: Vec<(TopoText, TopoValue)>,
}

impl Model for Properties {
    ghost use Rattle.std.specs.Ordering.{nat_cmp};
    ghost use Rattle.std.specs.Cmp.Lexicographic.{slice_cmp};
    ghost use Rattle.std.specs.List.Sorted.{IsStrictlySortedBy};
    ghost use Rattle.std.specs.Map.{keys_of};
    ghost use Rattle.fm_topo.specs.Property.{Properties as Pairs};

    ghost Value = { Pairs };

    ghost view = { λ p. p.items.items };

    ghost invariant = { λ p. IsStrictlySortedBy (slice_cmp nat_cmp) (keys_of p.items.items) };
}

impl Properties {
    /// The pairs as properties.
    pub fn from_vec(items: Vec<(TopoText, TopoValue)>) -> Properties
        requires { IsStrictlySortedBy (slice_cmp nat_cmp) (keys_of items.items) }
        ensures { result ≡ items.items }
    {
        Properties { items }
    }

    /// The pairs, in byte order of the names.
    pub fn pairs(&self) -> &[(TopoText, TopoValue)]
        ensures { result.now ≡ self.now }
    {
        self.items.as_slice()
    }

    /// The value of a name.
    pub fn value(&self, name: &str) -> Option<&TopoValue>
        ensures { option_copied result ≡ property_value self.now name.now }
    {
        match self.items.binary_search_by(|pair| pair.0.get().cmp(name)) {
            Ok(at) => Some(&self.items[at].1),
            Err(_) => None,
        }
    }

    /// Equal properties.
    pub fn copy(&self, alloc: Global) -> Result<Properties, NoMemory>
        ensures { IfOk result (λ properties. properties ≡ self.now) }
    {
        let mut items = Vec::new(alloc);
        for (name, value) in &self.items {
            items.push((name.copy(alloc)?, value.copy(alloc)?))?;
        }
        Ok(Properties { items })
    }
}
