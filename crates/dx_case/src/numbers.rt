//! Ascending numbers that tell most others apart without a look at them.

ghost use Rattle.std.specs.Prelude.{◌≡◌, ◌<◌, ℕ, List, true, false, length, slice_index, IfOk};
ghost use Rattle.ev_incidence.specs.Sets.{ascends, is_member};
ghost use Rattle.dx_case.specs.Numbers.{NumbersValue, IsMask};

use crate::lists::is_among;
use ev_graph::NoMemory;
use std::alloc::Global;
use std::marker::Model;

/// Numbers, and a mask that has the bit of the remainder of each by 64: a number of which the bit
/// is missing is none of them.
#[derive(Drop)]
pub(crate) struct Numbers {
    mask: u64,
    items: Vec<u32>,
}

impl Model for Numbers {
    ghost use Rattle.dx_case.specs.Numbers.{NumbersValue, IsMask};

    ghost Value = { NumbersValue };

    ghost view = { λ n. record { items = n.items.items } };

    ghost invariant = { λ n. IsMask n.mask n.items.items };
}

/// The mask of these numbers.
fn mask_of(numbers: &[u32]) -> u64
    ensures { IsMask result numbers.now }
{
    let mut mask = 0u64;
    for number in numbers {
        mask |= 1u64 << (*number % 64);
    }
    mask
}

/// Whether the mask has the bit of a number.
fn has_bit(mask: u64, number: u32) -> bool
    ensures { (numbers : List ℕ) → IsMask mask numbers → result ≡ false
        → is_member numbers number ≡ false }
{
    (mask >> (number % 64)) & 1 == 1
}

impl Numbers {
    /// These numbers.
    pub(crate) fn new(items: Vec<u32>) -> Numbers
        ensures items { result.items ≡ items.items }
    {
        let mask = mask_of(items.as_slice());
        Numbers { mask, items }
    }

    /// The first of them.
    pub(crate) fn first(&self) -> u32
        requires { 0 < length self.now.items }
        ensures { result ≡ slice_index self.now.items 0 }
    {
        self.items[0]
    }

    /// Equal ones.
    pub(crate) fn copy(&self, alloc: Global) -> Result<Numbers, NoMemory>
        ensures items { IfOk result (λ made. made.items ≡ self.now.items) }
    {
        let items = Vec::from_slice(alloc, self.items.as_slice())?;
        Ok(Numbers {
            mask: self.mask,
            items,
        })
    }

    /// The numbers.
    pub(crate) fn as_slice(&self) -> &[u32]
        ensures value { result.now ≡ self.now.items }
    {
        self.items.as_slice()
    }

    /// Whether a number is one of these. For most that are not, it takes one look at the mask; else
    /// it takes the time of one search where they ascend, and says nothing where they don't.
    pub(crate) fn has(&self, number: u32) -> bool
        ensures { ascends self.now.items ≡ true → result ≡ is_member self.now.items number }
    {
        has_bit(self.mask, number) && is_among(self.items.as_slice(), number)
    }
}
