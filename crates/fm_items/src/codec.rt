//! Codecs, and lists of values behind their number in four bytes or by themselves.

ghost use Rattle.std.specs.Prelude.{◌≡◌, ◌++◌, ◌<◌, ◌^◌, All, Some, None, [], length, flat_map};
ghost use Rattle.std.specs.Prelude.{IfOk, IfErr, OnOk};
ghost use Rattle.fm_bytes.specs.Numbers.{u32_bytes, counted_bytes};
ghost use Rattle.fm_bytes.specs.Reading.{IsMisspelled, number_from, items_from, counted_from};

use fm_bytes::{Input, NoMemory, ReadFault, put_u32};
use std::alloc::Global;

/// How values of a type are spelled in a format. A format's crate makes a type of its own for each.
pub trait Codec<T> {
    ghost use Rattle.std.specs.Prelude.{ℕ, List};
    ghost use Rattle.fm_bytes.specs.Reading.{Read};

    /// The values that the format takes.
    ghost fits: { T → Type 0 };

    /// The bytes that spell a value.
    ghost spelling: { T → List ℕ };

    /// What the front of some bytes reads as.
    ghost reading: { List ℕ → Read T };

    /// Writes the value. After want of memory a part of it may stand there.
    fn put(value: &T, out: &mut Vec<u8>) -> Result<(), NoMemory>
        requires { fits value.now }
        ensures ok { OnOk result (out.new.items ≡ out.old.items ++ spelling value.now) };

    /// Reads a value.
    fn take(input: &mut Input, alloc: Global) -> Result<T, ReadFault>
        ensures ok { IfOk result (λ x. reading input.old ≡ Some (x, input.new)) }
        ensures err { IfErr result (λ f. IsMisspelled f → reading input.old ≡ None) };
}

/// The spelling of numbers of 32 bits: four bytes.
pub struct NumberCodec;

impl Codec<u32> for NumberCodec {
    ghost use Rattle.fm_bytes.specs.Numbers.{u32_bytes};
    ghost use Rattle.fm_bytes.specs.Reading.{number_from};

    ghost fits = { λ _. Unit {0} };

    ghost spelling = { u32_bytes };

    ghost reading = { number_from 4 };

    fn put(value: &u32, out: &mut Vec<u8>) -> Result<(), NoMemory> {
        put_u32(*value, out)
    }

    fn take(input: &mut Input, _alloc: Global) -> Result<u32, ReadFault> {
        input.take_u32()
    }
}

/// Writes each item, in order.
pub fn put_items<T, C: Codec<T>>(items: &[T], out: &mut Vec<u8>) -> Result<(), NoMemory>
    requires { All C.fits items.now }
    ensures ok { OnOk result (out.new.items ≡ out.old.items ++ flat_map C.spelling items.now) }
{
    'items: for item in items {
        C::put(item, out)?;
    }
    Ok(())
}

/// Writes the number of the items in four bytes, and each item.
#[tactic(auto, unfolding(fm_bytes::specs::Numbers::u32_bytes))]
pub fn put_counted<T, C: Codec<T>>(items: &[T], out: &mut Vec<u8>) -> Result<(), NoMemory>
    requires few { length items.now < 2 ^ 32 }
    requires fit { All C.fits items.now }
    ensures ok { OnOk result
        (out.new.items ≡ out.old.items ++ counted_bytes 4 C.spelling items.now) }
{
    put_u32(items.len() as u32, out)?;
    put_items::<T, C>(items, out)
}

/// The most items that memory is taken for before they are read.
const FEW: u32 = 4;

/// No items, with memory for so many, but for few at first: a number that was read may be larger
/// than what follows it.
pub fn room_for<T>(alloc: Global, count: u32) -> Result<Vec<T>, NoMemory>
    ensures { IfOk result (λ v. v.items ≡ []) }
{
    Ok(Vec::with_capacity(alloc, count.min(FEW) as usize)?)
}

/// Reads so many items. Before the first one is read, room is taken for four at most.
pub fn take_items<T: Drop, C: Codec<T>>(
    input: &mut Input,
    alloc: Global,
    count: u32,
) -> Result<Vec<T>, ReadFault>
    ensures ok { IfOk result
        (λ v. items_from C.reading count input.old ≡ Some (v.items, input.new)) }
    ensures err { IfErr result (λ f. IsMisspelled f → items_from C.reading count input.old ≡ None) }
{
    let mut items = room_for(alloc, count)?;
    'items: for at in 0..count {
        let _at = at;
        items.push(C::take(input, alloc)?)?;
    }
    Ok(items)
}

/// Reads a number in four bytes and so many items.
#[tactic(auto, unfolding(fm_bytes::specs::Reading::counted_from))]
pub fn take_counted<T: Drop, C: Codec<T>>(
    input: &mut Input,
    alloc: Global,
) -> Result<Vec<T>, ReadFault>
    ensures ok { IfOk result
        (λ v. counted_from 4 C.reading input.old ≡ Some (v.items, input.new)) }
    ensures err { IfErr result (λ f. IsMisspelled f → counted_from 4 C.reading input.old ≡ None) }
{
    let count = input.take_u32()?;
    take_items::<T, C>(input, alloc, count)
}
