//! The spellings of numbers and links, and lists of many items.

ghost use Rattle.std.specs.Prelude.{◌≡◌, ◌++◌, All, Some, None, IfOk, IfErr, OnOk};
ghost use Rattle.fm_bytes.specs.Numbers.{counted_bytes};
ghost use Rattle.fm_bytes.specs.Reading.{IsMisspelled, items_from, counted_from};

use fm_bytes::{Input, NoMemory, ReadFault, put_u32, put_u64};
use fm_entry::Broken;
use fm_items::{Codec, put_items};
use std::alloc::Global;

/// The spelling of numbers of 64 bits: eight bytes.
pub(crate) struct LongCodec;

impl Codec<u64> for LongCodec {
    ghost use Rattle.fm_bytes.specs.Numbers.{u64_bytes};
    ghost use Rattle.fm_bytes.specs.Reading.{number_from};

    ghost fits = { λ _. Unit {0} };

    ghost spelling = { u64_bytes };

    ghost reading = { number_from 8 };

    fn put(value: &u64, out: &mut Vec<u8>) -> Result<(), NoMemory> {
        put_u64(*value, out)
    }

    fn take(input: &mut Input, _alloc: Global) -> Result<u64, ReadFault> {
        input.take_u64()
    }
}

/// The spelling of broken links: the instance and the effect.
pub(crate) struct BrokenCodec;

impl Codec<Broken> for BrokenCodec {
    ghost use Rattle.fm_entry.specs.WordBytes.{link_bytes};
    ghost use Rattle.fm_entry.specs.WordReading.{link_from};

    ghost fits = { λ _. Unit {0} };

    ghost spelling = { link_bytes };

    ghost reading = { link_from };

    fn put(link: &Broken, out: &mut Vec<u8>) -> Result<(), NoMemory> {
        put_u32(link.instance, out)?;
        put_u32(link.effect, out)?;
        Ok(())
    }

    #[tactic(auto, unfolding(fm_entry::specs::WordReading::link_from))]
    fn take(input: &mut Input, _alloc: Global) -> Result<Broken, ReadFault> {
        let instance = input.take_u32()?;
        let effect = input.take_u32()?;
        Ok(Broken { instance, effect })
    }
}

/// Writes the number of the items in eight bytes, and each item.
#[tactic(auto, unfolding(fm_bytes::specs::Numbers::u64_bytes))]
pub(crate) fn put_long_list<T, C: Codec<T>>(items: &[T], out: &mut Vec<u8>) -> Result<(), NoMemory>
    requires { All C.fits items.now }
    ensures ok { OnOk result
        (out.new.items ≡ out.old.items ++ counted_bytes 8 C.spelling items.now) }
{
    put_u64(items.len() as u64, out)?;
    put_items::<T, C>(items, out)
}

/// Reads so many items. It takes memory for those that are there, whatever the number is.
pub(crate) fn take_many<T: Drop, C: Codec<T>>(
    input: &mut Input,
    alloc: Global,
    count: u64,
) -> Result<Vec<T>, ReadFault>
    ensures ok { IfOk result
        (λ v. items_from C.reading count input.old ≡ Some (v.items, input.new)) }
    ensures err { IfErr result (λ f. IsMisspelled f → items_from C.reading count input.old ≡ None) }
{
    let mut items = Vec::new(alloc);
    'items: for at in 0..count {
        let _at = at;
        items.push(C::take(input, alloc)?)?;
    }
    Ok(items)
}

/// Reads a number in eight bytes and so many items.
#[tactic(auto, unfolding(fm_bytes::specs::Reading::counted_from))]
pub(crate) fn take_long_list<T: Drop, C: Codec<T>>(
    input: &mut Input,
    alloc: Global,
) -> Result<Vec<T>, ReadFault>
    ensures ok { IfOk result
        (λ v. counted_from 8 C.reading input.old ≡ Some (v.items, input.new)) }
    ensures err { IfErr result (λ f. IsMisspelled f → counted_from 8 C.reading input.old ≡ None) }
{
    let count = input.take_u64()?;
    take_many::<T, C>(input, alloc, count)
}
