//! Records of words spoken, written and read.

ghost use Rattle.std.specs.Prelude.{◌≡◌, ◌++◌, ◌<◌, ◌^◌, Some, None, IfOk, IfErr, IfSome, OnOk};
ghost use Rattle.std.specs.Prelude.{OnErr};
ghost use Rattle.fm_bytes.specs.Reading.{IsMisspelled, whole};
ghost use Rattle.fm_entry.specs.Words.{IsSpelledSpoken};
ghost use Rattle.fm_entry.specs.WordBytes.{spoken_bytes};
ghost use Rattle.fm_entry.specs.WordReading.{record_number_from, spoken_from};
ghost use Rattle.fm_entry.specs.declared.spoken.Spoken.{Spoken};

use crate::list_event_item::{put_words, take_words};
use crate::parts::own_module;
use crate::spoken::Spoken;
use fm_bytes::{Input, NoMemory, ReadFault, put_u32, put_u64};
use std::alloc::Global;

/// How many bytes are taken at first for those of a record. Most take no more.
const USUAL_SIZE: usize = 256;

/// Appends the bytes that spell the record.
pub fn write_spoken(spoken: &Spoken, out: &mut Vec<u8>) -> Result<(), NoMemory>
    requires { IsSpelledSpoken spoken.now }
    ensures ok { OnOk result (out.new.items ≡ out.old.items ++ spoken_bytes spoken.now) }
    ensures err { OnErr result (out.new.items ≡ out.old.items) }
{
    let mut spelling = Vec::with_capacity(*out.allocator(), USUAL_SIZE)?;
    put_spoken(spoken, &mut spelling)?;
    out.extend_from_slice(&spelling)?;
    Ok(())
}

/// Writes a record: the module, the number, and the words.
fn put_spoken(spoken: &Spoken, out: &mut Vec<u8>) -> Result<(), NoMemory>
    requires { IsSpelledSpoken spoken.now }
    ensures ok { OnOk result (out.new.items ≡ out.old.items ++ spoken_bytes spoken.now) }
{
    put_u32(spoken.module, out)?;
    put_u64(spoken.number, out)?;
    put_words(spoken.module, &spoken.events, out)
}

/// The record that the bytes spell, which is one at most. `None` exactly where they spell none.
pub fn read_spoken(alloc: Global, bytes: &[u8]) -> Result<Option<Spoken>, NoMemory>
    ensures found { IfOk result (λ o. IfSome o (λ spoken. IsSpelledSpoken spoken
        × (bytes.now ≡ spoken_bytes spoken))) }
    ensures read { (spoken : Spoken) → IsSpelledSpoken spoken → bytes.now ≡ spoken_bytes spoken
        → IfOk result (λ o. o ≡ Some spoken) }
{
    let mut input = Input::new(bytes);
    match whole_record(&mut input, alloc) {
        Ok(spoken) => Ok(Some(spoken)),
        Err(ReadFault::NoSpelling) => Ok(None),
        Err(ReadFault::NoMemory) => Err(NoMemory),
    }
}

/// The record that all bytes are.
fn whole_record(input: &mut Input, alloc: Global) -> Result<Spoken, ReadFault>
    ensures ok { IfOk result (λ s. whole (spoken_from input.old) ≡ Some s) }
    ensures err { IfErr result (λ f. IsMisspelled f → whole (spoken_from input.old) ≡ None) }
{
    let spoken = record_of_words(input, alloc)?;
    if input.left() == 0 {
        Ok(spoken)
    } else {
        Err(ReadFault::NoSpelling)
    }
}

/// A record: the module, the number, and the words.
#[tactic(auto, unfolding(crate::specs::WordReading::spoken_from))]
fn record_of_words(input: &mut Input, alloc: Global) -> Result<Spoken, ReadFault>
    ensures ok { IfOk result (λ s. spoken_from input.old ≡ Some (s, input.new)) }
    ensures err { IfErr result (λ f. IsMisspelled f → spoken_from input.old ≡ None) }
{
    let module = own_module(input)?;
    let number = record_number(input)?;
    let events = take_words(input, alloc, module)?;
    Ok(Spoken {
        module,
        number,
        events,
    })
}

/// The number of a record.
#[tactic(auto, unfolding(crate::specs::WordReading::record_number_from))]
fn record_number(input: &mut Input) -> Result<u64, ReadFault>
    ensures ok { IfOk result (λ n. record_number_from input.old ≡ Some (n, input.new)) }
    ensures err { IfErr result (λ f. IsMisspelled f → record_number_from input.old ≡ None) }
{
    let number = input.take_u64()?;
    if number < 1 << 46 {
        Ok(number)
    } else {
        Err(ReadFault::NoSpelling)
    }
}
