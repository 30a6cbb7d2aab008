//! Suspects, written and read.

ghost use Rattle.std.specs.Prelude.{◌≡◌, ◌≤◌, Some, None, IfOk, IfErr};
ghost use Rattle.fm_bytes.specs.Reading.{IsMisspelled, flag_from};
ghost use Rattle.fm_entry.specs.WordBytes.{mark_byte, suspect_bytes};
ghost use Rattle.fm_entry.specs.WordReading.{certainty_from, mark_from, suspect_from};

use crate::parts::{class, path};
use crate::suspect::{Mark, Suspect};
use fm_bytes::{Input, NoMemory, ReadFault, put_short_text, put_u8};
use fm_items::Codec;
use std::alloc::Global;

/// The spelling of suspects.
pub(crate) struct SuspectCodec;

impl Codec<Suspect> for SuspectCodec {
    ghost fits = { λ _. Unit {0} };

    ghost spelling = { suspect_bytes };

    ghost reading = { suspect_from };

    fn put(suspect: &Suspect, out: &mut Vec<u8>) -> Result<(), NoMemory> {
        put_short_text(suspect.class.text(), out)?;
        put_short_text(suspect.path.text(), out)?;
        put_u8(suspect.certainty, out)?;
        put_u8(u8::from(suspect.retire), out)?;
        put_u8(mark_byte(suspect.mark), out)?;
        Ok(())
    }

    #[tactic(auto, unfolding(crate::specs::WordReading::suspect_from))]
    fn take(input: &mut Input, alloc: Global) -> Result<Suspect, ReadFault> {
        let class = class(input, alloc)?;
        let path = path(input, alloc)?;
        let certainty = certainty(input)?;
        let retire = flag(input)?;
        let mark = mark(input)?;
        Ok(Suspect {
            class,
            path,
            certainty,
            retire,
            mark,
        })
    }
}

/// The byte of a suspect's mark.
fn mark_byte(mark: Mark) -> u8
    ensures { result ≡ mark_byte mark }
{
    match mark {
        Mark::Present => 0,
        Mark::Repaired => 1,
        Mark::Replaced => 2,
        Mark::Acquitted => 3,
    }
}

/// A certainty, in percent.
#[tactic(auto, unfolding(crate::specs::WordReading::certainty_from))]
fn certainty(input: &mut Input) -> Result<u8, ReadFault>
    ensures ok { IfOk result (λ n. certainty_from input.old ≡ Some (n, input.new)) }
    ensures err { IfErr result (λ f. IsMisspelled f → certainty_from input.old ≡ None) }
{
    let number = input.take_u8()?;
    if number <= 100 {
        Ok(number)
    } else {
        Err(ReadFault::NoSpelling)
    }
}

/// A truth value.
#[tactic(auto, unfolding(fm_bytes::specs::Reading::flag_from))]
fn flag(input: &mut Input) -> Result<bool, ReadFault>
    ensures ok { IfOk result (λ b. flag_from input.old ≡ Some (b, input.new)) }
    ensures err { IfErr result (λ f. IsMisspelled f → flag_from input.old ≡ None) }
{
    match input.take_u8()? {
        0 => Ok(false),
        1 => Ok(true),
        _ => Err(ReadFault::NoSpelling),
    }
}

/// A suspect's mark.
#[tactic(auto, unfolding(crate::specs::WordReading::mark_from))]
fn mark(input: &mut Input) -> Result<Mark, ReadFault>
    ensures ok { IfOk result (λ m. mark_from input.old ≡ Some (m, input.new)) }
    ensures err { IfErr result (λ f. IsMisspelled f → mark_from input.old ≡ None) }
{
    match input.take_u8()? {
        0 => Ok(Mark::Present),
        1 => Ok(Mark::Repaired),
        2 => Ok(Mark::Replaced),
        3 => Ok(Mark::Acquitted),
        _ => Err(ReadFault::NoSpelling),
    }
}
