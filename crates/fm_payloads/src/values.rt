//! The values that the payloads of a journal spell.

ghost use Rattle.std.specs.Prelude.{◌≡◌, ℕ, List, None, IfOk, IfErr, IfSome, IsNone, OnOk};
ghost use Rattle.fm_outer.specs.Moments.{OnlyRead};
ghost use Rattle.fm_journal.specs.Keeps.{Keeps};
ghost use Rattle.fm_payloads.specs.Reading.{ReadingCause};
ghost use Rattle.fm_payloads.specs.Spelling.{EachSpells, SpellsNothing, SpellsUpTo};

use crate::fault::ReadingFault;
use crate::reader::PayloadReader;
use crate::reading::read_payloads;
use fm_bytes::NoMemory;
use fm_journal::Journal;
use fm_outer::Disk;
use std::alloc::Global;

/// How payloads spell values of a type. A type of its own is made for each spelling.
pub trait PayloadCodec<T> {
    /// The payload spells the value.
    ghost spells: { List ℕ → T → Type 0 };

    /// The value that the payload spells; `None` exactly where it spells none.
    fn read(&self, alloc: Global, payload: &[u8]) -> Result<Option<T>, NoMemory>
        ensures found { IfOk result (λ o. IfSome o (λ x. spells payload.now x)) }
        ensures none { IfOk result (λ o. IsNone o → SpellsNothing spells payload.now) };
}

/// What takes payloads that spell values.
#[derive(Drop)]
struct Values<T, C> {
    codec: C,
    values: Vec<T>,
}

impl<T: Drop, C: PayloadCodec<T>> PayloadReader for Values<T, C> {
    ghost took = { λ reader payloads. EachSpells C.spells payloads reader.values.items };

    ghost refuses = { λ _ payload. SpellsNothing C.spells payload };

    ghost same_rule = { λ _ _. Unit {0} };

    fn take(&mut self, alloc: Global, payload: &[u8]) -> Result<bool, NoMemory> {
        match self.codec.read(alloc, payload)? {
            Some(value) => {
                self.values.push(value)?;
                Ok(true)
            }
            None => Ok(false),
        }
    }

    ghost same_rule_self = { λ _. tt };

    ghost same_rule_then = { λ _ _ _ _ _. tt };
}

/// The values of the first payloads, and the place of the first payload that spells none, if there
/// is one.
#[derive(Drop)]
pub struct ReadValues<T> {
    pub values: Vec<T>,
    pub stop: Option<u64>,
}

/// The values that the payloads of an open journal spell, in order, up to the first payload that
/// spells none. The disk is read once, in pieces.
pub fn read_values<D: Disk, T: Drop, C: PayloadCodec<T> + Drop>(
    alloc: Global,
    journal: &mut Journal<D>,
    codec: C,
) -> Result<ReadValues<T>, ReadingFault>
    requires is_open { journal.old.closed ≡ None }
    ensures read { IfOk result (λ read. (payloads : List (List ℕ))
        → Keeps D.Disk journal.old payloads
        → SpellsUpTo C.spells payloads read.values.items read.stop) }
    ensures same { journal.new ≡ record journal.old { disk = journal.new.disk } }
    ensures still { OnlyRead D.Disk journal.old.disk journal.new.disk }
    ensures cause { IfErr result (ReadingCause D.Disk journal.old journal.new) }
    ensures count_kept { OnOk result (D.failures journal.new.disk ≡ D.failures journal.old.disk) }
{
    let mut reader = Values {
        codec,
        values: Vec::new(alloc),
    };
    let stop = read_payloads(alloc, journal, &mut reader)?;
    let Values { codec: _, values } = reader;
    Ok(ReadValues { values, stop })
}
