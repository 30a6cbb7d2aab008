//! The place of a payload by its number in the list.

ghost use Rattle.std.specs.Prelude.{◌≡◌, ◌≤◌, ℕ, List, None, length, take, IfOk, IfErr, OnOk};
ghost use Rattle.std.proofs.Common.{refl, ◌∙◌};
ghost use Rattle.fm_outer.specs.Moments.{OnlyRead};
ghost use Rattle.fm_journal.specs.Format.{end_of};
ghost use Rattle.fm_journal.specs.Keeps.{Keeps};
ghost use Rattle.fm_payloads.specs.Reading.{ReadingCause};

use crate::fault::ReadingFault;
use crate::reader::PayloadReader;
use crate::reading::read_payloads;
use fm_bytes::NoMemory;
use fm_journal::Journal;
use fm_outer::Disk;
use std::alloc::Global;

/// What takes as many payloads as it is told.
#[derive(Drop)]
struct FirstFew {
    taken: u64,
    limit: u64,
}

impl PayloadReader for FirstFew {
    ghost took = { λ reader payloads. (reader.taken ≡ length payloads)
        × (reader.taken ≤ reader.limit) };

    ghost refuses = { λ reader _. reader.taken ≡ reader.limit };

    ghost same_rule = { λ a b. b.limit ≡ a.limit };

    fn take(&mut self, _alloc: Global, _payload: &[u8]) -> Result<bool, NoMemory> {
        if self.taken >= self.limit {
            return Ok(false);
        }
        self.taken += 1;
        Ok(true)
    }

    ghost same_rule_self = { λ _. refl };

    ghost same_rule_then = { λ a b c first second. second ∙ first };
}

/// The place of the payload with so many before it in the list of an open journal; that of the end
/// where there are no more.
pub fn place_of<D: Disk>(
    alloc: Global,
    journal: &mut Journal<D>,
    before: u64,
) -> Result<u64, ReadingFault>
    requires is_open { journal.old.closed ≡ None }
    ensures place { IfOk result (λ place. (payloads : List (List ℕ))
        → Keeps D.Disk journal.old payloads → place ≡ end_of (take before payloads)) }
    ensures same { journal.new ≡ record journal.old { disk = journal.new.disk } }
    ensures still { OnlyRead D.Disk journal.old.disk journal.new.disk }
    ensures cause { IfErr result (ReadingCause D.Disk journal.old journal.new) }
    ensures count_kept { OnOk result (D.failures journal.new.disk ≡ D.failures journal.old.disk) }
{
    let mut reader = FirstFew {
        taken: 0,
        limit: before,
    };
    match read_payloads(alloc, journal, &mut reader)? {
        Some(place) => Ok(place),
        None => Ok(journal.end()),
    }
}
