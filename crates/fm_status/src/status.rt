//! The rows of cases.

ghost use Rattle.std.specs.Prelude.{◌≡◌, ◌++◌, ℕ, List, [], map, take, option_copied, slice_get};
ghost use Rattle.std.specs.Prelude.{IfOk, OnOk, OnErr};
ghost use Rattle.std.specs.List.Sorted.{IsStrictlySortedBy};
ghost use Rattle.fm_entry.specs.declared.list_event.ListEvent.{ListEvent};
ghost use Rattle.fm_status.specs.Rows.{case_cmp, case_row, case_key, AreRows, put_row, put_rows};
ghost use Rattle.fm_status.specs.Wanted.{IsWantedOf};

use crate::wanted::{Wanted, put_paths};
use fm_bytes::{Copies, NoMemory};
use fm_entry::{CaseName, ListEvent, Spoken};
use indexmap::IndexSet;
use std::alloc::Global;
use std::collections::BTreeMap;
use std::marker::Model;

/// The last word of each case that was spoken of. Contracts see the list of these, in the order of
/// cases: by module, then by number.
#[derive(Drop)]
pub struct Status {
    /// The rows, in the order in which their cases were first spoken of.
    rows: Vec<ListEvent>,
    /// Where among them the row of a case stands.
    places: BTreeMap<(u32, u64), usize>,
}

impl Model for Status {
    ghost use Rattle.std.specs.Prelude.{List};
    ghost use Rattle.std.specs.BTreeMap.{values};
    ghost use Rattle.fm_entry.specs.declared.list_event.ListEvent.{ListEvent};
    ghost use Rattle.fm_status.specs.Rows.{ArePlacedRows, placed_rows};

    ghost Value = { List ListEvent };

    ghost view = { λ s. placed_rows s.rows.items (values s.places) };

    ghost invariant = { λ s. ArePlacedRows s.rows.items s.places.entries };
}

/// The key of a case in the map of places.
fn case_key(case: &CaseName) -> (u32, u64)
    ensures { result ≡ case_key case.now }
{
    (case.module, case.case)
}

/// The row at a place.
fn row_at(rows: &[ListEvent], place: usize) -> Option<&ListEvent>
    ensures { option_copied result ≡ slice_get rows.now place }
{
    rows.get(place)
}

impl Status {
    /// No case was spoken of.
    #[tactic(auto, using(crate::proofs::RowPlaces::no_rows))]
    pub fn new(alloc: Global) -> Status
        ensures { result ≡ [] }
    {
        Status {
            rows: Vec::new(alloc),
            places: BTreeMap::new(alloc),
        }
    }

    /// Takes one word: it is the row of its case from now on.
    fn put(&mut self, word: ListEvent) -> Result<(), NoMemory>
        ensures ok { OnOk result (self.new ≡ put_row self.old word) }
        ensures err { OnErr result (self.new ≡ self.old) }
    {
        let key = case_key(&word.case);
        match self.places.get(&key) {
            Some(place) => self.rows[*place] = word,
            None => {
                // first room for the row, so that none is left without its place or a place
                // without its row
                self.rows.reserve(1)?;
                self.places.insert(key, self.rows.len())?;
                self.rows.push_reserved(word);
            }
        }
        Ok(())
    }

    /// Takes a record of words, each of which is the row of its case from now on. Without memory
    /// the words up to some of them were taken.
    #[tactic(auto, using(crate::proofs::RowLaws::put_taken))]
    pub fn apply(&mut self, alloc: Global, spoken: &Spoken) -> Result<(), NoMemory>
        ensures ok { OnOk result (self.new ≡ put_rows self.old spoken.now.events) }
        ensures last { OnOk result ((words : List ListEvent)
            → AreRows words self.old → AreRows (words ++ spoken.now.events) self.new) }
        ensures err { OnErr result ((n : ℕ)
            × (self.new ≡ put_rows self.old (take n spoken.now.events))) }
    {
        'words: for word in spoken.events.as_slice() {
            self.put(word.copy(alloc)?)?;
        }
        Ok(())
    }

    /// Takes the words of a record, as they are: each is the row of its case from now on. Without
    /// memory some of them may have been taken.
    pub fn take(&mut self, spoken: Spoken) -> Result<(), NoMemory>
        ensures ok { OnOk result (self.new ≡ put_rows self.old spoken.events) }
        ensures last { OnOk result ((words : List ListEvent)
            → AreRows words self.old → AreRows (words ++ spoken.events) self.new) }
    {
        'words: for word in spoken.events.into_vec() {
            self.put(word)?;
        }
        Ok(())
    }

    /// The row of a case; None where it was not spoken of.
    pub fn row(&self, case: &CaseName) -> Option<&ListEvent>
        ensures { option_copied result ≡ case_row case.now self.now }
    {
        match self.places.get(&case_key(case)) {
            Some(place) => row_at(self.rows.as_slice(), *place),
            None => None,
        }
    }

    /// The rows in the order of cases.
    #[tactic(auto, using(crate::proofs::RowPlaces::placed_ascend))]
    pub fn rows(&self, alloc: Global) -> Result<Vec<&ListEvent>, NoMemory>
        ensures rows { IfOk result (λ rows. map (λ row. row.now) rows.items ≡ self.now) }
        ensures ascend { IsStrictlySortedBy case_cmp (map (λ row. row.case) self.now) }
    {
        let mut rows = Vec::with_capacity(alloc, self.places.len())?;
        'places: for place in self.places.values() {
            if let Some(row) = row_at(self.rows.as_slice(), *place) {
                rows.push(row)?;
            }
        }
        Ok(rows)
    }

    /// The resources that are wanted out of use.
    #[tactic(auto, using(crate::proofs::WantedRows::paths_taken))]
    pub fn wanted(&self, alloc: Global) -> Result<Wanted, NoMemory>
        ensures { IfOk result (IsWantedOf self.now) }
    {
        let mut met = IndexSet::new(alloc);
        // as they stand, since their places in the order of cases lie all over the memory
        'rows: for row in self.rows.as_slice() {
            put_paths(row, &mut met)?;
        }
        Wanted::of(alloc, met)
    }
}
