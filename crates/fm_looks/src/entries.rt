//! The entries of a store, read from the active error journal.

ghost use Rattle.std.specs.Prelude.{◌≡◌, ℕ, ◌+◌, ◌≤◌, List, [], ◌∷◌, ◌++◌, length, Some, None};
ghost use Rattle.std.specs.Prelude.{◌<◌, ◌↔◌, IsTrue, All, refl, IfOk, IfErr, IfSome, IsNone};
ghost use Rattle.std.proofs.Common.{◌∙◌};
ghost use Rattle.fm_journal.specs.Keeps.{Keeps};
ghost use Rattle.fm_outer.specs.Moments.{OnlyRead};
ghost use Rattle.fm_logs.specs.ReadsAsBook.{SpellsEntry};
ghost use Rattle.fm_logs.specs.StoreBook.{force_along, ReloadsRise};
ghost use Rattle.fm_looks.specs.Entries.{HasEntries, RefusesEntry, IsSameStart, EntriesKept};
ghost use Rattle.fm_looks.specs.Entries.{AreEntries};
ghost use Rattle.fm_looks.specs.Entries.{entries_disk};
ghost use Rattle.fm_looks.specs.Looks.{LookCause, log_disk};
ghost use Rattle.fm_looks.specs.Opening.{FitEntries, Good, LogDamage, EntriesDamage};
ghost use Rattle.fm_looks.specs.Opening.{ActiveDamage};

use crate::entry_reader::EntryReader;
use crate::look::{LookFault, LookRefused, look_fault, open_log, refuse};
use fm_bytes::NoMemory;
use fm_entry::{Entry, read_entry};
use fm_journal::Journal;
use fm_outer::Disk;
use fm_payloads::{PayloadReader, read_payloads};
use fm_saved::Checkpoint;
use std::alloc::Global;

/// The number of the configuration in force after an entry; `None` where it is a Reload that names
/// no configuration above the one in force.
fn next_force(known: u64, force: u32, entry: &Entry) -> Option<u32>
    ensures lawful { IfSome result (λ next. ReloadsRise known force (entry.now ∷ [])
        × (next ≡ force_along force (entry.now ∷ []))) }
    ensures unlawful { IsNone result → ReloadsRise known force (entry.now ∷ []) → ⊥ }
{
    match entry {
        Entry::Reload { conf, moment: _ } => {
            if *conf > force && u64::from(*conf) < known {
                Some(*conf)
            } else {
                None
            }
        }
        _ => Some(force),
    }
}

impl PayloadReader for EntryReader {
    ghost took = { HasEntries };

    ghost refuses = { RefusesEntry };

    ghost same_rule = { IsSameStart };

    ghost same_rule_self = { λ _. record { known = refl; at_base = refl; older = refl } };

    ghost same_rule_then = { λ _ _ _ one two. record {
      known = two.known ∙ one.known;
      at_base = two.at_base ∙ one.at_base;
      older = two.older ∙ one.older;
    } };

    fn take(&mut self, alloc: Global, payload: &[u8]) -> Result<bool, NoMemory> {
        let Some(entry) = read_entry(alloc, payload)? else {
            return Ok(false);
        };
        if self.left > 0 {
            self.left -= 1;
            return Ok(true);
        }
        let Some(force) = next_force(self.known, self.force, &entry) else {
            return Ok(false);
        };
        self.entries.push(entry)?;
        self.force = force;
        Ok(true)
    }
}

/// The active error journal, and its entries from the base on.
#[derive(Drop)]
pub struct EntriesRead<D: Disk> {
    pub journal: Journal<D>,
    pub entries: Vec<Entry>,
}

/// Opens the active error journal, which reaches the base.
fn open_active<D: Disk>(disk: D, base: u64) -> Result<Journal<D>, LookRefused<D>>
    ensures found { IfOk result (λ journal. (c : List ℕ) → D.seen disk ≡ Some c
        → (payloads : List (List ℕ)) × Keeps D.Disk journal payloads) }
    ensures is_open { IfOk result (λ journal. journal.closed ≡ None) }
    ensures count_kept { IfOk result (λ journal. D.failures journal.disk ≡ D.failures disk) }
    ensures begins { IfOk result (λ journal. journal.first ≤ base) }
    ensures reaches { IfOk result (λ journal. base ≤ journal.first + journal.count) }
    ensures still { OnlyRead D.Disk disk (log_disk result) }
    ensures cause { IfErr result (λ refused. LookCause D.Disk (LogDamage (ActiveDamage base)) disk
        refused.disk refused.fault) }
{
    let journal = open_log(disk)?;
    if journal.first() > base {
        return Err(refuse(journal, LookFault::Damaged { place: 0 }));
    }
    if journal.first() + journal.count() < base {
        let place = journal.end();
        return Err(refuse(journal, LookFault::Damaged { place }));
    }
    Ok(journal)
}

/// Whether a journal has so many entries from the base on. Where it does not, its disk changed
/// while it was read.
fn has_all<D: Disk>(journal: &Journal<D>, base: u64, count: usize) -> bool
    requires { base ≤ journal.now.first + journal.now.count }
    ensures { IsTrue result ↔ journal.now.first + journal.now.count ≡ base + count }
{
    journal.first() + journal.count() - base == count as u64
}

/// Reads the entries of a store that has so many configurations.
pub fn open_entries<D: Disk>(
    alloc: Global,
    disk: D,
    known: u64,
    checkpoint: &Checkpoint,
) -> Result<EntriesRead<D>, LookRefused<D>>
    requires known { checkpoint.now.conf < known }
    ensures passes { IfOk result (λ read. (c : List ℕ) → D.seen disk ≡ Some c
        → EntriesKept D.Disk c known checkpoint.now read.journal read.entries.items) }
    ensures are { IfOk result (λ read. AreEntries known checkpoint.now read.journal
        read.entries.items) }
    ensures count_kept { IfOk result
        (λ read. D.failures read.journal.disk ≡ D.failures disk) }
    ensures still { OnlyRead D.Disk disk (entries_disk result) }
    ensures cause { IfErr result (λ refused. LookCause D.Disk
        (LogDamage (EntriesDamage known checkpoint.now)) disk refused.disk refused.fault) }
{
    let mut journal = open_active(disk, checkpoint.base)?;
    let older = checkpoint.base - journal.first();
    let mut reader = EntryReader {
        known,
        at_base: checkpoint.conf,
        older,
        left: older,
        force: checkpoint.conf,
        entries: Vec::new(alloc),
    };
    match read_payloads(alloc, &mut journal, &mut reader) {
        Ok(None) => {
            if has_all(&journal, checkpoint.base, reader.entries.len()) {
                let entries = reader.entries;
                Ok(EntriesRead { journal, entries })
            } else {
                Err(refuse(journal, LookFault::Damaged { place: 16 }))
            }
        }
        Ok(Some(place)) => Err(refuse(journal, LookFault::Damaged { place })),
        Err(fault) => Err(refuse(journal, look_fault(fault))),
    }
}

/// The number of the configuration in force after one entry more.
pub fn force_after(force: u32, entry: &Entry) -> u32
    ensures { result ≡ force_along force (entry.now ∷ []) }
{
    match entry {
        Entry::Reload { conf, moment: _ } => *conf,
        _ => force,
    }
}

/// The number of the configuration in force after entries.
#[tactic(auto, using(crate::proofs::Reloads::force_step))]
pub fn force_of(at_base: u32, entries: &[Entry]) -> u32
    ensures { result ≡ force_along at_base entries.now }
{
    let mut force = at_base;
    'entries: for entry in entries {
        force = force_after(force, entry);
    }
    force
}
