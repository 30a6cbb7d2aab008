//! The logs of a store, without its modules.

ghost use Rattle.std.specs.Prelude.{◌≡◌, ◌<◌, ◌^◌, ◌++◌, List, length, slice_get, None, Some, IfOk};
ghost use Rattle.std.specs.Prelude.{◌+◌, ◌-◌, ◌≤◌, ◌==◌, IfSome};
ghost use Rattle.std.specs.List.{list_all};
ghost use Rattle.std.specs.Prelude.{IfErr, OnOk, IsOk, [], not, All};
ghost use Rattle.std.specs.Option.{option_map};
ghost use Rattle.fm_entry.specs.Entries.{IsSpelled, entry_bytes};
ghost use Rattle.fm_entry.specs.declared.entry.Entry.{Entry};
ghost use Rattle.fm_entry.specs.declared.spoken.Spoken.{Spoken};
ghost use Rattle.fm_logs.specs.LogsOf.{name_of_two, FrameRefused, Frames, LogsKeep, AreSameLogs};
ghost use Rattle.fm_logs.specs.LogsOf.{AcceptDoes, AcceptLeaves, WordsRefused, CommitDoes};
ghost use Rattle.fm_logs.specs.LogsLimits.{logs_of};
ghost use Rattle.fm_logs.specs.LogsOf.{CommitLeaves, CanTakeFrame, with_frame};
ghost use Rattle.fm_logs.specs.LogReads.{AreLogged, AreSpoken, ReadsLogged, ReadsSpoken, UnreadLog};
ghost use Rattle.fm_logs.specs.declared.disks.DiskName.TheVariants.{Flt};

use crate::disks::DiskName;
use crate::fault::StoreFault;
use crate::reading::{EntrySpelling, read_log, read_records};
use fm_entry::{Entry, Spoken, write_entry};
use fm_journal::{Frame, FrameFault, FullKind, Journal, JournalFault};
use fm_outer::Disk;
use std::alloc::Global;
use std::marker::Model;
use std::mem;

/// The name of the active journal's disk.
fn active_name(second: bool) -> DiskName
    ensures { result ≡ name_of_two second }
{
    if second {
        DiskName::ErrB
    } else {
        DiskName::ErrA
    }
}

/// The disk and its count of failures, where the journal is closed.
fn closed_at<D: Disk>(name: DiskName, journal: &Journal<D>) -> Option<(DiskName, u64)>
    ensures { result ≡ option_map (λ failures. (name, failures)) journal.now.closed }
{
    match journal.closed() {
        Some(failures) => Some((name, failures)),
        None => None,
    }
}

/// The frame of an entry.
fn entry_frame(alloc: Global, entry: &Entry) -> Result<Frame, StoreFault>
    requires { IsSpelled entry.now }
    ensures ok { IfOk result (λ frame. frame ≡ entry_bytes entry.now) }
    ensures short { OnOk result (length (entry_bytes entry.now) ≤ 2 ^ 28) }
    ensures err { IfErr result (FrameRefused (entry_bytes entry.now)) }
{
    let mut bytes = Vec::new(alloc);
    write_entry(entry, &mut bytes)?;
    match Frame::new(alloc, &bytes) {
        Ok(frame) => Ok(frame),
        Err(FrameFault::TooLong) => Err(StoreFault::Full(FullKind::Payload)),
        Err(FrameFault::NoMemory) => Err(StoreFault::NoMemory),
    }
}

/// The two journals of a store, whether the active one is the second, the number of entries before
/// the base, the entries from the base on, and how far each module has come.
#[derive(Drop)]
pub struct LogsParts<D: Disk> {
    pub active: Journal<D>,
    pub flt: Journal<D>,
    pub second: bool,
    pub base: u64,
    pub entries: Vec<Entry>,
    pub cursors: Vec<u64>,
}

/// What became of a commit.
#[derive(Clone, Copy, Debug, Drop, PartialEq, Eq)]
pub enum Committed {
    Done,
    /// The module's cursor is another number, and nothing was done.
    Stale { cursor: u64 },
}

/// The active error journal and the fault log with what is known of them. Contracts see `LogsOf`.
#[derive(Drop)]
pub struct Logs<D: Disk> {
    active: Journal<D>,
    flt: Journal<D>,
    second: bool,
    base: u64,
    entries: Vec<Entry>,
    cursors: Vec<u64>,
    closed: Option<(DiskName, u64)>,
}

impl<D: Disk> Model for Logs<D> {
    ghost use Rattle.fm_logs.specs.LogsOf.{LogsOf};
    ghost use Rattle.fm_logs.specs.LogsLimits.{AreLogs, logs_of};
    ghost use Rattle.std.specs.Coded.{codes};
    ghost use Rattle.fm_entry.specs.contracts.entry.Entry as entry_row;

    ghost Value = { LogsOf D };

    ghost coded = { Prim.hlevel (codes, entry_row.the_row.coded) };

    ghost view = { λ l. logs_of l.active l.flt l.second l.base l.entries.items l.cursors.items
        l.closed };

    ghost invariant = { λ l. AreLogs (logs_of l.active l.flt l.second l.base l.entries.items
        l.cursors.items l.closed) };
}

impl<D: Disk> Logs<D> {
    /// Logs of these parts. The journals are open, the active one ends with the last entry, there
    /// are at most 2^46 entries, and they have spellings.
    pub fn new(parts: LogsParts<D>) -> Logs<D>
        requires active_open { parts.active.closed ≡ None }
        requires flt_open { parts.flt.closed ≡ None }
        requires numbered { parts.active.first + parts.active.count
            ≡ parts.base + length parts.entries.items }
        requires few { parts.base + length parts.entries.items ≤ 2 ^ 46 }
        requires spelled { All IsSpelled parts.entries.items }
        ensures { result ≡ logs_of parts.active parts.flt parts.second parts.base
            parts.entries.items parts.cursors.items None }
    {
        Logs {
            active: parts.active,
            flt: parts.flt,
            second: parts.second,
            base: parts.base,
            entries: parts.entries,
            cursors: parts.cursors,
            closed: None,
        }
    }

    /// The parts, with which the logs may be opened again.
    pub fn into_parts(self) -> LogsParts<D>
        ensures { logs_of result.active result.flt result.second result.base result.entries.items
            result.cursors.items self.closed ≡ self }
    {
        let Logs {
            active,
            flt,
            second,
            base,
            entries,
            cursors,
            closed: _,
        } = self;
        LogsParts {
            active,
            flt,
            second,
            base,
            entries,
            cursors,
        }
    }

    /// The entries from the base on.
    pub fn entries(&self) -> &[Entry]
        ensures entries { result.now ≡ self.now.entries }
        ensures spelled { All IsSpelled result.now }
    {
        &self.entries
    }

    /// The entry with a number that isn't below the base, if there is one.
    pub fn entry(&self, number: u64) -> Option<&Entry>
        requires from_base { self.now.base ≤ number }
        ensures entry { option_map (λ e. e.now) result
            ≡ slice_get self.now.entries (number - self.now.base) }
        ensures few { IfSome result (λ _. number < 2 ^ 46) }
        ensures spelled { IfSome result (λ e. IsSpelled e.now) }
    {
        self.entries.get((number - self.base) as usize)
    }

    /// The number of entries before the base.
    pub fn base(&self) -> u64
        ensures { result ≡ self.now.base }
    {
        self.base
    }

    /// Whether the active error journal is the second.
    pub fn is_second(&self) -> bool
        ensures { result ≡ self.now.second }
    {
        self.second
    }

    /// The number of the next entry, which is how many entries there ever were.
    pub fn next_entry(&self) -> u64
        ensures value { result ≡ self.now.base + length self.now.entries }
        ensures few { result ≤ 2 ^ 46 }
    {
        self.base + self.entries.len() as u64
    }

    /// How far the module has come: the number of the next entry that it takes.
    pub fn cursor(&self, own: u32) -> u64
        requires { own < length self.now.cursors }
        ensures { slice_get self.now.cursors own ≡ Some result }
    {
        self.cursors[own as usize]
    }

    /// How many modules there are.
    pub fn modules(&self) -> usize
        ensures { result ≡ length self.now.cursors }
    {
        self.cursors.len()
    }

    /// Whether each module has come to the end of the entries.
    pub fn is_done(&self) -> bool
        ensures { result ≡ list_all (λ cursor. cursor == self.now.base + length self.now.entries)
            self.now.cursors }
    {
        let end = self.base + self.entries.len() as u64;
        self.cursors.iter().all(|cursor| *cursor == end)
    }

    /// The disk that failed in a writing call, and its count of failures then; `None` exactly where
    /// none did.
    pub fn closed(&self) -> Option<(DiskName, u64)>
        ensures { result ≡ self.now.closed }
    {
        self.closed
    }

    /// Takes an entry, and gives its number. The active journal has it on its disk after `Ok`, and
    /// after `Disk` the logs are closed.
    pub fn accept(&mut self, alloc: Global, entry: Entry) -> Result<u64, StoreFault>
        requires spelled { IsSpelled entry }
        ensures does { AcceptDoes D.Disk self.old self.new entry result }
        ensures any_moment { AcceptLeaves D.Disk self.old self.new entry }
        ensures same_disks { AreSameLogs D.Disk self.old self.new }
    {
        if let Some((disk, faults)) = self.closed {
            return Err(StoreFault::Closed { disk, faults });
        }
        let frame = entry_frame(alloc, &entry)?;
        self.entries.push(entry)?;
        match self.active.append(&frame) {
            Ok(number) => Ok(number),
            Err(JournalFault::Full(kind)) => {
                self.entries.pop();
                Err(StoreFault::Full(kind))
            }
            Err(JournalFault::Disk) => {
                self.entries.pop();
                self.closed = closed_at(active_name(self.second), &self.active);
                Err(StoreFault::Disk)
            }
            Err(_) => unreachable!(),
        }
    }

    /// Commits a step of the module `own`: its cursor was the number, and `frame` has the words
    /// that it said, if it said any.
    pub fn commit(
        &mut self,
        own: u32,
        number: u64,
        frame: Option<&Frame>,
    ) -> Result<Committed, StoreFault>
        requires known { own < length self.old.cursors }
        requires few { number < 2 ^ 46 }
        ensures does { CommitDoes D.Disk self.old self.new own number
            (option_map (λ f. f.now) frame.entry) result }
        ensures any_moment { CommitLeaves D.Disk self.old self.new
            (option_map (λ f. f.now) frame.entry) }
        ensures same_disks { AreSameLogs D.Disk self.old self.new }
    {
        if let Some((disk, faults)) = self.closed {
            return Err(StoreFault::Closed { disk, faults });
        }
        let cursor = self.cursors[own as usize];
        if cursor != number {
            return Ok(Committed::Stale { cursor });
        }
        self.append_words(frame)?;
        self.cursors[own as usize] = number + 1;
        Ok(Committed::Done)
    }

    /// The records of the fault log, by number and those of one number by module. The disk is only
    /// read, once. `Damaged` never comes while the logs keep records.
    pub fn spoken(&mut self, alloc: Global) -> Result<Vec<Spoken>, StoreFault>
        ensures reads { ReadsSpoken D.Disk self.old self.new }
        ensures found { IfOk result (λ found. AreSpoken D.Disk self.old self.new found.items) }
        ensures refused { IfErr result (UnreadLog D.Disk Flt self.old self.new self.old.flt.disk
            self.new.flt.disk) }
    {
        if let Some((disk, faults)) = self.closed {
            return Err(StoreFault::Closed { disk, faults });
        }
        read_records(alloc, &mut self.flt)
    }

    /// The entries of the active error journal, which may begin before the base. The disk is only
    /// read, once. `Damaged` never comes while the logs keep entries.
    pub fn logged(&mut self, alloc: Global) -> Result<Vec<Entry>, StoreFault>
        ensures reads { ReadsLogged D.Disk self.old self.new }
        ensures found { IfOk result (λ found. AreLogged D.Disk self.old self.new found.items) }
        ensures refused { IfErr result (UnreadLog D.Disk (name_of_two self.old.second) self.old
            self.new self.old.active.disk self.new.active.disk) }
    {
        if let Some((disk, faults)) = self.closed {
            return Err(StoreFault::Closed { disk, faults });
        }
        read_log(
            alloc,
            active_name(self.second),
            &mut self.active,
            EntrySpelling,
        )
    }

    /// The base moves to the end of the entries, which are dropped.
    pub fn rebase(&mut self)
        ensures { self.new ≡ record self.old {
          base = self.old.base + length self.old.entries;
          entries = [];
        } }
    {
        self.base += self.entries.len() as u64;
        self.entries.clear();
    }

    /// Another journal, which is open and in which the next entry has the same number, becomes the
    /// active one, on the other of the two disks. The one before comes back.
    pub fn change_active(&mut self, active: Journal<D>) -> Journal<D>
        requires is_open { active.closed ≡ None }
        requires numbered { active.first + active.count
            ≡ self.old.base + length self.old.entries }
        ensures changed { self.new ≡ record self.old {
          active = active;
          second = not self.old.second;
        } }
        ensures before { result ≡ self.old.active }
    {
        self.second = !self.second;
        mem::replace(&mut self.active, active)
    }

    /// Closes the logs, as a writing call met a failure of this disk, whose count of failures is
    /// this now.
    pub fn close(&mut self, disk: DiskName, faults: u64)
        ensures { self.new ≡ record self.old { closed = Some (disk, faults) } }
    {
        self.closed = Some((disk, faults));
    }

    /// The words at the end of the fault log, if there are any.
    fn append_words(&mut self, frame: Option<&Frame>) -> Result<(), StoreFault>
        requires is_open { self.old.closed ≡ None }
        ensures done { OnOk result (self.new ≡ record self.old {
          flt = with_frame self.new.flt.disk (option_map (λ f. f.now) frame.entry) self.old.flt;
        }) }
        ensures room { OnOk result
            (CanTakeFrame self.old.flt (option_map (λ f. f.now) frame.entry)) }
        ensures keeps { IsOk result → (older : List Entry) (records said : List Spoken)
            → Frames (option_map (λ f. f.now) frame.entry) said
            → LogsKeep D.Disk self.old older records
            → LogsKeep D.Disk self.new older (records ++ said) }
        ensures refused { IfErr result
            (WordsRefused D.Disk self.old self.new (option_map (λ f. f.now) frame.entry)) }
        ensures any_moment { CommitLeaves D.Disk self.old self.new
            (option_map (λ f. f.now) frame.entry) }
        ensures no_failure { OnOk result
            (D.failures self.new.flt.disk ≡ D.failures self.old.flt.disk) }
        ensures same_disks { AreSameLogs D.Disk self.old self.new }
    {
        let Some(frame) = frame else {
            return Ok(());
        };
        match self.flt.append(frame) {
            Ok(_) => Ok(()),
            Err(JournalFault::Full(kind)) => Err(StoreFault::Full(kind)),
            Err(JournalFault::Disk) => {
                self.closed = closed_at(DiskName::Flt, &self.flt);
                Err(StoreFault::Disk)
            }
            Err(_) => unreachable!(),
        }
    }
}
