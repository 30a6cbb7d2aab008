//! A store: its logs, and what stands beside them.

ghost use Rattle.std.specs.Prelude.{◌≡◌, ◌<◌, ◌^◌, ◌∷◌, [], List, length, slice_get, Some, All};
ghost use Rattle.std.specs.Prelude.{◌↔◌, ◌≤◌, IsTrue, IfOk, IfErr};
ghost use Rattle.std.specs.Option.{option_map};
ghost use Rattle.fm_core.specs.Book.{ModuleState, greatest_from};
ghost use Rattle.fm_entry.specs.Entries.{IsSpelled};
ghost use Rattle.fm_logs.specs.LogsBook.{IsStepOf};
ghost use Rattle.fm_logs.specs.LogReads.{AreLogged, AreOrdered, AreSpoken, ReadsLogged};
ghost use Rattle.fm_logs.specs.LogReads.{ReadsSpoken, UnreadLog};
ghost use Rattle.fm_logs.specs.LogsOf.{AcceptDoes, CommitDoes, name_of_two};
ghost use Rattle.fm_logs.specs.declared.disks.DiskName.TheVariants.{Flt};
ghost use Rattle.fm_logs.specs.StoreBook.{StoreBook, IsLawfulStore, store_accepted, force_along};
ghost use Rattle.fm_store.specs.StoreOf.{StoreStandsFor, greatest_at, force_at};
ghost use Rattle.fm_store.specs.StoreLeft.{AreSameStore, AreDisksOf};
ghost use Rattle.fm_store.specs.StoreCalls.{AcceptsOnBook, AreAtEnd, CommitsOnBook, next_entry};
ghost use Rattle.fm_store.specs.StoreReading.{HasLogged, IsNoDamage};

use crate::store_base::StoreBase;
use fm_entry::{Entry, Spoken};
use fm_journal::Frame;
use fm_logs::{Committed, DiskName, Disks, Logs, StoreFault};
use fm_looks::{force_after, force_of};
use fm_outer::Disk;
use std::alloc::Global;
use std::marker::Model;

/// The greatest of the moment and those of the entries.
fn greatest_along(moment: u64, entries: &[Entry]) -> u64
    requires fits { moment < 2 ^ 62 }
    requires spelled { All IsSpelled entries.now }
    ensures value { result ≡ greatest_from moment entries.now }
    ensures fits { result < 2 ^ 62 }
{
    let mut greatest = moment;
    'entries: for entry in entries {
        greatest = greatest.max(entry.moment());
    }
    greatest
}

/// Six disks that stand for one book, with the modules that the book is of. Contracts see
/// `StoreOf`.
#[derive(Drop)]
pub struct Store<D: Disk, M> {
    pub(crate) logs: Logs<D>,
    pub(crate) base: StoreBase<D, M>,
    pub(crate) greatest: u64,
    pub(crate) in_force: u32,
}

impl<D: Disk, M> Model for Store<D, M> {
    ghost use Rattle.fm_store.specs.StoreOf.{StoreOf};
    ghost use Rattle.fm_store.specs.StoreLimits.{IsStore, store_of};
    ghost use Rattle.std.specs.Coded.{codes};
    ghost use Rattle.fm_entry.specs.contracts.entry.Entry as entry_row;

    ghost Value = { StoreOf D M };

    ghost coded = { Prim.hlevel (codes, entry_row.the_row.coded, M.code) };

    ghost view = { λ s. store_of s.logs s.base };

    ghost invariant = { λ s. IsStore (store_of s.logs s.base) s.greatest s.in_force };
}

impl<D: Disk, M> Store<D, M> {
    /// A store of these two parts.
    pub fn whole(logs: Logs<D>, base: StoreBase<D, M>) -> Store<D, M>
        requires few { length logs.cursors < 2 ^ 32 }
        ensures { result ≡ record { logs = logs; base = base } }
    {
        let greatest = greatest_along(base.moment(), logs.entries());
        let in_force = force_of(base.in_force(), logs.entries());
        Store {
            logs,
            base,
            greatest,
            in_force,
        }
    }

    /// The two parts: the logs, which a lock may hold, and what stands beside them.
    pub fn apart(self) -> (Logs<D>, StoreBase<D, M>)
        ensures { result ≡ (self.logs, self.base) }
    {
        let Store {
            logs,
            base,
            greatest: _,
            in_force: _,
        } = self;
        (logs, base)
    }

    /// The entries from the base on.
    pub fn entries(&self) -> &[Entry]
        ensures entries { result.now ≡ self.now.logs.entries }
        ensures spelled { All IsSpelled result.now }
    {
        self.logs.entries()
    }

    /// The number of entries before the base.
    pub fn base(&self) -> u64
        ensures { result ≡ self.now.logs.base }
    {
        self.logs.base()
    }

    /// The number of the next entry, which is how many entries there ever were.
    pub fn next_entry(&self) -> u64
        ensures value { result ≡ next_entry self.now.logs }
        ensures few { result ≤ 2 ^ 46 }
    {
        self.logs.next_entry()
    }

    /// How far the module has come: the number of the next entry that it takes.
    pub fn cursor(&self, own: u32) -> u64
        requires { own < length self.now.logs.cursors }
        ensures { slice_get self.now.logs.cursors own ≡ Some result }
    {
        self.logs.cursor(own)
    }

    /// The greatest moment of all entries ever, in nanoseconds.
    pub fn greatest(&self) -> u64
        ensures value { result ≡ greatest_at self.now }
        ensures fits { result < 2 ^ 62 }
    {
        self.greatest
    }

    /// The number of the configuration now in force.
    pub fn conf_now(&self) -> u32
        ensures { result ≡ force_at self.now }
    {
        self.in_force
    }

    /// How many modules there are, which are numbered from 0.
    pub fn modules(&self) -> u32
        ensures { result ≡ length self.now.logs.cursors }
    {
        self.logs.modules() as u32
    }

    /// Whether each module has come to the end of the entries.
    pub fn is_done(&self) -> bool
        ensures { IsTrue result ↔ AreAtEnd self.now.logs }
    {
        self.logs.is_done()
    }

    /// The disk that failed in a writing call, and its count of failures then; `None` exactly where
    /// none did.
    pub fn closed(&self) -> Option<(DiskName, u64)>
        ensures { result ≡ self.now.logs.closed }
    {
        self.logs.closed()
    }

    /// The records of the fault log, by number and those of one number by module. The disk is only
    /// read, once, and the store stands for the same book. `Damaged` never comes while it stands
    /// for one; a closed store answers `Closed`.
    pub fn spoken(&mut self, alloc: Global) -> Result<Vec<Spoken>, StoreFault>
        ensures reads { ReadsSpoken D.Disk self.old.logs self.new.logs }
        ensures base_same { self.new.base ≡ self.old.base }
        ensures found { IfOk result
            (λ found. AreSpoken D.Disk self.old.logs self.new.logs found.items) }
        ensures refused { IfErr result (UnreadLog D.Disk Flt self.old.logs self.new.logs
            self.old.logs.flt.disk self.new.logs.flt.disk) }
        ensures book { (fresh : List ModuleState) (k : StoreBook)
            → StoreStandsFor D.Disk fresh self.old k → StoreStandsFor D.Disk fresh self.new k }
        ensures records { (fresh : List ModuleState) (k : StoreBook)
            → StoreStandsFor D.Disk fresh self.old k
            → IfOk result (λ found. AreOrdered k.book.records found.items) }
        ensures undamaged { (fresh : List ModuleState) (k : StoreBook)
            → StoreStandsFor D.Disk fresh self.old k → IfErr result IsNoDamage }
        ensures same_disks { AreSameStore D.Disk self.old self.new }
    {
        self.logs.spoken(alloc)
    }

    /// The entries of the active error journal, which are those since the last rotation. The disk
    /// is only read, once, and the store stands for the same book. `Damaged` never comes while it
    /// stands for one; a closed store answers `Closed`.
    pub fn logged(&mut self, alloc: Global) -> Result<Vec<Entry>, StoreFault>
        ensures reads { ReadsLogged D.Disk self.old.logs self.new.logs }
        ensures base_same { self.new.base ≡ self.old.base }
        ensures found { IfOk result
            (λ found. AreLogged D.Disk self.old.logs self.new.logs found.items) }
        ensures refused { IfErr result (UnreadLog D.Disk (name_of_two self.old.logs.second)
            self.old.logs self.new.logs self.old.logs.active.disk self.new.logs.active.disk) }
        ensures book { (fresh : List ModuleState) (k : StoreBook)
            → StoreStandsFor D.Disk fresh self.old k → StoreStandsFor D.Disk fresh self.new k }
        ensures entries { (fresh : List ModuleState) (k : StoreBook)
            → StoreStandsFor D.Disk fresh self.old k
            → IfOk result (λ found. HasLogged self.old.logs.active.first k.book found.items) }
        ensures undamaged { (fresh : List ModuleState) (k : StoreBook)
            → StoreStandsFor D.Disk fresh self.old k → IfErr result IsNoDamage }
        ensures same_disks { AreSameStore D.Disk self.old self.new }
    {
        self.logs.logged(alloc)
    }

    /// Takes an entry, and gives its number. After `Ok` each image of the disks has it; after
    /// `Disk` the store is closed, and each image reads as before, or with the entry.
    pub fn accept(&mut self, alloc: Global, entry: Entry) -> Result<u64, StoreFault>
        requires spelled { IsSpelled entry }
        ensures does { AcceptDoes D.Disk self.old.logs self.new.logs entry result }
        ensures base_same { self.new.base ≡ self.old.base }
        ensures book { (fresh : List ModuleState) (k : StoreBook)
            → StoreStandsFor D.Disk fresh self.old k → IsLawfulStore (store_accepted k entry)
            → AcceptsOnBook D.Disk fresh self.old self.new k entry result }
        ensures same_disks { AreSameStore D.Disk self.old self.new }
    {
        let greatest = self.greatest.max(entry.moment());
        let in_force = force_after(self.in_force, &entry);
        match self.logs.accept(alloc, entry) {
            Ok(number) => {
                self.greatest = greatest;
                self.in_force = in_force;
                Ok(number)
            }
            Err(fault) => Err(fault),
        }
    }

    /// Commits a step of the module `own`: its cursor was the number, and `frame` has the words
    /// that it said, if it said any. Each image of the disks reads as a book that drains to what
    /// the book of before does.
    pub fn commit(
        &mut self,
        own: u32,
        number: u64,
        frame: Option<&Frame>,
    ) -> Result<Committed, StoreFault>
        requires known { own < length self.old.logs.cursors }
        requires few { number < 2 ^ 46 }
        ensures does { CommitDoes D.Disk self.old.logs self.new.logs own number
            (option_map (λ f. f.now) frame.entry) result }
        ensures base_same { self.new.base ≡ self.old.base }
        ensures book { (fresh : List ModuleState) (k : StoreBook)
            → StoreStandsFor D.Disk fresh self.old k
            → IsStepOf k.book own number (option_map (λ f. f.now) frame.entry)
            → CommitsOnBook D.Disk fresh self.old self.new k own result }
        ensures same_disks { AreSameStore D.Disk self.old self.new }
    {
        self.logs.commit(own, number, frame)
    }
}

impl<D: Disk, M: Drop> Store<D, M> {
    /// The disks.
    pub fn into_disks(self) -> Disks<D>
        ensures { AreDisksOf self result }
    {
        let (logs, base) = self.apart();
        base.into_disks(logs)
    }
}
