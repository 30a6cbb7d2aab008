//! What logs keep is a book: laws over the six disks, each as the contract of a function without a
//! body.

ghost use Rattle.std.specs.Prelude.{ℕ, List};
ghost use Rattle.std.specs.declared.option.Option.{Option};
ghost use Rattle.fm_entry.specs.declared.entry.Entry.{Entry};
ghost use Rattle.fm_core.specs.Book.{Book, ModuleState, IsLawful, floored, worked};
ghost use Rattle.fm_logs.specs.Contents.{Contents};
ghost use Rattle.fm_logs.specs.LogsBook.{LogsStandFor, BookIsLeft, AcceptMoments, CommitMoments};
ghost use Rattle.fm_logs.specs.LogsBook.{IsStepOf, DrainAlike, store_worked};
ghost use Rattle.fm_logs.specs.LogsOf.{LogsOf, TakesEntry, AcceptLeaves, Commits, CommitLeaves};
ghost use Rattle.fm_logs.specs.StoreBook.{StoreBook, IsLawfulStore, store_accepted};

use fm_outer::Disk;

/// Each image of the six disks reads as the book that the logs stand for.
pub fn logs_read_as_books<D: Disk>()
    ensures { (logs : LogsOf D) (fresh : List ModuleState) (c : Contents) (k : StoreBook)
        → LogsStandFor D.Disk logs fresh c k → BookIsLeft D.Disk logs fresh c k }
{}

/// Where an entry may be accepted, taking it makes logs that stand for the accepted book, and at
/// each moment of it each image of the six disks reads as the book of before or as that one.
pub fn an_entry_is_accepted<D: Disk>()
    ensures done { (old new : LogsOf D) (fresh : List ModuleState) (c : Contents) (k : StoreBook)
        (e : Entry) (n : ℕ) → LogsStandFor D.Disk old fresh c k
        → IsLawfulStore (store_accepted k e) → TakesEntry D.Disk old new e n
        → LogsStandFor D.Disk new fresh c (store_accepted k e) }
    ensures any_moment { (old new : LogsOf D) (fresh : List ModuleState) (c : Contents)
        (k : StoreBook) (e : Entry) → LogsStandFor D.Disk old fresh c k
        → IsLawfulStore (store_accepted k e) → AcceptLeaves D.Disk old new e
        → AcceptMoments D.Disk old new fresh c k (store_accepted k e) }
{}

/// Where the frame has the words of a step, committing it makes logs that stand for the book that
/// is worked on, and at each moment of it each image of the six disks reads as the book of before
/// or as that one.
pub fn a_step_is_worked<D: Disk>()
    ensures done { (old new : LogsOf D) (fresh : List ModuleState) (c : Contents) (k : StoreBook)
        (i n : ℕ) (frame : Option (List ℕ)) → LogsStandFor D.Disk old fresh c k
        → IsStepOf k.book i n frame → Commits D.Disk old new i n frame
        → LogsStandFor D.Disk new fresh c (store_worked k i) }
    ensures any_moment { (old new : LogsOf D) (fresh : List ModuleState) (c : Contents)
        (k : StoreBook) (i n : ℕ) (frame : Option (List ℕ)) → LogsStandFor D.Disk old fresh c k
        → IsStepOf k.book i n frame → CommitLeaves D.Disk old new frame
        → CommitMoments D.Disk old new fresh c k (store_worked k i) }
{}

/// A book of which a module is worked on, and one of which each module falls to its floor, drain to
/// what the book drains to, also after more entries.
pub fn work_and_falls_drain_alike()
    ensures works { (k : Book) (i : ℕ) → IsLawful k → DrainAlike (worked k i) k }
    ensures falls { (k : Book) → IsLawful k → DrainAlike (floored k) k }
{}
