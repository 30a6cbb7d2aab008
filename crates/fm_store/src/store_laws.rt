//! What the disks of a store read as, as the contract of a function without a body.

ghost use Rattle.std.specs.Prelude.{List};
ghost use Rattle.fm_core.specs.Book.{ModuleState};
ghost use Rattle.fm_logs.specs.StoreBook.{StoreBook};
ghost use Rattle.fm_store.specs.StoreLeft.{EachLeft, ReadsLike};
ghost use Rattle.fm_store.specs.StoreOf.{StoreOf, StoreStandsFor};

use fm_outer::Disk;

/// Whatever a crash now leaves of the disks of a store that stands for a book reads like the book.
pub fn stores_read_like_their_books<D: Disk, M>()
    ensures { (fresh : List ModuleState) (store : StoreOf D M) (k : StoreBook)
        → StoreStandsFor D.Disk fresh store k → EachLeft D.Disk store (ReadsLike fresh k) }
{}
