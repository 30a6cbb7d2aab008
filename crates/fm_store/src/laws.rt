//! What contents read as, as the contracts of functions without a body.

ghost use Rattle.std.specs.Prelude.{◌≡◌, List, []};
ghost use Rattle.fm_core.specs.Book.{ModuleState};
ghost use Rattle.fm_logs.specs.Contents.{Contents};
ghost use Rattle.fm_logs.specs.ReadsAsBook.{ReadsAsBook};
ghost use Rattle.fm_logs.specs.StoreBook.{StoreBook};
ghost use Rattle.fm_init.specs.Making.{AreFirstModules};
ghost use Rattle.fm_store.specs.Opened.{OpenedOf, Opens, OpensBook};
ghost use Rattle.fm_looks.specs.Opening.{WasRead, DamageAt, AllStorePass, FirstStoreFinds};
ghost use Rattle.fm_looks.specs.Opening.{all_looks, book_read, open_looks};

use fm_outer::Disk;

/// Contents read as a book exactly where all looks pass, and it is the book that these read; there
/// is one at most.
pub fn looks_read_one_book()
    ensures reads { (fresh : List ModuleState) (c : Contents) (read : WasRead)
        → AreFirstModules fresh → AllStorePass fresh c read all_looks
        → ReadsAsBook fresh c (book_read read) }
    ensures passes { (fresh : List ModuleState) (c : Contents) (k : StoreBook)
        → ReadsAsBook fresh c k
        → (read : WasRead) × AllStorePass fresh c read all_looks × (book_read read ≡ k) }
    ensures one { (fresh : List ModuleState) (c : Contents) (k other : StoreBook)
        → ReadsAsBook fresh c k → ReadsAsBook fresh c other → k ≡ other }
{}

/// Contents in which a look finds damage read as no book.
pub fn damage_is_no_book()
    ensures any { (fresh : List ModuleState) (c : Contents) (read : WasRead) (d : DamageAt)
        (k : StoreBook) → FirstStoreFinds fresh c read all_looks d → ReadsAsBook fresh c k → ⊥ }
    ensures at_opening { (fresh : List ModuleState) (c : Contents) (read : WasRead)
        (d : DamageAt) (k : StoreBook) → FirstStoreFinds [] c read open_looks d
        → ReadsAsBook fresh c k → ⊥ }
{}

/// What is open has what the book has that the contents read as.
pub fn an_opening_has_the_book<D: Disk>()
    ensures { (fresh : List ModuleState) (c : Contents) (opened : OpenedOf D) (k : StoreBook)
        → Opens D.Disk c opened → ReadsAsBook fresh c k → OpensBook opened k }
{}
