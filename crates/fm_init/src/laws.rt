//! What the contents of a new store read as, as the contract of a function without a body.

ghost use Rattle.std.specs.Prelude.{List};
ghost use Rattle.fm_core.specs.Book.{ModuleState};
ghost use Rattle.fm_saved.specs.Confs.{IsSpelledConf};
ghost use Rattle.fm_saved.specs.declared.conf.Conf.{Conf};
ghost use Rattle.fm_logs.specs.Contents.{Contents};
ghost use Rattle.fm_logs.specs.ReadsAsBook.{ReadsAsBook};
ghost use Rattle.fm_init.specs.Making.{IsNewStore, AreFirstModules, new_book};

/// The contents of a new store read as the book without entries and records, with the modules as
/// they are made.
pub fn a_new_store_reads_as_its_book()
    ensures { (fresh : List ModuleState) (c : Contents) (conf : Conf) → IsSpelledConf conf
        → AreFirstModules fresh → IsNewStore c conf → ReadsAsBook fresh c (new_book fresh conf) }
{}
