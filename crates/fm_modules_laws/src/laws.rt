//! The laws, each as the contract of a call that does nothing.

ghost use Rattle.std.specs.Option.{option_map};
ghost use Rattle.std.specs.Prelude.{◌≡◌, ◌≤◌, ◌^◌, ℕ, All, List, Some, slice_get};
ghost use Rattle.ev_check.specs.CheckedFile.{CheckedFile};
ghost use Rattle.ev_graph.specs.Lawful.{GraphValue};
ghost use Rattle.ev_inst.specs.Instances.{IsGraphOf};
ghost use Rattle.fm_core.specs.Book.{ModuleState, next_number, with_entries};
ghost use Rattle.fm_entry.specs.Entries.{IsSpelled};
ghost use Rattle.fm_entry.specs.declared.entry.Entry.{Entry};
ghost use Rattle.fm_logs.specs.Contents.{Contents};
ghost use Rattle.fm_logs.specs.ReadsAsBook.{ReadsAsBook};
ghost use Rattle.fm_logs.specs.StoreBook.{StoreBook, with_book};
ghost use Rattle.fm_saved.specs.declared.conf.Conf.{Conf};
ghost use Rattle.dx_state.specs.Configured.{Configuration};
ghost use Rattle.fm_modules.specs.KeptTexts.{ConfMakes};
ghost use Rattle.fm_modules.specs.Modules.{AreModulesOf};
ghost use Rattle.fm_sources.specs.Rules.{IsRuleFile};
ghost use Rattle.fm_store.specs.StoreLeft.{ReadsLike};
ghost use Rattle.fm_store.specs.StoreOf.{StoreOf, StoreStandsFor};
ghost use Rattle.fm_topo.specs.Topology.{topology_of};
ghost use Rattle.fm_modules_laws.specs.ExactSuspects.{HasExactSuspects};

use fm_outer::Disk;

/// A configuration makes one row: of each of its rule files one configuration of a module.
pub fn a_configuration_makes_one_row()
    ensures { (conf : Conf) (row other : List Configuration) → ConfMakes conf row
        → ConfMakes conf other → row ≡ other }
{}

/// The graph of a rule file of a configuration, over its topology, is the one that its row has
/// there.
pub fn a_row_has_the_graphs_of_its_files()
    ensures { (conf : Conf) (row : List Configuration) (file : ℕ) (text : List ℕ)
        (f : CheckedFile) (g : GraphValue) (skipped : ℕ) → ConfMakes conf row
        → slice_get conf.rules file ≡ Some text → IsRuleFile text f
        → IsGraphOf f (topology_of conf.topo) g skipped
        → option_map (λ x. x.graph) (slice_get row file) ≡ Some g }
{}

/// Configurations make one list of modules.
pub fn configurations_make_one_list_of_modules()
    ensures { (confs : List Conf) (modules others : List ModuleState)
        → AreModulesOf confs modules → AreModulesOf confs others → modules ≡ others }
{}

/// The contents of six disks read as one book of the modules that the configurations in them make,
/// and these modules are one list.
pub fn contents_read_as_one_book()
    ensures { (c : Contents) (fresh others : List ModuleState) (book other : StoreBook)
        → AreModulesOf book.confs fresh → ReadsAsBook fresh c book
        → AreModulesOf other.confs others → ReadsAsBook others c other
        → (fresh ≡ others) × (book ≡ other) }
{}

/// The book of a store whose modules are those of the texts that it keeps has exact suspects once
/// it is drained, and so it has with more entries that have spellings, up to the greatest number of
/// entries.
pub fn stores_have_exact_suspects<D: Disk, M>()
    ensures { (fresh : List ModuleState) (store : StoreOf D M) (k : StoreBook) (more : List Entry)
        (made : AreModulesOf k.confs fresh) → StoreStandsFor D.Disk fresh store k
        → next_number (with_entries k.book more) ≤ 2 ^ 46 → All IsSpelled more
        → HasExactSuspects made (with_entries k.book more) }
{}

/// So it has where contents read as the book, whether a checkpoint says the states of its modules
/// or they are as they were made.
pub fn contents_have_exact_suspects()
    ensures { (fresh : List ModuleState) (c : Contents) (k : StoreBook) (more : List Entry)
        (made : AreModulesOf k.confs fresh) → ReadsAsBook fresh c k
        → next_number (with_entries k.book more) ≤ 2 ^ 46 → All IsSpelled more
        → HasExactSuspects made (with_entries k.book more) }
{}

/// And so it has with the entries that an image has more, which reads like the book with these.
pub fn images_have_exact_suspects()
    ensures { (fresh : List ModuleState) (c image : Contents) (k : StoreBook) (more : List Entry)
        (made : AreModulesOf k.confs fresh) → ReadsAsBook fresh c k
        → ReadsLike fresh (with_book k (with_entries k.book more)) image → All IsSpelled more
        → HasExactSuspects made (with_entries k.book more) }
{}
