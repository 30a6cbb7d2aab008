//! Laws of diagnosis modules along entries, each as the contract of a function without a body.

ghost use Rattle.std.specs.Prelude.{◌+◌, ◌≤◌, ◌^◌, ℕ, List, length, All};
ghost use Rattle.std.specs.List.{AllZip};
ghost use Rattle.fm_core.specs.Book.{Book, ModuleState, next_number, with_entries};
ghost use Rattle.fm_entry.specs.declared.entry.Entry.{Entry};
ghost use Rattle.fm_entry.specs.Entries.{IsSpelled};
ghost use Rattle.fm_logs.specs.Contents.{Contents};
ghost use Rattle.fm_logs.specs.ReadsAsBook.{ReadsAsBook};
ghost use Rattle.fm_logs.specs.StoreBook.{StoreBook};
ghost use Rattle.dx_state.specs.Configured.{Rules, Configuration, Single};
ghost use Rattle.dx_step.specs.Exact.{HaveGraphs};
ghost use Rattle.dx_step.specs.Longer.{rules_of};
ghost use Rattle.dx_along.specs.ExactAlong.{IsDiagnoserOf, IsExactAlong, IsExactBook};
ghost use Rattle.dx_along.specs.ExactAlong.{HasGraph};

/// What a diagnosis module says along entries names just the roots that explain what was observed,
/// and each case that is open then has a pending report.
pub fn suspects_are_exact_along()
    ensures { (r : Rules) (p : ModuleState) (n : ℕ) (es : List Entry) → IsDiagnoserOf r p
        → n + length es ≤ 2 ^ 46 → All IsSpelled es → IsExactAlong r p n es }
{}

/// So do the records of a drained book that are numbered from its base on, whose modules are
/// diagnosis modules made with these rules.
pub fn drained_books_are_exact()
    ensures { (rules : List Rules) (k : Book) → AllZip IsDiagnoserOf rules k.modules
        → next_number k ≤ 2 ^ 46 → All IsSpelled k.entries → IsExactBook rules k }
{}

/// And so do those of the book that the contents of disks read as, after more entries, where the
/// modules of the configuration are such ones.
pub fn books_on_disks_are_exact()
    ensures { (rules : List Rules) (fresh : List ModuleState) (c : Contents) (k : StoreBook)
        (more : List Entry) → AllZip IsDiagnoserOf rules fresh → ReadsAsBook fresh c k
        → next_number (with_entries k.book more) ≤ 2 ^ 46 → All IsSpelled more
        → IsExactBook rules (with_entries k.book more) }
{}

/// A module that is made with graphs has them in each of its configurations.
pub fn graphs_make_rules()
    ensures single { (own number : ℕ) (x : Configuration) → HasGraph x
        → HaveGraphs (record { own = own; configurations = Single number x }) }
    ensures listed { (own : ℕ) (xs : List Configuration) → All HasGraph xs
        → HaveGraphs (rules_of own xs) }
{}
