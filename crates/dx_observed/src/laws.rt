// Laws of what cases observe, each as the contract of a function without a body.
ghost use Rattle.std.specs.Prelude.{◌≡◌, ◌+◌, ◌≤◌, ◌^◌, ℕ, false, List, length, All, IsTrue};
ghost use Rattle.std.specs.List.{AllZip};
ghost use Rattle.fm_name.specs.declared.events.EventName.{EventName};
ghost use Rattle.fm_entry.specs.Entries.{IsSpelled};
ghost use Rattle.fm_entry.specs.declared.entry.Entry.{Entry};
ghost use Rattle.fm_core.specs.Book.{Book, next_number};
ghost use Rattle.fm_core.specs.Meaning.{Diagnosis};
ghost use Rattle.dx_state.specs.Configured.{Rules};
ghost use Rattle.dx_step.specs.Exact.{HaveGraphs};
ghost use Rattle.dx_step.specs.Lawful.{is_lawful};
ghost use Rattle.dx_step.specs.Turns.{graph_of};
ghost use Rattle.dx_meaning.specs.Fresh.{fresh_of};
ghost use Rattle.dx_along.specs.ExactAlong.{IsDiagnoserOf};
ghost use Rattle.dx_observed.specs.Reported.{fired_at, had_observed, is_trip};
ghost use Rattle.dx_observed.specs.SmallReports.{SmallReports};
ghost use Rattle.dx_observed.specs.ObservedAlong.{ObservesReports, ExplainsReports};
ghost use Rattle.dx_observed.specs.ObservedBook.{ExplainsBook};

/// Along entries from a lawful state each report joins one case, and what a word says that its case
/// observed is just what the case had observed in that state and the reports that joined it.
pub fn cases_observe_just_their_reports()
    ensures { (r : Rules) (s : Diagnosis) (n : ℕ) (es : List Entry) → IsTrue (is_lawful r s)
        → ObservesReports r s n es }
{}

/// The suspects of a solved case are just the faults and defects that explain all its reports.
pub fn suspects_explain_all_reports()
    ensures { (r : Rules) (s : Diagnosis) (n : ℕ) (es : List Entry) → HaveGraphs r
        → IsTrue (is_lawful r s) → n + length es ≤ 2 ^ 46 → All IsSpelled es
        → ExplainsReports r s n es }
{}

/// So do those that each module of a drained book names from the book's base on, where the modules
/// are diagnosis modules made with these rules.
pub fn drained_books_explain_all_reports()
    ensures { (rules : List Rules) (k : Book) → AllZip IsDiagnoserOf rules k.modules
        → next_number k ≤ 2 ^ 46 → All IsSpelled k.entries → ExplainsBook rules k }
{}

/// What the engines report that fire at an entry is the reports of engines of the graph in force.
pub fn fired_reports_are_of_engines()
    ensures { (r : Rules) (s : Diagnosis) (n : ℕ) (e : Entry)
        → All (λ node. IsTrue (is_trip (graph_of r s) node)) (fired_at r s n e) }
{}

/// In the state that a module begins in no case has observed anything.
pub fn fresh_states_have_observed_nothing()
    ensures { (r : Rules) (k : ℕ) (x : EventName) → had_observed r (fresh_of r) k x ≡ false }
{}

/// What is reported to a small module at a few entries, and what it has observed then.
pub fn small_module_observes()
    ensures { SmallReports }
{}
