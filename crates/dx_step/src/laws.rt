// Laws of steps, each as the contract of a function without a body.
ghost use Rattle.std.specs.Prelude.{◌≡◌, ◌<◌, ◌^◌, ℕ, List, false, length, sum, All, IsTrue};
ghost use Rattle.fm_nv.specs.Data.{Pairs};
ghost use Rattle.fm_entry.specs.declared.entry.Entry.{Entry};
ghost use Rattle.fm_entry.specs.declared.entry.Entry.TheVariants.{Report, Tick};
ghost use Rattle.fm_entry.specs.Entries.{IsSpelled};
ghost use Rattle.fm_entry.specs.Words.{IsWordOf};
ghost use Rattle.fm_core.specs.Meaning.{State, Diagnosis, conf_after};
ghost use Rattle.dx_explain.specs.CaseLaws.{HasPending};
ghost use Rattle.dx_state.specs.Configured.{Rules, known_of};
ghost use Rattle.dx_step.specs.Certainty.{certainties};
ghost use Rattle.dx_step.specs.Turns.{graph_of};
ghost use Rattle.dx_step.specs.Reports.{declares};
ghost use Rattle.dx_step.specs.Step.{turn, state_after, words_at};
ghost use Rattle.dx_step.specs.Lawful.{is_lawful};
ghost use Rattle.dx_step.specs.DiagnoserWords.{diagnoser_conf, diagnoser_after, diagnoser_holds};
ghost use Rattle.dx_step.specs.DiagnoserWords.{diagnoser_saved};
ghost use Rattle.dx_step.specs.Exact.{ByStories, IsExact, HaveGraphs};
ghost use Rattle.dx_step.specs.Examples.{Examples};
ghost use Rattle.dx_step.specs.Longer.{DoAlike};

/// A lawful state is followed by a lawful one, and what is said has spellings.
pub fn steps_stay_lawful()
    ensures lawful { (r : Rules) (s : Diagnosis) (n : ℕ) (e : Entry) → IsTrue (is_lawful r s)
        → n < 2 ^ 46 → IsSpelled e → IsTrue (is_lawful r (state_after r s n e)) }
    ensures words { (r : Rules) (s : Diagnosis) (n : ℕ) (e : Entry) → IsTrue (is_lawful r s)
        → n < 2 ^ 46 → IsSpelled e → All (IsWordOf r.own) (words_at r s n e) }
{}

/// A word that solves a case names just the faults and defects that explain what it observed, in
/// the graph of its configuration less its broken links; one that says an upset just the upsets,
/// where no fault or defect does; and a case is said to be undiagnosable only where no root of that
/// graph explains it, or where the graph has no report of its event.
pub fn suspects_are_exact()
    ensures { (r : Rules) (s : Diagnosis) (n : ℕ) (e : Entry) → HaveGraphs r
        → IsTrue (is_lawful r s) → n < 2 ^ 46 → IsSpelled e
        → All (IsExact ByStories r) (words_at r s n e) }
{}

/// In a lawful state each open case has a pending report, so it has one after each step.
pub fn open_cases_wait()
    ensures { (r : Rules) (s : Diagnosis) → HaveGraphs r → IsTrue (is_lawful r s)
        → All (HasPending (graph_of r s) s.time) s.open_cases }
{}

/// A report of a class that the graph does not declare is taken as a tick at its moment.
pub fn undeclared_ticks()
    ensures { (r : Rules) (s : Diagnosis) (n : ℕ) (class path : List ℕ) (moment : ℕ)
        (payload : Pairs) → declares (graph_of r s) class ≡ false
        → turn r s n (Report class path moment payload) ≡ turn r s n (Tick moment) }
{}

/// The configuration changes at a reload that names a known one above it, and at no other entry.
pub fn configurations_step()
    ensures { (r : Rules) (s : State) (n : ℕ) (e : Entry) → diagnoser_conf (diagnoser_after r s n e)
        ≡ conf_after (known_of r.configurations) (diagnoser_conf s) e }
{}

/// Equal saves of lawful states are of equal states.
pub fn lawful_states_are_saved_once()
    ensures { (r : Rules) (s t : State) → IsTrue (diagnoser_holds r s)
        → IsTrue (diagnoser_holds r t) → length (diagnoser_saved s) < 2 ^ 64
        → diagnoser_saved s ≡ diagnoser_saved t → s ≡ t }
{}

/// A module that knows more configurations does alike what the other knows.
pub fn longer_lists_do_alike()
    ensures { DoAlike }
{}

/// The certainties of some suspects come to 100.
pub fn certainties_come_to_all()
    ensures { (rates : List ℕ) → 0 < length rates → sum (certainties rates) ≡ 100 }
{}

/// What a small module says at a few entries.
pub fn small_module_says()
    ensures { Examples }
{}
