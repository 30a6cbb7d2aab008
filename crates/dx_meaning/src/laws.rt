// Laws of meanings of diagnosis modules, each as the contract of a function without a body.
ghost use Rattle.std.specs.Prelude.{ℕ, ◌++◌, List, IsTrue};
ghost use Rattle.fm_core.specs.Meaning.{Diagnosing, holds_of};
ghost use Rattle.fm_core.specs.Configurations.{KnowsMore};
ghost use Rattle.dx_state.specs.Configured.{Configuration, Rules, found_at};
ghost use Rattle.dx_step.specs.Lawful.{are_rules, is_there};
ghost use Rattle.dx_step.specs.Longer.{rules_of};
ghost use Rattle.dx_meaning.specs.DiagnoserMeaning.{diagnoser_meaning};
ghost use Rattle.dx_meaning.specs.Fresh.{first_of, fresh_of};

/// The state that a module begins in is lawful, where it is made with rules and has a first
/// configuration.
pub fn fresh_states_are_lawful()
    ensures { (r : Rules) → IsTrue (are_rules r)
        → IsTrue (is_there (found_at r.configurations (first_of r.configurations)))
        → IsTrue (holds_of (diagnoser_meaning r) (Diagnosing (fresh_of r))) }
{}

/// A module that is made with more configurations behind those of another knows more than it.
pub fn longer_lists_know_more()
    ensures { (own : ℕ) (xs more : List Configuration) → KnowsMore
        (diagnoser_meaning (rules_of own xs)) (diagnoser_meaning (rules_of own (xs ++ more))) }
{}
