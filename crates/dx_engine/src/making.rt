//! Standing states that are made.

ghost use Rattle.std.specs.Prelude.{◌≡◌, ◌++◌, map, IfOk, IsTrue};
ghost use Rattle.std.specs.List.{AllByRecursion};
ghost use Rattle.dx_case.specs.Cases.{open_of};
ghost use Rattle.dx_meaning.specs.Fresh.{first_of, fresh_of};
ghost use Rattle.dx_rules.specs.Rulebooks.{rules_in};
ghost use Rattle.dx_state.specs.Configured.{found_at};
ghost use Rattle.dx_step.specs.Lawful.{are_rules, is_there};
ghost use Rattle.dx_turn.specs.Standing.{still_of};
ghost use Rattle.dx_engine.specs.Standing.{kept_parts, state_of, IsStanding};

use crate::standing::StandingState;
use dx_case::{Case, Starts};
use dx_rules::{Configs, Rulebook};
use dx_turn::{Tracked, fresh_engines};
use ev_graph::NoMemory;
use std::alloc::Global;

/// The number of the configuration that a module begins in.
fn first_of(rules: &Rulebook) -> u32
    ensures { result ≡ first_of (rules_in rules.now).configurations }
{
    match &rules.configs {
        Configs::Single { number, .. } => *number,
        Configs::Listed(_) => 0,
    }
}

impl StandingState {
    /// The state that a module begins in: nothing has happened yet.
    pub fn fresh(alloc: Global, rules: &Rulebook) -> Result<StandingState, NoMemory>
        requires rules { IsTrue (are_rules (rules_in rules.now)) }
        requires there { IsTrue (is_there (found_at (rules_in rules.now).configurations
            (first_of (rules_in rules.now).configurations))) }
        ensures state { IfOk result (λ s. state_of s ≡ fresh_of (rules_in rules.now)) }
        ensures standing { IfOk result (λ s. IsStanding (rules_in rules.now) s) }
    {
        let conf = first_of(rules);
        let engines = fresh_engines(alloc, rules.graph(conf))?;
        Ok(StandingState {
            conf,
            time: 0,
            next: 0,
            cases: Vec::new(alloc),
            starts: Starts::new(alloc),
            solved: Vec::new(alloc),
            engines,
        })
    }
}
