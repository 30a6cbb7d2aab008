//! Diagnosis modules.

ghost use Rattle.std.specs.Prelude.{◌≡◌, map, IfOk, IsTrue};
ghost use Rattle.dx_meaning.specs.Fresh.{first_of, fresh_of};
ghost use Rattle.dx_rules.specs.Rulebooks.{rules_in};
ghost use Rattle.dx_engine.specs.Rows.{open_row};
ghost use Rattle.dx_engine.specs.Standing.{state_of};
ghost use Rattle.dx_state.specs.Configured.{configuration_at, found_at};
ghost use Rattle.dx_step.specs.Lawful.{are_rules, is_there};
ghost use Rattle.dx_engine.specs.Diagnosers.{guarded_rules, single_rules};

use crate::loading::load_standing;
use crate::rows::OpenRow;
use crate::saving::save_standing;
use crate::standing::StandingState;
use dx_rules::{Configs, Guards, Rulebook, Ruled};
use ev_graph::{Graph, NoMemory};
use fm_core::{LoadFault, Module};
use fm_entry::{Entry, ListEvent};
use fm_name::Class;
use std::alloc::Global;
use std::marker::Model;

/// A diagnosis module: its rules, and its state.
#[derive(Drop)]
pub struct Diagnoser {
    rules: Rulebook,
    standing: StandingState,
}

impl Model for Diagnoser {
    ghost use Rattle.dx_rules.specs.Rulebooks.{rules_in};
    ghost use Rattle.dx_engine.specs.Standing.{IsStanding};
    ghost use Rattle.dx_engine.specs.Diagnosers.{DiagnoserOf};
    ghost use Rattle.dx_rules.specs.contracts.rulebook.Rulebook as rulebook;
    ghost use Rattle.dx_engine.specs.contracts.standing.StandingState as standing_row;
    ghost use Rattle.std.specs.Coded.{codes};

    ghost Value = { DiagnoserOf };

    ghost coded = { Prim.hlevel (codes, rulebook.the_row.coded, standing_row.the_row.coded) };

    ghost view = { λ d. record { rules = d.rules; standing = d.standing } };

    ghost invariant = { λ d. IsStanding (rules_in d.rules) d.standing };
}

impl Diagnoser {
    /// The module with these rules, as [`can_begin`](crate::can_begin) asks, to which nothing has
    /// happened.
    pub fn with_rules(alloc: Global, rules: Rulebook) -> Result<Diagnoser, NoMemory>
        requires rules { IsTrue (are_rules (rules_in rules)) }
        requires there { IsTrue (is_there (found_at (rules_in rules).configurations
            (first_of (rules_in rules).configurations))) }
        ensures rules { IfOk result (λ d. d.rules ≡ rules) }
        ensures state { IfOk result (λ d. state_of d.standing ≡ fresh_of (rules_in rules)) }
    {
        let standing = StandingState::fresh(alloc, &rules)?;
        Ok(Diagnoser { rules, standing })
    }

    /// The module of a number with a graph as its one configuration, of some number, to which
    /// nothing has happened.
    pub fn new(alloc: Global, own: u32, conf: u32, graph: Graph) -> Result<Diagnoser, NoMemory>
        requires { IsTrue (are_rules (single_rules own conf graph)) }
        ensures rules { IfOk result (λ d. rules_in d.rules ≡ single_rules own conf graph) }
        ensures state { IfOk result
            (λ d. state_of d.standing ≡ fresh_of (single_rules own conf graph)) }
    {
        let ruled = Ruled::new(alloc, graph, None)?;
        let configs = Configs::Single {
            number: conf,
            ruled,
        };
        Diagnoser::with_rules(alloc, Rulebook { own, configs })
    }

    /// The same, with guards of the links that payloads can break.
    pub fn with_guards(
        alloc: Global,
        own: u32,
        conf: u32,
        graph: Graph,
        guards: Guards,
    ) -> Result<Diagnoser, NoMemory>
        requires { IsTrue (are_rules (guarded_rules own conf graph guards)) }
        ensures rules { IfOk result (λ d. rules_in d.rules ≡ guarded_rules own conf graph guards) }
        ensures state { IfOk result
            (λ d. state_of d.standing ≡ fresh_of (guarded_rules own conf graph guards)) }
    {
        let ruled = Ruled::new(alloc, graph, Some(guards))?;
        let configs = Configs::Single {
            number: conf,
            ruled,
        };
        Diagnoser::with_rules(alloc, Rulebook { own, configs })
    }

    /// The graph of the configuration that it works under.
    pub fn graph(&self) -> &Graph
        ensures { result.now ≡ (configuration_at (rules_in self.now.rules)
            (state_of self.now.standing).conf).graph }
    {
        self.rules.graph(self.standing.conf())
    }

    /// The open cases, in order of number.
    pub fn open_rows(&self, alloc: Global) -> Result<Vec<OpenRow>, NoMemory>
        ensures { IfOk result (λ rows.
            rows.items ≡ map (open_row self.now.rules.own)
            (state_of self.now.standing).open_cases) }
    {
        self.standing.open_rows(alloc, self.rules.own)
    }

    /// The last word of each solved case, in order of number.
    pub fn solved(&self) -> &[ListEvent]
        ensures { result.now ≡ (state_of self.now.standing).solved }
    {
        self.standing.solved()
    }
}

impl Module for Diagnoser {
    ghost use Rattle.fm_core.specs.Meaning.{Diagnosing};
    ghost use Rattle.dx_meaning.specs.DiagnoserMeaning.{diagnoser_meaning};
    ghost use Rattle.dx_rules.specs.Rulebooks.{rules_in};
    ghost use Rattle.dx_engine.specs.Standing.{state_of};

    ghost meaning = { λ d. diagnoser_meaning (rules_in d.rules) };

    ghost state = { λ d. Diagnosing (state_of d.standing) };

    fn subscribes(&self, class: &Class) -> bool {
        self.rules.declares(self.standing.conf(), class)
    }

    fn conf(&self) -> Option<u32> {
        Some(self.standing.conf())
    }

    fn step(
        &mut self,
        alloc: Global,
        number: u64,
        entry: &Entry,
    ) -> Result<Vec<ListEvent>, NoMemory> {
        self.standing.turn(alloc, &self.rules, number, entry)
    }

    fn save(&self, out: &mut Vec<u8>) -> Result<(), NoMemory> {
        save_standing(&self.rules, &self.standing, out)
    }

    fn load(&mut self, alloc: Global, bytes: &[u8]) -> Result<(), LoadFault> {
        self.standing = load_standing(alloc, &self.rules, bytes)?;
        Ok(())
    }
}
