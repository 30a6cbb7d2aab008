// Modules of the texts of rule files and of a topology.
ghost use Rattle.std.specs.Prelude.{◌≡◌, IfOk, IsTrue};
ghost use Rattle.dx_meaning.specs.Fresh.{fresh_of};
ghost use Rattle.dx_rules.specs.Rulebooks.{configurations_of, ruled_of, rules_in};
ghost use Rattle.dx_engine.specs.Standing.{state_of};
ghost use Rattle.dx_state.specs.Configured.{Single};
ghost use Rattle.dx_step.specs.Lawful.{are_rules};
ghost use Rattle.test_text_modules.specs.Alike.{AreTwins, rules_with};
ghost use Rattle.dx_engine.specs.Diagnosers.{diagnosers};

use crate::setup::Setup;
use dx_engine::{Diagnoser, NoMemory, can_begin};
use dx_rules::{Configs, Rulebook, Ruled};
use ev_guards::Guards;
use ev_inst::{instantiate, make_guards};
use fm_sources::read_rules;
use fm_topo::read_topo;
use std::alloc::Global;
use test_words::ScriptFault;

/// The guards, none where payloads can break no link.
fn some_guards(guards: Guards) -> Option<Guards> {
    if guards.is_empty() {
        return None;
    }
    Some(guards)
}

/// What a rule file comes to over a topology.
fn ruled(alloc: Global, text: &str, parts: &str) -> Result<Ruled, ScriptFault> {
    let Ok(topo) = read_topo(alloc, parts.as_bytes()) else {
        return Err(ScriptFault::NoSpelling);
    };
    let Ok(checked) = read_rules(alloc, text.as_bytes()) else {
        return Err(ScriptFault::NoSpelling);
    };
    let Ok(made) = instantiate(alloc, &checked, &topo) else {
        return Err(ScriptFault::NoSpelling);
    };
    let guards = make_guards(alloc, &checked, topo, &made.graph)?;
    Ok(Ruled::new(alloc, made.graph, some_guards(guards))?)
}

/// What each rule file of a setup comes to.
fn ruled_each(alloc: Global, setup: &Setup) -> Result<Vec<Ruled>, ScriptFault> {
    let mut list = Vec::new(alloc);
    for text in setup.rules.as_slice() {
        list.push(ruled(alloc, text.as_str(), setup.topology.as_str())?)?;
    }
    Ok(list)
}

/// The configurations of the module of a setup.
pub(crate) fn configs_of(alloc: Global, setup: &Setup) -> Result<Configs, ScriptFault> {
    match setup.number {
        Some(number) => {
            let ruled = ruled(alloc, setup.first_rules()?, setup.topology.as_str())?;
            Ok(Configs::Single { number, ruled })
        }
        None => {
            let list = ruled_each(alloc, setup)?;
            Ok(Configs::Listed(list))
        }
    }
}

/// The module of a number with one configuration, to which nothing has happened.
fn single_module(alloc: Global, own: u32, number: u32, ruled: Ruled) -> Result<Diagnoser, NoMemory>
    requires { IsTrue (are_rules (rules_with own (Single number (ruled_of ruled)))) }
    ensures rules { IfOk result
        (λ d. rules_in d.rules ≡ rules_with own (Single number (ruled_of ruled))) }
    ensures state { IfOk result
        (λ d. state_of d.standing ≡ fresh_of (rules_with own (Single number (ruled_of ruled)))) }
{
    let Ruled { graph, guards, .. } = ruled;
    match guards {
        Some(guards) => Diagnoser::with_guards(alloc, own, number, graph, guards),
        None => Diagnoser::new(alloc, own, number, graph),
    }
}

/// The module of a number with these configurations, to which nothing has happened.
pub(crate) fn module_of(alloc: Global, own: u32, configs: Configs) -> Result<Diagnoser, ScriptFault>
    ensures rules { IfOk result
        (λ d. rules_in d.rules ≡ rules_with own (configurations_of configs)) }
    ensures state { IfOk result
        (λ d. state_of d.standing ≡ fresh_of (rules_with own (configurations_of configs))) }
{
    let rules = Rulebook { own, configs };
    if !can_begin(&rules) {
        return Err(ScriptFault::NoSpelling);
    }
    match rules.configs {
        Configs::Single { number, ruled } => Ok(single_module(alloc, own, number, ruled)?),
        Configs::Listed(list) => {
            let configs = Configs::Listed(list);
            Ok(Diagnoser::with_rules(alloc, Rulebook { own, configs })?)
        }
    }
}

/// Two modules of a number, made alike, with the rules of one text over the parts of another as
/// their configuration of a number, to which nothing has happened.
pub fn twins(
    alloc: Global,
    own: u32,
    number: u32,
    text: &str,
    parts: &str,
) -> Result<(Diagnoser, Diagnoser), ScriptFault>
    ensures { IfOk result (λ (first, second). AreTwins diagnosers own first second) }
{
    let ruled = ruled(alloc, text, parts)?;
    let copied = ruled.copy(alloc)?;
    let first = module_of(alloc, own, Configs::Single { number, ruled })?;
    let second = module_of(
        alloc,
        own,
        Configs::Single {
            number,
            ruled: copied,
        },
    )?;
    Ok((first, second))
}
