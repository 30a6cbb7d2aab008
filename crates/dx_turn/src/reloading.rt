//! Reloads: each open case is decided, and another configuration comes into force.

ghost use Rattle.std.specs.Prelude.{◌≡◌, [], IfOk, OnOk, IsTrue};
ghost use Rattle.std.specs.List.{All, list_all};
ghost use Rattle.ev_graph.specs.Lawful.{has_engine_limits};
ghost use Rattle.dx_case.specs.Starts.{AreStartsOf};
ghost use Rattle.dx_serd.specs.Rates.{rate_of};
ghost use Rattle.dx_step.specs.Turns.{decide_each};
ghost use Rattle.dx_step.specs.Step.{is_above, reload};
ghost use Rattle.dx_turn.specs.Grounds.{IsGround, rules_on, state_on};
ghost use Rattle.dx_turn.specs.Turning.{IsTold, HasTurned};
ghost use Rattle.dx_turn.specs.Tracking.{now_of, opens_of, opens_in, tracked_cases, cases_before};
ghost use Rattle.dx_turn.specs.Tracking.{IsTrackedAt};
ghost use Rattle.dx_turn.specs.Joining.{IsWork};
ghost use Rattle.dx_turn.specs.Reloading.{IsFinished, fresh_rates, reloaded_to, HasEnded};

use crate::deciding::decide;
use crate::ground::Ground;
use crate::told::Told;
use crate::tracked::Tracked;
use crate::work::Work;
use dx_case::Case;
use dx_serd::Engine;
use ev_graph::{EngineSpec, Graph, NoMemory};
use fm_entry::Entry;
use std::alloc::Global;

/// A configuration that comes into force at the end of a turn: its number, and its engines, which
/// have noted nothing.
#[derive(Drop)]
pub struct Reloaded {
    pub conf: u32,
    pub engines: Vec<Engine>,
}

/// The case, finished; none where the turn has decided it.
fn finished(ground: &Ground<'_>, tracked: &Tracked) -> Result<Option<Case>, NoMemory>
    requires { IsTrackedAt ground.now.graph.now ground.now.time tracked.now }
    ensures { IfOk result (IsFinished ground.now.graph.now tracked.now) }
{
    if !tracked.is_open() {
        return Ok(None);
    }
    let mut case = tracked.current().copy(ground.alloc)?;
    case.finish(ground.graph);
    Ok(Some(case))
}

/// An open case is decided, whatever it waits for, and no engine notes anything.
fn decide_tracked(
    ground: &Ground<'_>,
    told: &mut Told,
    tracked: &mut Tracked,
) -> Result<(), NoMemory>
    requires ground { IsGround ground.now }
    requires told { IsTold ground.now told.old }
    requires current { IsTrackedAt ground.now.graph.now ground.now.time tracked.old }
    ensures kept { tracked.new.kept ≡ tracked.old.kept }
    ensures ok { OnOk result (HasTurned ground.now
        (decide_each (rules_on ground.now) (opens_of tracked.old)) told.old told.new) }
    ensures none { OnOk result (now_of tracked.new ≡ []) }
{
    match finished(ground, tracked)? {
        None => Ok(()),
        Some(case) => {
            tracked.decide();
            decide(ground, told, &case, false)
        }
    }
}

/// Each open case is decided, whatever it waits for, and no engine notes anything.
fn decide_all(
    ground: &Ground<'_>,
    told: &mut Told,
    cases: &mut Vec<Tracked>,
) -> Result<(), NoMemory>
    requires ground { IsGround ground.now }
    requires told { IsTold ground.now told.old }
    requires current { All (IsTrackedAt ground.now.graph.now ground.now.time) cases.old.items }
    ensures kept { cases_before cases.new.items ≡ cases_before cases.old.items }
    ensures ok { OnOk result (HasTurned ground.now
        (decide_each (rules_on ground.now) (opens_in cases.old.items)) told.old told.new) }
    ensures none { OnOk result (tracked_cases cases.new.items ≡ []) }
{
    for at in 0..cases.len() {
        decide_tracked(ground, told, &mut cases[at])?;
    }
    Ok(())
}

/// An engine of this kind that has noted nothing.
fn fresh_engine(alloc: Global, spec: &EngineSpec) -> Result<Engine, NoMemory>
    requires { IsTrue (has_engine_limits spec.now) }
    ensures { IfOk result (λ engine. engine ≡ rate_of spec.now.n spec.now.t []) }
{
    Engine::new(alloc, spec.n, spec.t)
}

/// Engines of these kinds that have noted nothing.
fn engines_like(alloc: Global, specs: &[EngineSpec]) -> Result<Vec<Engine>, NoMemory>
    requires { IsTrue (list_all has_engine_limits specs.now) }
    ensures { IfOk result (λ v. v.items ≡ fresh_rates specs.now) }
{
    let mut engines = Vec::with_capacity(alloc, specs.len())?;
    for spec in specs {
        engines.push(fresh_engine(alloc, spec)?)?;
    }
    Ok(engines)
}

/// The engines of a graph, which have noted nothing.
pub fn fresh_engines(alloc: Global, graph: &Graph) -> Result<Vec<Engine>, NoMemory>
    ensures { IfOk result (λ v. v.items ≡ fresh_rates graph.now.engines) }
{
    engines_like(alloc, graph.engines())
}

/// Whether the number is that of a known configuration above the one in force.
fn is_above(ground: &Ground<'_>, conf: u32) -> bool
    ensures { result ≡ is_above (rules_on ground.now) (state_on ground.now) conf }
{
    ground.conf < conf && (conf as usize) < ground.rules.known()
}

/// The configuration of a number comes into force, where it is a known one above the one in force.
fn reload_to(ground: &Ground<'_>, work: &mut Work, conf: u32) -> Result<Option<Reloaded>, NoMemory>
    requires ground { IsGround ground.now }
    requires work { IsWork ground.now work.old }
    ensures kept { cases_before work.new.cases.items ≡ cases_before work.old.cases.items }
    ensures ok { IfOk result
        (λ x. HasEnded ground.now (reloaded_to ground.now conf) x work.old work.new) }
    ensures starts { AreStartsOf ground.now.graph.now work.new.starts }
{
    if !is_above(ground, conf) {
        return Ok(None);
    }
    decide_all(ground, &mut work.told, &mut work.cases)?;
    let engines = fresh_engines(ground.alloc, ground.rules.graph(conf))?;
    // What was found in the graph that was in force says nothing of the next one.
    work.starts.forget();
    Ok(Some(Reloaded { conf, engines }))
}

/// The last part: where the entry is a reload that names a known configuration above the one in
/// force, each open case is decided, and that configuration comes into force.
pub fn reload(
    ground: &Ground<'_>,
    work: &mut Work,
    entry: &Entry,
) -> Result<Option<Reloaded>, NoMemory>
    requires ground { IsGround ground.now }
    requires work { IsWork ground.now work.old }
    ensures kept { cases_before work.new.cases.items ≡ cases_before work.old.cases.items }
    ensures ok { IfOk result
        (λ x. HasEnded ground.now (reload (rules_on ground.now) entry.now) x work.old work.new) }
    ensures starts { AreStartsOf ground.now.graph.now work.new.starts }
{
    match entry {
        Entry::Reload { conf, .. } => reload_to(ground, work, *conf),
        Entry::Report { .. }
        | Entry::Tick { .. }
        | Entry::Repaired { .. }
        | Entry::Replaced { .. }
        | Entry::Acquit { .. } => Ok(None),
    }
}
