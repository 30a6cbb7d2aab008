//! Reports that join open cases or open one.

ghost use Rattle.std.specs.Prelude.{◌≡◌, ◌∷◌, [], Some, None, true, false, IfOk, OnOk, IsTrue};
ghost use Rattle.std.specs.List.{All, list_all};
ghost use Rattle.ev_graph.specs.Kinds.{is_report_node};
ghost use Rattle.fm_core.specs.Meaning.{OpenCase};
ghost use Rattle.dx_explain.specs.Cases.{case_joined};
ghost use Rattle.dx_case.specs.Cases.{open_of, time_of, IsCaseOf};
ghost use Rattle.dx_case.specs.Starts.{AreStartsOf};
ghost use Rattle.dx_step.specs.Reports.{join_each, trips};
ghost use Rattle.dx_turn.specs.Grounds.{IsGround, rules_on};
ghost use Rattle.dx_turn.specs.Tracking.{opens_of, cases_before, IsTrackedAt};
ghost use Rattle.dx_turn.specs.Joining.{IsFoundPlace, IsFirstPlace, takes_any, IsWork};
ghost use Rattle.dx_turn.specs.Joining.{joined_by, HasGone};

use crate::ground::Ground;
use crate::settling::settle;
use crate::tracked::Tracked;
use crate::work::Work;
use dx_case::{Case, FirstReport};
use ev_graph::{Link, NoMemory};
use fm_bytes::Items;
use std::mem;

/// A report of a node by an entry: the links that it breaks, and whether upsets note then.
#[derive(Drop)]
pub struct Incoming<'a> {
    pub node: u32,
    pub entry: u64,
    pub links: &'a [Link],
    pub notes: bool,
}

/// The first open case that a report of the node joins.
fn place_of(ground: &Ground<'_>, cases: &[Tracked], node: u32) -> Option<usize>
    requires { All (IsTrackedAt ground.now.graph.now ground.now.time) cases.now }
    ensures { IsFoundPlace ground.now node cases.now result }
{
    let _ground = ground;
    for at in 0..cases.len() {
        if cases[at].takes(node) {
            return Some(at);
        }
    }
    None
}

/// The case with the report.
fn joined(ground: &Ground<'_>, tracked: &Tracked, incoming: &Incoming<'_>) -> Result<Case, NoMemory>
    requires current { IsTrackedAt ground.now.graph.now ground.now.time tracked.now }
    requires takes { takes_any ground.now incoming.now.node (opens_of tracked.now) ≡ true }
    ensures case { IfOk result (λ c. IsCaseOf ground.now.graph.now c) }
    ensures time { IfOk result (λ c. time_of c ≡ Some ground.now.time) }
    ensures made { IfOk result (λ c. (o : OpenCase) → opens_of tracked.now ≡ o ∷ []
        → open_of c ≡ case_joined incoming.now.node incoming.now.entry incoming.now.links.now o) }
{
    let mut case = tracked.current().copy(ground.alloc)?;
    case.expire(ground.graph, ground.time);
    case.join_with(ground.graph, incoming.node, incoming.entry, incoming.links)?;
    Ok(case)
}

/// The report joins the case at a place, which is decided if it waits for nothing then.
fn join_at(
    ground: &Ground<'_>,
    work: &mut Work,
    incoming: &Incoming<'_>,
    at: usize,
) -> Result<(), NoMemory>
    requires ground { IsGround ground.now }
    requires work { IsWork ground.now work.old }
    requires place { IsFirstPlace ground.now incoming.now.node work.old.cases.items at }
    ensures kept { cases_before work.new.cases.items ≡ cases_before work.old.cases.items }
    ensures ok { OnOk result
        (HasGone ground.now (joined_by ground.now incoming.now) work.old work.new) }
    ensures starts { AreStartsOf ground.now.graph.now work.new.starts }
{
    let case = joined(ground, &work.cases[at], incoming)?;
    settle(
        ground,
        &mut work.told,
        &mut work.cases[at],
        case,
        incoming.notes,
    )
}

/// The report opens a case, where there is a number for it, and it is decided if it waits for
/// nothing.
fn open_new(ground: &Ground<'_>, work: &mut Work, incoming: &Incoming<'_>) -> Result<(), NoMemory>
    requires ground { IsGround ground.now }
    requires work { IsWork ground.now work.old }
    requires report { is_report_node ground.now.graph.now.nodes incoming.now.node ≡ true }
    requires place { IsFoundPlace ground.now incoming.now.node work.old.cases.items None }
    ensures kept { cases_before work.new.cases.items ≡ cases_before work.old.cases.items }
    ensures ok { OnOk result
        (HasGone ground.now (joined_by ground.now incoming.now) work.old work.new) }
    ensures starts { AreStartsOf ground.now.graph.now work.new.starts }
{
    if work.next >= 1 << 63 {
        return Ok(());
    }
    let report = FirstReport {
        number: work.next,
        node: incoming.node,
        moment: ground.time,
        entry: incoming.entry,
        broken: incoming.links,
    };
    let case = Case::start_with(ground.alloc, ground.graph, &mut work.starts, &report)?;
    let mut tracked = Tracked::blank();
    settle(ground, &mut work.told, &mut tracked, case, incoming.notes)?;
    work.cases.push(tracked)?;
    work.next += 1;
    Ok(())
}

/// A report joins the first open case that has it or waits for it, or opens one.
pub fn join(ground: &Ground<'_>, work: &mut Work, incoming: &Incoming<'_>) -> Result<(), NoMemory>
    requires ground { IsGround ground.now }
    requires work { IsWork ground.now work.old }
    requires report { is_report_node ground.now.graph.now.nodes incoming.now.node ≡ true }
    ensures kept { cases_before work.new.cases.items ≡ cases_before work.old.cases.items }
    ensures ok { OnOk result
        (HasGone ground.now (joined_by ground.now incoming.now) work.old work.new) }
    ensures starts { AreStartsOf ground.now.graph.now work.new.starts }
{
    match place_of(ground, &work.cases, incoming.node) {
        Some(at) => join_at(ground, work, incoming, at),
        None => open_new(ground, work, incoming),
    }
}

/// An engine's report acts.
fn join_trip(ground: &Ground<'_>, work: &mut Work, entry: u64, node: u32) -> Result<(), NoMemory>
    requires ground { IsGround ground.now }
    requires work { IsWork ground.now work.old }
    requires report { is_report_node ground.now.graph.now.nodes node ≡ true }
    ensures kept { cases_before work.new.cases.items ≡ cases_before work.old.cases.items }
    ensures ok { OnOk result
        (HasGone ground.now (join_each (rules_on ground.now) entry (node ∷ [])) work.old work.new) }
    ensures starts { AreStartsOf ground.now.graph.now work.new.starts }
{
    let links = ground
        .rules
        .broken_by_none(ground.alloc, ground.conf, node)?;
    let incoming = Incoming {
        node,
        entry,
        links: &links,
        notes: false,
    };
    join(ground, work, &incoming)
}

/// The reports of engines act.
fn join_trips(
    ground: &Ground<'_>,
    work: &mut Work,
    entry: u64,
    nodes: &[u32],
) -> Result<(), NoMemory>
    requires ground { IsGround ground.now }
    requires work { IsWork ground.now work.old }
    requires reports { IsTrue (list_all (is_report_node ground.now.graph.now.nodes) nodes.now) }
    ensures kept { cases_before work.new.cases.items ≡ cases_before work.old.cases.items }
    ensures ok { OnOk result
        (HasGone ground.now (join_each (rules_on ground.now) entry nodes.now) work.old work.new) }
    ensures starts { AreStartsOf ground.now.graph.now work.new.starts }
{
    for node in nodes {
        join_trip(ground, work, entry, *node)?;
    }
    Ok(())
}

/// What the engines report that fired acts, in the order in which they fired.
pub fn trips(ground: &Ground<'_>, work: &mut Work, entry: u64) -> Result<(), NoMemory>
    requires ground { IsGround ground.now }
    requires work { IsWork ground.now work.old }
    ensures kept { cases_before work.new.cases.items ≡ cases_before work.old.cases.items }
    ensures ok { OnOk result
        (HasGone ground.now (trips (rules_on ground.now) entry) work.old work.new) }
    ensures starts { AreStartsOf ground.now.graph.now work.new.starts }
{
    let none = Items::new(Vec::new(ground.alloc));
    let fired = mem::replace(&mut work.told.fired, none);
    join_trips(ground, work, entry, fired.as_slice())
}
