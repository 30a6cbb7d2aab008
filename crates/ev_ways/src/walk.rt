//! The walk along a shortest cycle, step by step.
ghost use Rattle.std.specs.Prelude.{◌≡◌, ◌<◌, ◌+◌, ◌^◌, ℕ, length, IfOk, Some};
ghost use Rattle.ev_ways.specs.Ways.{Leads};
ghost use Rattle.ev_ways.specs.Search.{far};
ghost use Rattle.ev_ways.specs.Best.{AreTowards, IsBest};
ghost use Rattle.ev_ways.specs.Cycle.{IsCycleFrom};

use crate::choice::best_step;
use crate::links::Links;
use crate::step::Step;
use fm_bytes::NoMemory;
use std::alloc::Global;

/// The members of a shortest cycle from the node, whose first step is the best one.
pub(crate) fn walk(
    alloc: Global,
    node: u32,
    first: Step,
    links: &Links<'_>,
    distance: &[Option<u32>],
) -> Result<Vec<u32>, NoMemory>
    requires towards { AreTowards links.now.causes.now links.now.effects.now node distance.now }
    requires first { IsBest (Leads links.now.causes.now links.now.effects.now node) distance.now
        first }
    ensures { let Found = IsCycleFrom links.now.causes.now links.now.effects.now node in
        IfOk result (λ members. Found members.items) }
{
    let mut members = vec![in alloc; node]?;
    let mut step = first;
    while step.distance > 0 {
        members.push(step.node)?;
        step = onward(step, node, links, distance);
    }
    Ok(members)
}

/// The best step from the node of a step that has not come to the goal.
fn onward(step: Step, goal: u32, links: &Links<'_>, distance: &[Option<u32>]) -> Step
    requires towards { AreTowards links.now.causes.now links.now.effects.now goal distance.now }
    requires on { far distance.now step.node ≡ Some step.distance }
    requires away { 0 < step.distance }
    ensures best { IsBest (Leads links.now.causes.now links.now.effects.now step.node) distance.now
        result }
    ensures closer { result.distance + 1 ≡ step.distance }
{
    let best = best_step(step.node, links, distance);
    best.unwrap_or(step)
}
