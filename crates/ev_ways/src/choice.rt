//! The choice of the next node of a cycle.
ghost use Rattle.std.specs.Prelude.{◌≡◌, ◌⊎◌, ◌<◌, ◌≤◌, ◌^◌, ℕ, length, Some, None, slice_index};
ghost use Rattle.std.specs.Bool.{OnTrue, OnFalse};
ghost use Rattle.ev_ways.specs.Lists.{IsIn, row};
ghost use Rattle.ev_ways.specs.Ways.{Leads};
ghost use Rattle.ev_ways.specs.Search.{far, IsEffectOf, IsOneOf};
ghost use Rattle.ev_ways.specs.declared.step.Step.{Step};
ghost use Rattle.ev_ways.specs.Best.{IsAtMost, IsBestOf, IsBetter};

use crate::links::Links;
use crate::rows::row_of;
use crate::step::Step;

/// The distance of a node, where it has one.
fn distance_of(distance: &[Option<u32>], node: u32) -> Option<u32>
    ensures { result ≡ far distance.now node }
{
    match distance.get(node as usize) {
        Some(steps) => *steps,
        None => None,
    }
}

/// Whether the step goes to a lesser distance, or to an earlier node at the same one.
fn is_before(step: Step, other: Step) -> bool
    ensures before { OnTrue result (IsAtMost step other.distance other.node) }
    ensures behind { OnFalse result (IsAtMost other step.distance step.node) }
{
    step.distance < other.distance || (step.distance == other.distance && step.node < other.node)
}

/// The one of the two that is not behind the other.
fn better(best: Option<Step>, step: Step) -> Step
    ensures from { (best ≡ Some result) ⊎ (result ≡ step) }
    ensures best { (b : Step) → best ≡ Some b → IsAtMost result b.distance b.node }
    ensures step { IsAtMost result step.distance step.node }
{
    match best {
        Some(other) => { if is_before(step, other) { step } else { other } }
        None => step,
    }
}

/// The better of the best so far and a step to the node, if the node has a distance.
fn consider(best: Option<Step>, node: u32, distance: &[Option<u32>]) -> Option<Step>
    ensures { IsBetter (λ z. z ≡ node) (λ z. z ≡ node) distance.now best result }
{
    match distance_of(distance, node) {
        Some(steps) => Some(better(
            best,
            Step {
                distance: steps,
                node,
            },
        )),
        None => best,
    }
}

/// The better of the best so far and the steps to these nodes.
fn consider_all(best: Option<Step>, nodes: &[u32], distance: &[Option<u32>]) -> Option<Step>
    ensures { IsBetter (λ z. IsIn z nodes.now) (λ z. IsIn z nodes.now) distance.now best result }
{
    let mut best_now = best;
    for node in nodes {
        best_now = consider(best_now, *node, distance);
    }
    best_now
}

/// The best step from the node: to the least distance, and of these to the first node.
pub(crate) fn best_step(node: u32, links: &Links<'_>, distance: &[Option<u32>]) -> Option<Step>
    ensures { IsBestOf (Leads links.now.causes.now links.now.effects.now node) distance.now result }
{
    let mut best = None;
    let arrows = row_of(links.uses, node);
    for arrow in arrows {
        best = consider_all(best, row_of(links.effects, *arrow), distance);
    }
    best
}
