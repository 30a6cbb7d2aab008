//! The breadth-first search, level by level.
ghost use Rattle.std.specs.Prelude.{◌≡◌, ◌<◌, ◌≤◌, ◌+◌, ◌^◌, ℕ, length, IfOk, OnOk};
ghost use Rattle.std.specs.Prelude.{slice_index_or, [], replicate, false};
ghost use Rattle.ev_ways.specs.Lists.{IsIn, AllBelow, row};
ghost use Rattle.ev_ways.specs.Ways.{Leads};
ghost use Rattle.ev_ways.specs.Search.{AreDistances, GrownBy, IsAfter, IsEffectOf, IsFront};
ghost use Rattle.ev_ways.specs.Search.{IsOneOf};
ghost use Rattle.ev_ways.specs.Search.{IsTaken, Searched, reached, noted};

use crate::links::Links;
use crate::rows::row_of;
use fm_bytes::NoMemory;
use std::alloc::Global;

/// Gives the node the distance `value` and puts it at the end of the front, if it has no distance.
fn reach(
    node: u32,
    value: u32,
    distance: &mut [Option<u32>],
    front: &mut Vec<u32>,
) -> Result<(), NoMemory>
    requires inside { node < length distance.old }
    ensures distance { OnOk result (distance.new ≡ reached distance.old node value) }
    ensures front { OnOk result (front.new.items ≡ noted distance.old front.old.items node) }
{
    if distance[node as usize].is_none() {
        front.push(node)?;
        distance[node as usize] = Some(value);
    }
    Ok(())
}

/// Reaches each of the nodes.
fn give(
    nodes: &[u32],
    value: u32,
    distance: &mut [Option<u32>],
    front: &mut Vec<u32>,
) -> Result<(), NoMemory>
    requires inside { AllBelow (length distance.old) nodes.now }
    requires front { IsFront value distance.old front.old.items }
    ensures front { OnOk result (IsFront value distance.new front.new.items) }
    ensures grown { OnOk result (GrownBy value (λ y. IsIn y nodes.now) distance.old distance.new) }
{
    for node in nodes {
        reach(*node, value, distance, front)?;
    }
    Ok(())
}

/// Gives the effects of an arrow the distance `value`, if the arrow was not taken before.
fn take_arrow(
    arrow: u32,
    links: &Links<'_>,
    value: u32,
    distance: &mut [Option<u32>],
    taken: &mut [bool],
    front: &mut Vec<u32>,
) -> Result<(), NoMemory>
    requires nodes { length distance.old ≡ length links.now.uses.now }
    requires arrow { arrow < length links.now.effects.now }
    requires arrows { length taken.old ≡ length links.now.effects.now }
    requires front { IsFront value distance.old front.old.items }
    requires taken { IsTaken links.now.effects.now value distance.old taken.old }
    ensures front { OnOk result (IsFront value distance.new front.new.items) }
    ensures taken { OnOk result (IsTaken links.now.effects.now value distance.new taken.new) }
    ensures grown { OnOk result
        (GrownBy value (λ y. IsIn y (row links.now.effects.now arrow)) distance.old
        distance.new) }
{
    if taken[arrow as usize] {
        return Ok(());
    }
    give(row_of(links.effects, arrow), value, distance, front)?;
    taken[arrow as usize] = true;
    Ok(())
}

/// Gives the nodes to which the node `node` leads the distance `value`, where they have none.
fn leave(
    node: u32,
    links: &Links<'_>,
    value: u32,
    distance: &mut [Option<u32>],
    taken: &mut [bool],
    front: &mut Vec<u32>,
) -> Result<(), NoMemory>
    requires nodes { length distance.old ≡ length links.now.uses.now }
    requires arrows { length taken.old ≡ length links.now.effects.now }
    requires front { IsFront value distance.old front.old.items }
    requires taken { IsTaken links.now.effects.now value distance.old taken.old }
    ensures front { OnOk result (IsFront value distance.new front.new.items) }
    ensures taken { OnOk result (IsTaken links.now.effects.now value distance.new taken.new) }
    ensures grown { OnOk result
        (GrownBy value (Leads links.now.causes.now links.now.effects.now node)
        distance.old distance.new) }
{
    let arrows = row_of(links.uses, node);
    for arrow in arrows {
        take_arrow(*arrow, links, value, distance, taken, front)?;
    }
    Ok(())
}

/// Gives the nodes to which one of the nodes leads the distance `value`, where they have none.
fn spread(
    nodes: &[u32],
    links: &Links<'_>,
    value: u32,
    distance: &mut [Option<u32>],
    taken: &mut [bool],
    front: &mut Vec<u32>,
) -> Result<(), NoMemory>
    requires nodes { length distance.old ≡ length links.now.uses.now }
    requires arrows { length taken.old ≡ length links.now.effects.now }
    requires front { IsFront value distance.old front.old.items }
    requires taken { IsTaken links.now.effects.now value distance.old taken.old }
    ensures front { OnOk result (IsFront value distance.new front.new.items) }
    ensures taken { OnOk result (IsTaken links.now.effects.now value distance.new taken.new) }
    ensures grown { OnOk result (GrownBy value
        (IsAfter links.now.causes.now links.now.effects.now nodes.now (length nodes.now))
        distance.old distance.new) }
{
    for node in nodes {
        leave(*node, links, value, distance, taken, front)?;
    }
    Ok(())
}

/// Goes from level to level, from the front at the distance 0, until a level has no node.
fn search(
    alloc: Global,
    starts: &[u32],
    links: &Links<'_>,
    distance: &mut [Option<u32>],
    taken: &mut [bool],
    first: Vec<u32>,
) -> Result<(), NoMemory>
    requires nodes { length distance.old ≡ length links.now.uses.now }
    requires arrows { length taken.old ≡ length links.now.effects.now }
    requires searched { let Found =
        Searched links.now.causes.now links.now.effects.now starts.now in
        Found 0 distance.old first.items taken.old }
    ensures found { OnOk result (AreDistances links.now.causes.now links.now.effects.now starts.now
        distance.new) }
{
    let mut front = first;
    let count = links.uses.len() as u32;
    for level in 0..count {
        if front.is_empty() {
            return Ok(());
        }
        let mut next = Vec::new(alloc);
        spread(
            front.as_slice(),
            links,
            level + 1,
            distance,
            taken,
            &mut next,
        )?;
        front = next;
    }
    Ok(())
}

/// For each node, the length of a shortest way from one of the starts; none where no way comes
/// there. It takes the time of the nodes and the members of arrows.
pub(crate) fn distances_along(
    alloc: Global,
    starts: &[u32],
    links: &Links<'_>,
) -> Result<Vec<Option<u32>>, NoMemory>
    requires starts { AllBelow (length links.now.uses.now) starts.now }
    ensures nodes { IfOk result (λ distance. length distance.items ≡ length links.now.uses.now) }
    ensures found { let Found =
        AreDistances links.now.causes.now links.now.effects.now starts.now in
        IfOk result (λ distance. Found distance.items) }
{
    let mut distance = vec![in alloc; None; links.uses.len()]?;
    let mut taken = vec![in alloc; false; links.effects.len()]?;
    fill(
        alloc,
        starts,
        links,
        distance.as_mut_slice(),
        taken.as_mut_slice(),
    )?;
    Ok(distance)
}

/// Gives each node its distance, where none has one.
fn fill(
    alloc: Global,
    starts: &[u32],
    links: &Links<'_>,
    distance: &mut [Option<u32>],
    taken: &mut [bool],
) -> Result<(), NoMemory>
    requires starts { AllBelow (length distance.old) starts.now }
    requires nodes { length distance.old ≡ length links.now.uses.now }
    requires arrows { length taken.old ≡ length links.now.effects.now }
    requires unreached { distance.old ≡ replicate (length distance.old) None }
    requires untaken { taken.old ≡ replicate (length taken.old) false }
    ensures found { OnOk result (AreDistances links.now.causes.now links.now.effects.now starts.now
        distance.new) }
{
    let mut front = Vec::new(alloc);
    give(starts, 0, distance, &mut front)?;
    search(alloc, starts, links, distance, taken, front)
}
