//! Engines that note the time.

ghost use Rattle.std.specs.Prelude.{◌≡◌, ◌++◌, ◌∷◌, [], Some, None, IfOk, OnOk, slice_get};
ghost use Rattle.std.specs.Prelude.{if◌then◌else◌};
ghost use Rattle.dx_step.specs.Said.{nodes_of};
ghost use Rattle.dx_step.specs.Turns.{note_upset, note_all};
ghost use Rattle.dx_said.specs.Making.{node_at};
ghost use Rattle.dx_turn.specs.Grounds.{IsGround};
ghost use Rattle.dx_turn.specs.Turning.{rates_by, noted_in, IsTold, HasTurned};

use crate::ground::Ground;
use crate::told::Told;
use dx_serd::Engine;
use ev_graph::{EngineSpec, NoMemory, NodeKind};
use fm_bytes::Items;
use std::alloc::Global;

/// Equal engines.
fn copies_of(alloc: Global, engines: &[Engine]) -> Result<Vec<Engine>, NoMemory>
    ensures { IfOk result (λ v. v.items ≡ engines.now) }
{
    let mut copies = Vec::with_capacity(alloc, engines.len())?;
    for engine in engines {
        copies.push(engine.copy(alloc)?)?;
    }
    Ok(copies)
}

/// Takes the engines out, to put them back changed.
fn take_engines(ground: &Ground<'_>, told: &mut Told) -> Result<Vec<Engine>, NoMemory>
    ensures engines { IfOk result (λ v. v.items ≡ rates_by ground.now told.old) }
    ensures told { told.new ≡ record told.old { engines = None } }
{
    match told.engines.take() {
        Some(engines) => Ok(engines.into_vec()),
        None => copies_of(ground.alloc, ground.engines),
    }
}

/// Appends a node, or does nothing.
fn push_if(nodes: &mut Items<u32>, fired: bool, node: u32) -> Result<(), NoMemory>
    ensures { OnOk result (nodes.new ≡ (if fired then nodes.old ++ node ∷ [] else nodes.old)) }
{
    if fired { nodes.push(node) } else { Ok(()) }
}

/// The engine at a place, which is of this kind, notes the time, and fires or not.
fn note_engine(
    ground: &Ground<'_>,
    told: &mut Told,
    at: usize,
    spec: &EngineSpec,
) -> Result<(), NoMemory>
    requires spec { slice_get ground.now.graph.now.engines at ≡ Some spec.now }
    requires told { IsTold ground.now told.old }
    ensures { OnOk result (HasTurned ground.now (noted_in ground.now at) told.old told.new) }
{
    // This says that the graph is a lawful one.
    let _nodes = ground.graph.node_count();
    let mut engines = take_engines(ground, told)?;
    let fired = engines[at].note(ground.time);
    push_if(&mut told.fired, fired, spec.trip)?;
    told.engines = Some(Items::new(engines));
    Ok(())
}

/// The engine of an upset notes the time.
fn note_upset(ground: &Ground<'_>, told: &mut Told, kind: NodeKind) -> Result<(), NoMemory>
    requires { IsTold ground.now told.old }
    ensures { OnOk result
        (HasTurned ground.now (note_upset ground.now.graph.now kind) told.old told.new) }
{
    match kind {
        NodeKind::Upset { engine: Some(at) } => {
            match ground.graph.engines().get(at as usize) {
                Some(spec) => note_engine(ground, told, at as usize, spec),
                None => Ok(()),
            }
        }
        _ => Ok(()),
    }
}

/// The engine of the upset of this number does.
fn note_node(ground: &Ground<'_>, told: &mut Told, number: u32) -> Result<(), NoMemory>
    requires { IsTold ground.now told.old }
    ensures { OnOk result (HasTurned ground.now
        (note_all ground.now.graph.now (node_at ground.now.graph.now.nodes number))
        told.old told.new) }
{
    match ground.graph.nodes().get(number as usize) {
        Some(node) => note_upset(ground, told, node.kind),
        None => Ok(()),
    }
}

/// The engine of each of these upsets does.
pub(crate) fn note_all(ground: &Ground<'_>, told: &mut Told, upsets: &[u32]) -> Result<(), NoMemory>
    requires { IsTold ground.now told.old }
    ensures { OnOk result (HasTurned ground.now
        (note_all ground.now.graph.now (nodes_of ground.now.graph.now upsets.now))
        told.old told.new) }
{
    for number in upsets {
        note_node(ground, told, *number)?;
    }
    Ok(())
}
