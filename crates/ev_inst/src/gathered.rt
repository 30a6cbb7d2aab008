//! The instances of propagations, candidate by candidate.

ghost use Rattle.std.specs.Prelude.{◌≡◌, ◌≤◌, ◌<◌, ◌+◌, ◌++◌, ℕ, List, [], ◌∷◌, length, map};
ghost use Rattle.std.specs.Prelude.{slice_get, Some, IfErr, IfOk, OnOk};
ghost use Rattle.fm_topo.specs.Groups.{IsGrouped};
ghost use Rattle.ev_check.specs.CheckedFile.{view_prop};
ghost use Rattle.ev_join.specs.declared.join_fault.JoinFault.TheVariants.{Links};
ghost use Rattle.ev_events.specs.Names.{iterators};
ghost use Rattle.ev_events.specs.Bindings.{AreBindings, candidate_links};
ghost use Rattle.ev_inst.specs.Gathering.{AddsCandidates, AddsOutcome, ArePropsKnown};
ghost use Rattle.ev_inst.specs.Gathering.{AreOrderedNodes, IsGathered, IsReady};
ghost use Rattle.ev_inst.specs.Instances.{HaveMoreLinks};

use crate::index::{NodeIndex, first_nodes};
use crate::outcomes::{Outcome, outcome_of};
use ev_check::PropSpec;
use ev_events::{Binding, Candidates, JoinFault, candidates_of};
use ev_graph::{Instance, Node};
use fm_bytes::NoMemory;
use fm_topo::{Groups, Topo};
use std::alloc::Global;

const MOST_LINKS: u64 = 1_048_576;

/// The instances so far, and how many candidates were skipped.
#[derive(Drop)]
pub(crate) struct Gathered {
    pub(crate) instances: Vec<Instance>,
    pub(crate) skipped: u64,
}

/// Adds what becomes of a candidate. More than 2^64 - 1 skipped ones are want of memory.
fn add_outcome(gathered: &mut Gathered, outcome: Outcome) -> Result<(), NoMemory>
    ensures { OnOk result (AddsOutcome outcome gathered.old gathered.new) }
{
    match outcome {
        Outcome::Dropped => Ok(()),
        Outcome::Skipped => match gathered.skipped.checked_add(1) {
            Some(skipped) => {
                gathered.skipped = skipped;
                Ok(())
            }
            None => Err(NoMemory),
        },
        Outcome::Made(instance) => {
            gathered.instances.push(instance)?;
            Ok(())
        }
    }
}

/// Adds what becomes of the candidates of a propagation.
fn add_candidates(
    alloc: Global,
    topo: &Topo,
    index: &NodeIndex,
    prop: &PropSpec,
    candidates: &Candidates,
    gathered: &mut Gathered,
) -> Result<(), NoMemory>
    requires ready { IsReady topo.now index.now.nodes.now (view_prop prop.now)
        candidates.now.tables.items }
    requires names { candidates.now.names ≡ iterators (view_prop prop.now) }
    requires full { (i : ℕ) (b : List ℕ) → slice_get candidates.now.bindings i ≡ Some b
        → length b ≡ length (iterators (view_prop prop.now)) }
    ensures { OnOk result (AddsCandidates topo.now index.now.nodes.now (view_prop prop.now)
        candidates.now.bindings gathered.old gathered.new) }
{
    let bindings = candidates.bindings.as_slice();
    'bindings: for at in 0..bindings.len() {
        let binding = Binding {
            topo,
            names: &candidates.names,
            instances: bindings[at].as_slice(),
        };
        let outcome = outcome_of(alloc, &binding, index, prop, &candidates.tables)?;
        add_outcome(gathered, outcome)?;
    }
    Ok(())
}

/// Adds what becomes of the candidates of all propagations, where they have no more links than
/// 1,048,576; what these leave.
pub(crate) fn gather_all(
    alloc: Global,
    topo: &Topo,
    groups: &Groups,
    nodes: &[Node],
    props: &[PropSpec],
) -> Result<Gathered, JoinFault>
    requires groups { IsGrouped topo.now groups.now }
    requires nodes { AreOrderedNodes topo.now nodes.now }
    requires known { ArePropsKnown topo.now nodes.now (map view_prop props.now) }
    ensures all { IfOk result (IsGathered topo.now nodes.now (map view_prop props.now)) }
    ensures many { IfErr result (λ fault. fault ≡ Links
        → HaveMoreLinks topo.now (map view_prop props.now) 1048576) }
{
    let mut gathered = Gathered {
        instances: Vec::new(alloc),
        skipped: 0,
    };
    let firsts = first_nodes(alloc, topo, nodes)?;
    let index = NodeIndex {
        nodes,
        firsts: &firsts,
    };
    let mut left = MOST_LINKS;
    'props: for at in 0..props.len() {
        let prop = &props[at];
        let candidates = match candidates_of(alloc, topo, groups, prop, left) {
            Ok(candidates) => candidates,
            Err(fault) => return Err(fault),
        };
        left = candidates.left;
        add_candidates(alloc, topo, &index, prop, &candidates, &mut gathered)?;
    }
    Ok(gathered)
}
