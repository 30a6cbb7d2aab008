//! What becomes of a candidate.

ghost use Rattle.std.specs.Prelude.{◌≡◌, ◌≤◌, ◌+◌, ℕ, true, false, length, map, IfOk, MatchOption};
ghost use Rattle.ev_tree.specs.Pattern.{view_pattern};
ghost use Rattle.ev_check.specs.CheckedFile.{view_prop};
ghost use Rattle.ev_events.specs.Names.{iterators};
ghost use Rattle.ev_events.specs.Bindings.{candidate_links};
ghost use Rattle.ev_inst.specs.Gathering.{IsOutcome, IsReady, outcome_links};
ghost use Rattle.ev_inst.specs.Outcomes as made;

use crate::index::NodeIndex;
use crate::numbers::side_events;
use ev_check::PropSpec;
use ev_events::Binding;
use ev_graph::{Instance, Node};
use ev_join::Table;
use ev_tree::Count;
use fm_bytes::{Items, NoMemory};
use std::alloc::Global;

/// What becomes of a candidate: a pattern without horizontal parts has no event; it lacks causes or
/// effects; or it is an instance.
#[derive(Drop)]
pub(crate) enum Outcome {
    Dropped,
    Skipped,
    Made(Instance),
}

/// The number at an arrow, `A` being all of so many.
fn count_of(count: Count, all: usize) -> u64
    ensures { result ≡ made.count_at_arrow count all }
{
    match count {
        Count::All => all as u64,
        Count::Number(number) => number,
    }
}

/// The instance of these causes and effects, where it has an effect, N effects, a cause and K
/// causes.
fn complete(causes: Vec<u32>, effects: Vec<u32>, n: Count, k: Count) -> Option<Instance>
    requires causes { length causes.items ≤ 65536 }
    requires effects { length effects.items ≤ 65536 }
    ensures { MatchOption result
        (made.is_complete (made.instance_with causes.items effects.items n k) ≡ false)
        (λ i. (made.is_complete (made.instance_with causes.items effects.items n k) ≡ true)
        × (i ≡ made.instance_with causes.items effects.items n k)) }
{
    let shown = count_of(n, effects.len());
    let needed = count_of(k, causes.len());
    if effects.len() == 0 {
        return None;
    }
    if shown > effects.len() as u64 {
        return None;
    }
    if causes.len() == 0 {
        return None;
    }
    if needed > causes.len() as u64 {
        return None;
    }
    Some(Instance {
        causes: Items::new(causes),
        effects: Items::new(effects),
        n: shown as u32,
        k: needed as u32,
    })
}

/// What becomes of a candidate of a propagation, whose tables are these.
pub(crate) fn outcome_of(
    alloc: Global,
    binding: &Binding,
    index: &NodeIndex,
    prop: &PropSpec,
    tables: &[Table],
) -> Result<Outcome, NoMemory>
    requires ready { IsReady binding.now.topo.now index.now.nodes.now (view_prop prop.now)
        tables.now }
    requires names { binding.now.names.now ≡ iterators (view_prop prop.now) }
    requires full { length binding.now.instances.now ≡ length binding.now.names.now }
    ensures outcome { IfOk result (IsOutcome binding.now.topo.now index.now.nodes.now
        (view_prop prop.now) binding.now.instances.now) }
    ensures few { IfOk result (λ outcome. outcome_links outcome
        ≤ candidate_links binding.now.topo.now (view_prop prop.now) binding.now.instances.now) }
{
    let left = prop.left.as_slice();
    let right = prop.right.as_slice();
    let (own, others) = tables.split_at(left.len());
    let Some(causes) = side_events(alloc, binding, index, left, own)? else {
        return Ok(Outcome::Dropped);
    };
    let Some(effects) = side_events(alloc, binding, index, right, others)? else {
        return Ok(Outcome::Dropped);
    };
    match complete(causes, effects, prop.n, prop.k) {
        Some(instance) => Ok(Outcome::Made(instance)),
        None => Ok(Outcome::Skipped),
    }
}
