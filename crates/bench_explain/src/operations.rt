//! What is done with a graph.

ghost use Rattle.std.specs.Prelude.{◌≡◌, ◌<◌, true, IfOk};
ghost use Rattle.ev_graph.specs.Kinds.{is_root_node};
ghost use Rattle.dx_live.specs.Live.{IsLiveOf};

use dx_explain::{Scratch, explain_in};
use dx_live::{Live, Steps};
use ev_graph::{Graph, ascends, is_report_node, is_root_node};
use std::alloc::{AllocError, Global};
use std::marker::Brand;
use std::sync::ledger::{Blank, Ledger};

/// One operation, done so often.
#[derive(Clone, Copy, Drop)]
pub enum Operation {
    Keep,
    Make,
    Shrink,
    Explain,
    Refuse,
    Pass,
}

/// The numbers of all nodes that a test picks.
fn roots_of(alloc: Global, graph: &Graph) -> Result<Vec<u32>, AllocError> {
    let mut roots = Vec::new(alloc);
    for number in 0..graph.node_count() as u32 {
        if is_root_node(graph.nodes(), number) {
            roots.push(number)?;
        }
    }
    Ok(roots)
}

fn reports_of(alloc: Global, graph: &Graph) -> Result<Vec<u32>, AllocError> {
    let mut reports = Vec::new(alloc);
    for number in 0..graph.node_count() as u32 {
        if is_report_node(graph.nodes(), number) {
            reports.push(number)?;
        }
    }
    Ok(reports)
}

fn live_of(alloc: Global, graph: &Graph, root: u32) -> Result<Live, AllocError>
    ensures { IfOk result (λ live. IsLiveOf graph.now live) }
{
    if !is_root_node(graph.nodes(), root) {
        return Err(AllocError);
    }
    Live::new(alloc, graph, root).map_err(|_| AllocError)
}

/// Whether all of so many live sets, of one root after the other, have a story while all are kept.
fn keep(alloc: Global, graph: &Graph, rounds: u32) -> Result<bool, AllocError> {
    let roots = roots_of(alloc, graph)?;
    let mut lives = Vec::new(alloc);
    for round in 0..rounds as usize {
        let Some(root) = roots.get(round % roots.len().max(1)) else {
            return Ok(false);
        };
        lives.push(live_of(alloc, graph, *root)?)?;
    }
    Ok(lives.iter().all(|live| live.alive()))
}

fn make(alloc: Global, graph: &Graph, root: u32, rounds: u32) -> Result<bool, AllocError> {
    let mut went_well = true;
    for _ in 0..rounds {
        went_well &= live_of(alloc, graph, root)?.alive();
    }
    Ok(went_well)
}

/// All these reports go.
fn lose_all<L: Ledger>(graph: &Graph, reports: &[u32], live: &mut Live, steps: &mut Steps<L>)
    requires { IsLiveOf graph.now live.old }
{
    for report in reports {
        if is_report_node(graph.nodes(), *report) {
            live.shrink(graph, *report, steps);
        }
    }
}

fn shrink_counted<L: Ledger>(
    alloc: Global,
    graph: &Graph,
    root: u32,
    rounds: u32,
    blank: Blank,
) -> Result<bool, AllocError>
    requires name { blank.name ≡ L.name }
    requires parts { blank.parts ≡ L.parts }
    requires some { 0 < blank.parts }
{
    let mut steps = Steps::<L>::open(blank);
    let reports = reports_of(alloc, graph)?;
    let mut went_well = true;
    for _ in 0..rounds {
        let mut live = live_of(alloc, graph, root)?;
        lose_all(graph, reports.as_slice(), &mut live, &mut steps);
        went_well &= !live.alive();
    }
    Ok(went_well)
}

fn shrink(alloc: Global, graph: &Graph, root: u32, rounds: u32) -> Result<bool, AllocError> {
    shrink_counted::<Brand>(alloc, graph, root, rounds, Blank::new(1))
}

/// Whether the root has a story with these reports allowed as often as it should.
fn explain(
    alloc: Global,
    graph: &Graph,
    root: u32,
    allowed: &[u32],
    rounds: u32,
) -> Result<bool, AllocError> {
    let mut room = Scratch::new(alloc, graph).map_err(|_| AllocError)?;
    let mut went_well = ascends(allowed);
    for _ in 0..rounds {
        let found = ascends(allowed) && explain_in(graph, &[], root, &[], allowed, &mut room);
        went_well &= found != allowed.is_empty();
    }
    Ok(went_well)
}

/// How many of these are marked.
fn count_marked(numbers: &[u32], marks: &[bool]) -> usize {
    numbers
        .iter()
        .filter(|number| marks.get(**number as usize).copied().unwrap_or(false))
        .count()
}

/// Whether some cause or effect of an instance is not marked.
fn misses_ends(graph: &Graph, marks: &[bool]) -> bool {
    let table = graph.incidence();
    let mut misses = false;
    for place in 0..table.count() as u32 {
        let (causes, effects) = (table.causes(place), table.effects(place));
        misses |= count_marked(causes, marks) != causes.len();
        misses |= count_marked(effects, marks) != effects.len();
    }
    misses
}

/// Whether some instance of a node is not marked.
fn misses_instances(graph: &Graph, marks: &[bool]) -> bool {
    let table = graph.incidence();
    let mut misses = false;
    for node in 0..table.nodes() as u32 {
        let (uses, gets) = (table.uses(node), table.gets(node));
        misses |= count_marked(uses, marks) != uses.len();
        misses |= count_marked(gets, marks) != gets.len();
    }
    misses
}

fn pass(alloc: Global, graph: &Graph, rounds: u32) -> Result<bool, AllocError> {
    let nodes = vec![in alloc; true; graph.node_count()]?;
    let instances = vec![in alloc; true; graph.instances().len()]?;
    let mut went_well = true;
    for _ in 0..rounds {
        went_well &= !misses_ends(graph, nodes.as_slice());
        went_well &= !misses_instances(graph, instances.as_slice());
    }
    Ok(went_well)
}

impl Operation {
    /// The operation of a word.
    pub fn of_word(word: &str) -> Option<Operation> {
        match word {
            "keep" => Some(Operation::Keep),
            "make" => Some(Operation::Make),
            "shrink" => Some(Operation::Shrink),
            "explain" => Some(Operation::Explain),
            "refuse" => Some(Operation::Refuse),
            "pass" => Some(Operation::Pass),
            _ => None,
        }
    }

    /// Does it so often: whether each story came out as it should.
    pub fn run(self, alloc: Global, graph: &Graph, rounds: u32) -> Result<bool, AllocError> {
        let roots = roots_of(alloc, graph)?;
        let Some(root) = roots.first().copied() else {
            return Ok(false);
        };
        match self {
            Operation::Keep => keep(alloc, graph, rounds),
            Operation::Make => make(alloc, graph, root, rounds),
            Operation::Shrink => shrink(alloc, graph, root, rounds),
            Operation::Explain => {
                let allowed = reports_of(alloc, graph)?;
                explain(alloc, graph, root, allowed.as_slice(), rounds)
            }
            Operation::Refuse => explain(alloc, graph, root, &[], rounds),
            Operation::Pass => pass(alloc, graph, rounds),
        }
    }
}
