// Cases of drawn graphs, which live as a search over all stories says.
ghost use Rattle.dx_case.specs.Cases.{IsCaseOf};

use crate::case_steps::{CaseStep, Opening};
use crate::case_texts::case_text;
use crate::cases::{opened, told, told_again, told_of_copy, turn};
use crate::drawn::{bit_of, drawn_graph};
use crate::plain::{Plain, Searched};
use dx_case::Case;
use ev_graph::{Graph, Link};
use std::alloc::Global;
use test_words::{Draws, ScriptFault};

/// How often a case waited, what cases came to, and how often one was other than the search says.
#[derive(Clone, Copy, Drop)]
struct CaseCounts {
    waits: u32,
    solved: u32,
    upset: u32,
    unexplained: u32,
    wrong: u32,
}

impl CaseCounts {
    /// Counts what was found of a case.
    fn count(&mut self, found: Searched, is_right: bool) {
        let count = if found.pending != 0 {
            &mut self.waits
        } else if found.faults != 0 {
            &mut self.solved
        } else if found.upsets != 0 {
            &mut self.upset
        } else {
            &mut self.unexplained
        };
        *count = count.saturating_add(1);
        if !is_right {
            self.wrong = self.wrong.saturating_add(1);
        }
    }

    /// The least of the counts of what cases came to.
    fn least(&self) -> u32 {
        self.waits
            .min(self.solved)
            .min(self.upset)
            .min(self.unexplained)
    }
}

/// Some links between instances and the node.
fn drawn_links(
    alloc: Global,
    graph: &Graph,
    draws: &mut Draws,
    node: u32,
) -> Result<Vec<Link>, ScriptFault> {
    let mut links = Vec::new(alloc);
    let mut instance = 0u32;
    for each in graph.instances() {
        if each.effects.as_slice().contains(&node) && draws.up_to(3) == 0 {
            let effect = node;
            links.push(Link { instance, effect })?;
        }
        instance = instance.saturating_add(1);
    }
    Ok(links)
}

/// A report that opens a case at the moment 10.
fn drawn_opening(alloc: Global, graph: &Graph, draws: &mut Draws) -> Result<Opening, ScriptFault> {
    let node = draws.up_to(2);
    let broken = drawn_links(alloc, graph, draws, node)?;
    Ok(Opening {
        node,
        moment: 10,
        broken,
    })
}

/// A report that joins the case, or time that passes.
fn drawn_step(
    alloc: Global,
    graph: &Graph,
    draws: &mut Draws,
    plain: &Plain,
    found: Searched,
) -> Result<CaseStep, ScriptFault> {
    let node = draws.up_to(2);
    let fits = (plain.observed | found.pending) & bit_of(node) != 0;
    if draws.up_to(1) == 0 && fits {
        let broken = drawn_links(alloc, graph, draws, node)?;
        return Ok(CaseStep::Join {
            node,
            entry: 8,
            broken,
        });
    }
    let time = plain.time.unwrap_or(0);
    Ok(CaseStep::Move(time.saturating_add(u64::from(draws.up_to(3)))))
}

/// Whether this is told of a case, of a copy, and of the case made again.
fn is_told(
    alloc: Global,
    graph: &Graph,
    case: &Case,
    time: Option<u64>,
    want: &str,
) -> Result<bool, ScriptFault>
    requires { IsCaseOf graph.now case.now }
{
    if told(alloc, graph, case)?.as_str() != want {
        return Ok(false);
    }
    if told_of_copy(alloc, graph, case)?.as_str() != want {
        return Ok(false);
    }
    match time {
        Some(moment) => Ok(told_again(alloc, graph, case, moment)?.as_str() == want),
        None => Ok(true),
    }
}

/// What the search finds of a case, which is counted with whether the case is so.
fn agree(
    alloc: Global,
    graph: &Graph,
    case: &Case,
    plain: &Plain,
    counts: &mut CaseCounts,
) -> Result<Searched, ScriptFault>
    requires { IsCaseOf graph.now case.now }
{
    let found = plain.search(alloc, graph)?;
    let view = plain.view(alloc, found)?;
    let want = case_text(alloc, &view)?;
    let is_right = is_told(alloc, graph, case, plain.time, &want)?;
    counts.count(found, is_right);
    Ok(found)
}

/// A case takes a step.
fn go_on(
    graph: &Graph,
    case: &mut Case,
    plain: &mut Plain,
    step: &CaseStep,
) -> Result<(), ScriptFault>
    requires { IsCaseOf graph.now case.old }
    ensures { IsCaseOf graph.now case.new }
{
    plain.turn(step)?;
    turn(graph, case, step)
}

/// Compares a case with what the search says, from its opening until it is finished.
fn live(
    alloc: Global,
    graph: &Graph,
    draws: &mut Draws,
    counts: &mut CaseCounts,
) -> Result<(), ScriptFault> {
    let opening = drawn_opening(alloc, graph, draws)?;
    let mut case = opened(alloc, graph, &opening)?;
    let mut plain = Plain::opened(alloc, &opening)?;
    let mut found = agree(alloc, graph, &case, &plain, counts)?;
    'steps: for _ in 0..5 {
        let step = drawn_step(alloc, graph, draws, &plain, found)?;
        go_on(graph, &mut case, &mut plain, &step)?;
        found = agree(alloc, graph, &case, &plain, counts)?;
    }
    go_on(graph, &mut case, &mut plain, &CaseStep::Finish)?;
    agree(alloc, graph, &case, &plain, counts)?;
    Ok(())
}

/// Tries a case of each of so many graphs that are drawn from a number.
pub fn drawn_cases(alloc: Global, seed: u32, count: u32) -> Result<String, ScriptFault> {
    let mut draws = Draws::new(u64::from(seed));
    let mut counts = CaseCounts {
        waits: 0,
        solved: 0,
        upset: 0,
        unexplained: 0,
        wrong: 0,
    };
    for _ in 0..count {
        let graph = drawn_graph(alloc, &mut draws)?;
        live(alloc, &graph, &mut draws, &mut counts)?;
    }
    let wrong = counts.wrong;
    let often = if counts.least() >= 5 { "" } else { "not " };
    Ok(format!(in alloc; "{count} graphs, {wrong} wrong, each end {often}five times at least")?)
}
