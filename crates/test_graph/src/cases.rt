// Cases in a graph.
ghost use Rattle.std.specs.Prelude.{IfOk};
ghost use Rattle.dx_case.specs.Cases.{IsCaseOf};

use crate::case_steps::{CaseStep, Kept, Opening, kept_in, kept_links, opening_in, steps_in};
use crate::case_texts::{CaseEnd, CaseView, case_text};
use crate::words::first_part;
use dx_case::{Case, CaseFacts, FirstReport, Outcome, Starts};
use ev_graph::{Graph, Link, is_report_node};
use std::alloc::Global;
use test_words::ScriptFault;

/// A case that a report opens, by the entry 7: the second such, so that it is made of what was
/// found for the first.
pub fn opened(alloc: Global, graph: &Graph, opening: &Opening) -> Result<Case, ScriptFault>
    ensures { IfOk result (λ case. IsCaseOf graph.now case) }
{
    if !is_report_node(graph.nodes(), opening.node) {
        return Err(ScriptFault::Words);
    }
    let report = FirstReport {
        number: 0,
        node: opening.node,
        moment: opening.moment,
        entry: 7,
        broken: &opening.broken,
    };
    let mut starts = Starts::new(alloc);
    let _first = Case::start_with(alloc, graph, &mut starts, &report)?;
    let case = Case::start_with(alloc, graph, &mut starts, &report)?;
    Ok(case)
}

/// Moves the case to a moment.
fn move_to(graph: &Graph, case: &mut Case, moment: u64) -> Result<(), ScriptFault>
    requires { IsCaseOf graph.now case.old }
    ensures { IsCaseOf graph.now case.new }
{
    match case.time() {
        Some(time) => {
            if time <= moment {
                case.expire(graph, moment);
                Ok(())
            } else {
                Err(ScriptFault::Words)
            }
        }
        None => Err(ScriptFault::Words),
    }
}

/// A report of the node joins, by an entry.
fn join(
    graph: &Graph,
    case: &mut Case,
    node: u32,
    entry: u64,
    broken: &[Link],
) -> Result<(), ScriptFault>
    requires { IsCaseOf graph.now case.old }
    ensures { IsCaseOf graph.now case.new }
{
    if !case.fits(node) {
        return Err(ScriptFault::Words);
    }
    match case.join_with(graph, node, entry, broken) {
        Ok(()) => Ok(()),
        Err(_) => Err(ScriptFault::NoMemory),
    }
}

/// The case takes a step.
pub fn turn(graph: &Graph, case: &mut Case, step: &CaseStep) -> Result<(), ScriptFault>
    requires { IsCaseOf graph.now case.old }
    ensures { IsCaseOf graph.now case.new }
{
    match step {
        CaseStep::Move(moment) => move_to(graph, case, *moment),
        CaseStep::Join {
            node,
            entry,
            broken,
        } => join(graph, case, *node, *entry, broken),
        CaseStep::Finish => {
            case.finish(graph);
            Ok(())
        }
    }
}

/// The case takes steps.
fn turns(graph: &Graph, case: &mut Case, steps: &[CaseStep]) -> Result<(), ScriptFault>
    requires { IsCaseOf graph.now case.old }
    ensures { IsCaseOf graph.now case.new }
{
    'steps: for step in steps {
        turn(graph, case, step)?;
    }
    Ok(())
}

/// An equal case.
fn copied(alloc: Global, graph: &Graph, case: &Case) -> Result<Case, ScriptFault>
    requires { IsCaseOf graph.now case.now }
    ensures { IfOk result (λ copy. IsCaseOf graph.now copy) }
{
    let _graph = graph.node_count();
    let copy = case.copy(alloc)?;
    Ok(copy)
}

/// The case of what is kept of one, if a case of the graph can be so.
fn restored(alloc: Global, graph: &Graph, kept: &Kept) -> Result<Case, ScriptFault>
    ensures { IfOk result (λ case. IsCaseOf graph.now case) }
{
    let facts = facts_of(kept);
    if !facts.fit(graph, kept.moment) {
        return Err(ScriptFault::Words);
    }
    let case = Case::restore(alloc, graph, &mut Starts::new(alloc), &facts, kept.moment)?;
    Ok(case)
}

/// What is kept, as facts.
fn facts_of(kept: &Kept) -> CaseFacts<'_> {
    CaseFacts {
        number: kept.number,
        opened: kept.opened,
        entries: &kept.entries,
        observed: &kept.observed,
        broken: &kept.broken,
    }
}

/// What is kept of a case that has come to a moment.
fn kept_of(alloc: Global, case: &Case, moment: u64) -> Result<Kept, ScriptFault> {
    let entries = case.reports().to_vec(alloc)?;
    let observed = case.observed().to_vec(alloc)?;
    let broken = kept_links(alloc, case.broken())?;
    Ok(Kept {
        number: case.number(),
        opened: case.opened(),
        moment,
        entries,
        observed,
        broken,
    })
}

/// What the case comes to.
fn end_of(alloc: Global, graph: &Graph, case: &Case) -> Result<CaseEnd, ScriptFault>
    requires { IsCaseOf graph.now case.now }
{
    if case.is_pending() {
        return Ok(CaseEnd::Pending);
    }
    match case.outcome(alloc, graph) {
        Ok(Outcome::Solved(faults)) => Ok(CaseEnd::Solved(faults)),
        Ok(Outcome::Upset(upsets)) => Ok(CaseEnd::Upset(upsets)),
        Ok(Outcome::Undiagnosable) => Ok(CaseEnd::Unexplained),
        Err(_) => Err(ScriptFault::NoMemory),
    }
}

/// The nodes below 8 whose reports join the case.
fn fitting(alloc: Global, case: &Case) -> Result<Vec<u32>, ScriptFault> {
    let mut nodes = Vec::new(alloc);
    for node in 0..8 {
        if case.fits(node) {
            nodes.push(node)?;
        }
    }
    Ok(nodes)
}

/// A case that comes to this, as plain values.
fn view_of(alloc: Global, case: &Case, end: CaseEnd) -> Result<CaseView, ScriptFault> {
    let entries = case.reports().to_vec(alloc)?;
    let observed = case.observed().to_vec(alloc)?;
    let broken = case.broken().to_vec(alloc)?;
    let fits = fitting(alloc, case)?;
    Ok(CaseView {
        number: case.number(),
        opened: case.opened(),
        time: case.time(),
        entries,
        observed,
        broken,
        fits,
        end,
    })
}

/// What is told of a case.
pub fn told(alloc: Global, graph: &Graph, case: &Case) -> Result<String, ScriptFault>
    requires { IsCaseOf graph.now case.now }
{
    let end = end_of(alloc, graph, case)?;
    let view = view_of(alloc, case, end)?;
    case_text(alloc, &view)
}

/// What is told of a copy.
pub fn told_of_copy(alloc: Global, graph: &Graph, case: &Case) -> Result<String, ScriptFault>
    requires { IsCaseOf graph.now case.now }
{
    let copy = copied(alloc, graph, case)?;
    told(alloc, graph, &copy)
}

/// What is told of the case made again from what is kept of it at a moment.
pub fn told_again(
    alloc: Global,
    graph: &Graph,
    case: &Case,
    moment: u64,
) -> Result<String, ScriptFault> {
    let kept = kept_of(alloc, case, moment)?;
    let case = restored(alloc, graph, &kept)?;
    told(alloc, graph, &case)
}

/// What is told of a case that is opened and takes steps, `NODE MOMENT LINK .., STEP, ..`.
pub fn case(alloc: Global, graph: &Graph, words: &str) -> Result<String, ScriptFault> {
    let (opening, rest) = first_part(words);
    let opening = opening_in(alloc, opening)?;
    let steps = steps_in(alloc, rest)?;
    let mut case = opened(alloc, graph, &opening)?;
    turns(graph, &mut case, &steps)?;
    told(alloc, graph, &case)
}

/// What is told of a case behind the steps of a copy, and of the copy.
fn told_apart(
    alloc: Global,
    graph: &Graph,
    case: &Case,
    steps: &[CaseStep],
) -> Result<String, ScriptFault>
    requires { IsCaseOf graph.now case.now }
{
    let mut copy = copied(alloc, graph, case)?;
    turns(graph, &mut copy, steps)?;
    let of_copy = told(alloc, graph, &copy)?;
    let of_case = told(alloc, graph, case)?;
    Ok(format!(in alloc; "{of_case}; {of_copy}")?)
}

/// What is told of a case of which a copy takes steps, and of the copy.
pub fn copy(alloc: Global, graph: &Graph, words: &str) -> Result<String, ScriptFault> {
    let (opening, rest) = first_part(words);
    let opening = opening_in(alloc, opening)?;
    let steps = steps_in(alloc, rest)?;
    let case = opened(alloc, graph, &opening)?;
    told_apart(alloc, graph, &case, &steps)
}

/// What is told of a case that was kept and takes steps, `MOMENT, NODE .., LINK .., STEP, ..`.
pub fn kept(alloc: Global, graph: &Graph, words: &str) -> Result<String, ScriptFault> {
    let (moment, rest) = first_part(words);
    let (observed, rest) = first_part(rest);
    let (links, rest) = first_part(rest);
    let kept = kept_in(alloc, moment, observed, links)?;
    let steps = steps_in(alloc, rest)?;
    if !facts_of(&kept).fit(graph, kept.moment) {
        return Ok(String::from_str(alloc, "no case")?);
    }
    let mut case = restored(alloc, graph, &kept)?;
    turns(graph, &mut case, &steps)?;
    told(alloc, graph, &case)
}
