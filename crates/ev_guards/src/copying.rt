//! Copies of guards.

ghost use Rattle.std.specs.Prelude.{◌≡◌, map, IfOk};
ghost use Rattle.ev_guards.specs.Watched.{view_guard, view_node, view_question};

use crate::guards::{Guard, GuardedNode, Question};
use ev_expr::Bound;
use fm_bytes::{Copies, NoMemory};
use std::alloc::Global;

/// The same names, bound to the same instances.
fn copy_names(alloc: Global, names: &[Bound]) -> Result<Vec<Bound>, NoMemory>
    ensures { IfOk result (λ v. v.items ≡ names.now) }
{
    let mut copies = Vec::with_capacity(alloc, names.len())?;
    for bound in names {
        let name = bound.name.copy(alloc)?;
        let instance = bound.instance;
        copies.push(Bound { name, instance })?;
    }
    Ok(copies)
}

/// A question that is equal but for where it lies in memory.
fn copy_question(alloc: Global, question: &Question) -> Result<Question, NoMemory>
    ensures { IfOk result (λ q. view_question q ≡ view_question question.now) }
{
    let names = copy_names(alloc, &question.names)?;
    let cond = question.cond.copy(alloc)?;
    Ok(Question { names, cond })
}

/// Questions that are.
fn copy_questions(alloc: Global, questions: &[Question]) -> Result<Vec<Question>, NoMemory>
    ensures { IfOk result
        (λ v. map view_question v.items ≡ map view_question questions.now) }
{
    let mut copies = Vec::with_capacity(alloc, questions.len())?;
    for question in questions {
        copies.push(copy_question(alloc, question)?)?;
    }
    Ok(copies)
}

/// A guard that is equal but for where it lies in memory.
fn copy_guard(alloc: Global, guard: &Guard) -> Result<Guard, NoMemory>
    ensures { IfOk result (λ g. view_guard g ≡ view_guard guard.now) }
{
    let instance = guard.instance;
    let questions = copy_questions(alloc, guard.questions.as_slice())?;
    Ok(Guard {
        instance,
        questions,
    })
}

/// Guards that are.
fn copy_guards(alloc: Global, guards: &[Guard]) -> Result<Vec<Guard>, NoMemory>
    ensures { IfOk result (λ v. map view_guard v.items ≡ map view_guard guards.now) }
{
    let mut copies = Vec::with_capacity(alloc, guards.len())?;
    for guard in guards {
        copies.push(copy_guard(alloc, guard)?)?;
    }
    Ok(copies)
}

/// A node with its guards that is equal but for where it lies in memory.
fn copy_node(alloc: Global, node: &GuardedNode) -> Result<GuardedNode, NoMemory>
    ensures { IfOk result (λ n. view_node n ≡ view_node node.now) }
{
    let path = node.path.copy()?;
    let guards = copy_guards(alloc, node.guards.as_slice())?;
    Ok(GuardedNode { path, guards })
}

/// Nodes that are.
pub(crate) fn copy_nodes(alloc: Global, nodes: &[GuardedNode]) -> Result<Vec<GuardedNode>, NoMemory>
    ensures { IfOk result (λ v. map view_node v.items ≡ map view_node nodes.now) }
{
    let mut copies = Vec::with_capacity(alloc, nodes.len())?;
    for node in nodes {
        copies.push(copy_node(alloc, node)?)?;
    }
    Ok(copies)
}
