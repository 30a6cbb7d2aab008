//! Which links of a graph payloads can break, and which of them a payload breaks.

ghost use Rattle.std.specs.Prelude.{◌≡◌, ◌==◌, filter, length, map, true, IfOk};
ghost use Rattle.std.specs.List.{list_all, list_any};
ghost use Rattle.ev_guards.specs.Guards as guarding;

use crate::copying::copy_nodes;
use crate::few::{have_few, have_none};
use ev_expr::{Bound, Prop, holds_for};
use ev_tree::Cond;
use fm_bytes::NoMemory;
use fm_name::Fmri;
use fm_topo::Topo;
use std::alloc::Global;
use std::marker::Model;

/// What a pattern asks of a payload: its condition, with the names that are bound for it.
#[derive(Drop)]
pub struct Question {
    pub names: Vec<Bound>,
    pub cond: Cond,
}

/// What guards the link of an instance to a node: what the patterns ask that give the node.
#[derive(Drop)]
pub struct Guard {
    pub instance: u32,
    pub questions: Vec<Question>,
}

/// The path of a node, and the guards of the links to it, in order of their instances.
#[derive(Drop)]
pub struct GuardedNode {
    pub path: Fmri,
    pub guards: Vec<Guard>,
}

/// The guarded links of a graph, by the nodes to which they lead.
#[derive(Drop)]
pub struct Guards {
    topo: Topo,
    nodes: Vec<GuardedNode>,
}

impl Model for Guards {
    ghost use Rattle.ev_guards.specs.Guards.{GuardsValue};
    ghost use Rattle.ev_tree.specs.contracts.tree.Cond as cond;
    ghost use Rattle.std.specs.Coded.{codes};

    ghost Value = { GuardsValue };

    ghost coded = { Prim.hlevel (codes, cond.the_row.coded) };

    ghost view = { λ g. record { topology = g.topo; nodes = g.nodes.items } };
}

/// Whether the condition of a question holds at a path with the pairs of a payload.
fn is_met(topo: &Topo, path: &Fmri, props: &[Prop], question: &Question) -> bool
    ensures { result ≡ guarding.question_holds topo.now path.now props.now question.now }
{
    holds_for(&question.cond, &question.names, topo, path, props)
}

/// Whether the condition of one of the questions holds.
fn is_any_met(topo: &Topo, path: &Fmri, props: &[Prop], questions: &[Question]) -> bool
    ensures { result ≡ list_any (guarding.question_holds topo.now path.now props.now) questions.now }
{
    questions
        .iter()
        .any(|question| is_met(topo, path, props, question))
}

/// Whether a payload breaks a link: none of the conditions that guard it holds.
fn is_broken(topo: &Topo, path: &Fmri, props: &[Prop], guard: &Guard) -> bool
    ensures { result ≡ guarding.is_broken topo.now path.now props.now guard.now }
{
    !is_any_met(topo, path, props, guard.questions.as_slice())
}

/// Whether one of the guards is that of the link of an instance.
fn guards_instance(guards: &[Guard], instance: u32) -> bool
    ensures { result ≡ list_any (guarding.is_guard_of instance) guards.now }
{
    guards.iter().any(|guard| guard.instance == instance)
}

/// The instances of those of the guards that a payload breaks.
fn broken_among(
    alloc: Global,
    topo: &Topo,
    path: &Fmri,
    props: &[Prop],
    guards: &[Guard],
) -> Result<Vec<u32>, NoMemory>
    ensures { IfOk result (λ found. found.items ≡ map guarding.guard_instance
        (filter (guarding.is_broken topo.now path.now props.now) guards.now)) }
{
    let mut found = Vec::new(alloc);
    for guard in guards {
        if is_broken(topo, path, props, guard) {
            found.push(guard.instance)?;
        }
    }
    Ok(found)
}

impl Guards {
    /// The guards of the links to these nodes.
    pub fn new(topo: Topo, nodes: Vec<GuardedNode>) -> Guards
        ensures { result ≡ record { topology = topo; nodes = nodes.items } }
    {
        Guards { topo, nodes }
    }

    /// Guards of the same links, each of which a payload breaks where it breaks it here.
    pub fn copy(&self, alloc: Global) -> Result<Guards, NoMemory>
        ensures { IfOk result (guarding.GuardAlike self.now) }
    {
        let topo = self.topo.copy(alloc)?;
        let nodes = copy_nodes(alloc, self.nodes.as_slice())?;
        Ok(Guards { topo, nodes })
    }

    /// Whether no link is guarded. It takes no memory.
    pub fn is_empty(&self) -> bool
        ensures { result ≡ (length (guarding.guarded_links self.now) == 0) }
    {
        have_none(self.nodes.as_slice())
    }

    /// Whether there are fewer than 2^32 guarded links. It takes no memory.
    pub fn has_few_links(&self) -> bool
        ensures { result ≡ guarding.has_few_links self.now }
    {
        have_few(self.nodes.as_slice())
    }

    /// Whether the link of an instance and an effect is guarded. It takes no memory.
    pub fn is_guarded(&self, instance: u32, effect: u32) -> bool
        ensures { result ≡ guarding.is_guarded self.now instance effect }
    {
        match self.nodes.get(effect as usize) {
            Some(node) => guards_instance(node.guards.as_slice(), instance),
            None => false,
        }
    }

    /// The instances whose link to a node a payload of these pairs breaks.
    fn broken_at(&self, alloc: Global, node: u32, props: &[Prop]) -> Result<Vec<u32>, NoMemory>
        ensures { IfOk result (λ found. found.items
            ≡ guarding.broken_by self.now node props.now) }
    {
        match self.nodes.get(node as usize) {
            Some(found) => {
                broken_among(
                    alloc,
                    &self.topo,
                    &found.path,
                    props,
                    found.guards.as_slice(),
                )
            }
            None => Ok(Vec::new(alloc)),
        }
    }

    /// The instances whose link to a node a payload of these pairs breaks, in the order of the
    /// node's guards. Only guarded links break.
    pub fn broken_by(&self, alloc: Global, node: u32, props: &[Prop]) -> Result<Vec<u32>, NoMemory>
        ensures broken { IfOk result (λ found. found.items
            ≡ guarding.broken_by self.now node props.now) }
        ensures guarded { IfOk result (λ found.
            list_all (λ i. guarding.is_guarded self.now i node) found.items ≡ true) }
    {
        let found = self.broken_at(alloc, node, props)?;
        Ok(found)
    }
}
