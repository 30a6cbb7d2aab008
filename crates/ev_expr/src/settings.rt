//! What a condition is asked with, and what its operands are worth.

use ev_tree::TreeText;
use fm_name::Fmri;
use fm_topo::{Topo, TopoValue};

/// A name of an iterator, and the instance that is bound to it.
#[derive(Debug, Drop)]
pub struct Bound {
    pub name: TreeText,
    pub instance: u32,
}

/// A pair of a payload: a name and its value.
#[derive(Debug, Drop)]
pub struct Prop {
    pub name: TreeText,
    pub value: TopoValue,
}

/// Where a condition is asked.
#[derive(Drop)]
pub(crate) struct Environment<'a> {
    pub(crate) names: &'a [Bound],
    pub(crate) topo: &'a Topo,
    /// A number at which the path is sought in the topology first.
    pub(crate) near: usize,
    pub(crate) path: &'a Fmri,
    pub(crate) props: &'a [Prop],
}

/// What an operand or a sum is worth.
#[derive(Drop)]
pub(crate) enum Worth<'a> {
    Number(u128),
    Text(&'a str),
    Absent,
}
