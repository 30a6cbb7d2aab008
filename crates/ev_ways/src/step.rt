//! A step towards a goal.
/// A step to a node, and the length of a shortest way from there to the goal.
#[derive(Clone, Copy, Debug, PartialEq, Eq)]
pub(crate) struct Step {
    pub(crate) distance: u32,
    pub(crate) node: u32,
}
