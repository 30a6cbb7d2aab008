// The one answer of an outside object that did not do what it was asked.

/// A call of a source, a sink or a disk failed, and the object's count of failures rose.
#[derive(Clone, Copy, Debug, Drop, PartialEq, Eq)]
pub struct Failed;
