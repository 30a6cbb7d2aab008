//! The words of the table: what is wrong with a rule file.
use ev_tree::Declared;
use fm_bytes::Items;

/// The members of a cycle, in order: each leads to the next, and the last to the first.
pub type Members = Items<Declared>;

/// What is wrong with a rule file.
#[derive(Debug, Drop)]
pub enum CheckKind {
    /// A class or an attribute of a category that may not stand there, or a property of the
    /// payload elsewhere than in a right pattern of a report.
    BadKind,
    /// An attribute that stands twice in its statement, or a statement that declares what an
    /// earlier one did.
    Twice,
    /// An engine that lacks `N`, `T` or `trip`.
    Missing,
    /// A number out of range.
    BadCount,
    /// A time out of range.
    BadTime,
    /// A name that is no iterator where it stands, or is too long.
    FreeIterator,
    /// An event or an engine that no statement declares.
    Undeclared,
    /// An engine whose trip is reached from an upset.
    UpsetTrips,
    /// Events that lead to one another in a ring.
    Cycle(Members),
}
