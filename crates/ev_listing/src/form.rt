//! The forms in which a graph is told.

/// How what a rule file comes to is told: by a line of its sizes, or as a compiled file.
#[derive(Clone, Copy, Debug, PartialEq, Eq)]
pub enum GraphForm {
    Listed,
    Compiled,
}
