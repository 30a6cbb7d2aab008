/// What became of a call to work on a module.
#[derive(Clone, Copy, PartialEq, Eq, Debug)]
pub enum Worked {
    /// It has taken every entry.
    Idle,
    /// It took an entry and said nothing.
    Silent,
    /// It took an entry and said something.
    Spoke,
}
