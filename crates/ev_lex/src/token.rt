//! Tokens.

/// What a token is.
#[derive(Clone, Copy, Debug, PartialEq, Eq)]
pub enum Kind {
    Word,
    Int,
    Time,
    Text,
    Punct,
}

/// A token: the slice of the text from the byte `from` on, up to and without the byte `to`. The
/// slice of a `Text` has its quotes.
#[derive(Clone, Copy, Debug, PartialEq, Eq)]
pub struct Token {
    pub kind: Kind,
    pub from: u32,
    pub to: u32,
}
