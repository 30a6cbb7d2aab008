//! Why a text is no rule file.

/// Why tokens have no tree: at the byte `place` is the first token that no rule file has behind
/// those before it, or `place` is the length of the text, where only its end is missing; or memory
/// ran out.
#[derive(Clone, Copy, Debug, PartialEq, Eq)]
pub enum ParseFault {
    At { place: u32 },
    NoMemory,
}
