//! Laws of numbers in bytes.

ghost use Rattle.fm_bytes.specs.Laws.{OneSpelling, ReadsBack};

/// Just one list of `n` bytes reads as a number, and the bytes that a number below `256 ^ n` is
/// written in read as the number, whatever follows them.
pub fn numbers_are_read_back()
    ensures one { OneSpelling }
    ensures back { ReadsBack }
{}
