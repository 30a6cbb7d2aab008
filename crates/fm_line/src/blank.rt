//! Lines that are skipped.

ghost use Rattle.std.specs.Prelude.{◌≡◌};
ghost use Rattle.fm_line.specs.Blank.{is_blank_line};

/// Whether the line has no byte but spaces, tabs and carriage returns. Such a line is skipped
/// without an answer, and counted.
pub fn is_blank_line(line: &[u8]) -> bool
    ensures { result ≡ is_blank_line line.now }
{
    line.iter()
        .all(|b| *b == b' ' || *b == b'\t' || *b == b'\r')
}
