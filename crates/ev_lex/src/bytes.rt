//! The bytes of a rule text, by what they may stand in.
ghost use Rattle.std.specs.Prelude.{◌≡◌};
ghost use Rattle.std.specs.Char.{is_ascii_digit};
ghost use Rattle.ev_lex.specs.Bytes as spec;

/// Whether the byte is a letter, a digit or `_`.
pub(crate) fn is_word_byte(byte: u8) -> bool
    ensures { result ≡ spec.is_word_byte byte }
{
    byte.is_ascii_alphanumeric() || byte == b'_'
}

/// Whether the first byte is this one.
pub(crate) fn opens(byte: u8, text: &[u8]) -> bool
    ensures { result ≡ spec.opens byte text.now }
{
    match text {
        [] => false,
        [first, ..] => *first == byte,
    }
}

/// Whether the first byte is a letter, a digit or `_`.
pub(crate) fn opens_word(text: &[u8]) -> bool
    ensures { result ≡ spec.opens_word text.now }
{
    match text {
        [] => false,
        [first, ..] => is_word_byte(*first),
    }
}

/// Whether the byte is a space, a tab or a carriage return.
pub(crate) fn is_blank(byte: u8) -> bool
    ensures { result ≡ spec.is_blank byte }
{
    byte == b' ' || byte == b'\t' || byte == b'\r'
}

/// Whether the byte may stand in a quoted text.
fn is_text_byte(byte: u8) -> bool
    ensures { result ≡ spec.is_text_byte byte }
{
    byte >= 0x20 && byte <= 0x7e && byte != b'"' && byte != b'\\'
}

/// How many digits stand in front.
pub(crate) fn count_digits(text: &[u8]) -> usize
    ensures { result ≡ spec.count_while is_ascii_digit text.now }
{
    text.iter().take_while(|b| b.is_ascii_digit()).count()
}

/// How many letters, digits and `_` stand in front.
pub(crate) fn count_word_bytes(text: &[u8]) -> usize
    ensures { result ≡ spec.count_while spec.is_word_byte text.now }
{
    text.iter().take_while(|b| is_word_byte(**b)).count()
}

/// How many bytes of a quoted text stand in front.
pub(crate) fn count_text_bytes(text: &[u8]) -> usize
    ensures { result ≡ spec.count_while spec.is_text_byte text.now }
{
    text.iter().take_while(|b| is_text_byte(**b)).count()
}

/// How many bytes there are up to a newline.
pub(crate) fn count_line_bytes(text: &[u8]) -> usize
    ensures { result ≡ spec.count_while spec.is_in_line text.now }
{
    text.iter().take_while(|b| **b != b'\n').count()
}
