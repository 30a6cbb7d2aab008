//! The pieces of a rule text, each by what begins a text.
ghost use Rattle.std.specs.Prelude.{◌≡◌, ◌≤◌, length, drop, IfSome};
ghost use Rattle.std.specs.Char.{is_ascii_alphabetic, is_ascii_digit};
ghost use Rattle.ev_lex.specs.Pieces as spec;

use crate::bytes::{
    count_digits, count_line_bytes, count_text_bytes, count_word_bytes, is_blank, is_word_byte,
    opens, opens_word,
};
use crate::token::Kind;
use fm_bytes::read_digits;

/// A piece of a text: a newline, another blank, a line from its `#` on, a comment, or a token, with
/// the number of its bytes where it isn't one.
#[derive(Clone, Copy, Debug, PartialEq, Eq)]
pub enum Piece {
    Newline,
    Blank,
    Skipped(usize),
    Comment(usize),
    Lexeme(Kind, usize),
}

/// Whether the byte belongs to a word, before these others.
fn goes_on(first: u8, others: &[u8]) -> bool
    ensures { result ≡ spec.is_in_word first others.now }
{
    is_word_byte(first) || ((first == b'-' || first == b'.') && opens_word(others))
}

/// How many bytes from the front on belong to a word.
fn word_length(text: &[u8]) -> usize
    ensures count { result ≡ spec.word_length text.now }
    ensures within { result ≤ length text.now }
{
    let mut rest = text;
    let mut n = 0usize;
    while let [first, others @ ..] = rest {
        if !goes_on(*first, others) {
            return n;
        }
        n += 1;
        rest = others;
    }
    n
}

/// Whether no part between dots has over 32 bytes.
fn parts_fit(word: &[u8]) -> bool
    ensures { result ≡ spec.parts_fit word.now }
{
    word.split(|b| *b == b'.').all(|part| part.len() <= 32)
}

/// A word, if the text begins with one within the limits.
#[tactic(auto, unfolding(crate::specs::Pieces::word_piece))]
fn word_piece(text: &[u8]) -> Option<Piece>
    ensures { result ≡ spec.word_piece text.now }
{
    let n = word_length(text);
    if n <= 255 && parts_fit(&text[..n]) {
        Some(Piece::Lexeme(Kind::Word, n))
    } else {
        None
    }
}

/// Whether the two byte strings are the same.
fn is(bytes: &[u8], word: &[u8]) -> bool
    ensures { result ≡ spec.same_bytes bytes.now word.now }
{
    bytes == word
}

/// Whether the bytes are a unit of time.
fn is_unit(bytes: &[u8]) -> bool
    ensures { result ≡ spec.is_unit bytes.now }
{
    is(bytes, b"ns")
        || is(bytes, b"us")
        || is(bytes, b"ms")
        || is(bytes, b"s")
        || is(bytes, b"m")
        || is(bytes, b"h")
        || is(bytes, b"d")
}

/// An Int or a Time, if the text begins with one.
#[tactic(auto, unfolding(crate::specs::Pieces::number_piece))]
fn number_piece(text: &[u8]) -> Option<Piece>
    ensures { result ≡ spec.number_piece text.now }
{
    let n = count_digits(text);
    let after = &text[n..];
    let m = count_word_bytes(after);
    if read_digits(&text[..n], u64::MAX).is_none() {
        None
    } else if m == 0 {
        Some(Piece::Lexeme(Kind::Int, n))
    } else if is_unit(&after[..m]) {
        Some(Piece::Lexeme(Kind::Time, n + m))
    } else {
        None
    }
}

/// A Text, of which the opening quote is taken off.
#[tactic(auto, unfolding(crate::specs::Pieces::text_piece))]
fn text_piece(rest: &[u8]) -> Option<Piece>
    ensures { result ≡ spec.text_piece rest.now }
{
    let n = count_text_bytes(rest);
    if opens(b'"', &rest[n..]) {
        Some(Piece::Lexeme(Kind::Text, n + 2))
    } else {
        None
    }
}

/// Whether the two bytes are punctuation.
fn is_pair(a: u8, b: u8) -> bool
    ensures { result ≡ spec.is_double_sign a b }
{
    (a == b'-' && b == b'>')
        || (a == b'<' && b == b'=')
        || (a == b'>' && b == b'=')
        || (a == b'=' && b == b'=')
        || (a == b'!' && b == b'=')
        || (a == b'&' && b == b'&')
        || (a == b'|' && b == b'|')
}

/// Whether the byte is punctuation by itself.
fn is_single(a: u8) -> bool
    ensures { result ≡ spec.is_single a }
{
    a == b'@'
        || a == b'/'
        || a == b','
        || a == b';'
        || a == b'='
        || a == b'('
        || a == b')'
        || a == b'['
        || a == b']'
        || a == b'{'
        || a == b'}'
        || a == b'<'
        || a == b'>'
        || a == b'!'
        || a == b'+'
}

/// Whether the first two bytes are punctuation.
fn opens_pair(text: &[u8]) -> bool
    ensures { result ≡ spec.opens_pair text.now }
{
    match text {
        [a, b, ..] => is_pair(*a, *b),
        _ => false,
    }
}

/// Whether the first byte is punctuation by itself.
fn opens_single(text: &[u8]) -> bool
    ensures { result ≡ spec.opens_single text.now }
{
    match text {
        [] => false,
        [a, ..] => is_single(*a),
    }
}

/// Punctuation, the longest that fits.
#[tactic(auto, unfolding(crate::specs::Pieces::punct_piece))]
fn punct_piece(text: &[u8]) -> Option<Piece>
    ensures { result ≡ spec.punct_piece text.now }
{
    if opens_pair(text) {
        Some(Piece::Lexeme(Kind::Punct, 2))
    } else if opens_single(text) {
        Some(Piece::Lexeme(Kind::Punct, 1))
    } else {
        None
    }
}

/// How many bytes there are up to and with the first `*/`.
fn closing(text: &[u8]) -> Option<usize>
    ensures count { result ≡ spec.closing text.now }
    ensures within { IfSome result (λ n. n ≤ length text.now) }
{
    let mut rest = text;
    let mut n = 0usize;
    while let [first, others @ ..] = rest {
        if *first == b'*' && opens(b'/', others) {
            return Some(n + 2);
        }
        n += 1;
        rest = others;
    }
    None
}

/// A comment, of which `/*` is taken off.
#[tactic(auto, unfolding(crate::specs::Pieces::comment_piece))]
fn comment_piece(rest: &[u8]) -> Option<Piece>
    ensures { result ≡ spec.comment_piece rest.now }
{
    match closing(rest) {
        None => None,
        Some(n) => Some(Piece::Comment(n + 2)),
    }
}

/// What begins the text; `line` says whether only blanks stand before it in its line.
#[tactic(auto, unfolding(crate::specs::Pieces::piece))]
pub(crate) fn piece_at(line: bool, text: &[u8]) -> Option<Piece>
    ensures { result ≡ spec.piece line text.now }
{
    let [first, others @ ..] = text else {
        return None;
    };
    let byte = *first;
    if byte == b'\n' {
        Some(Piece::Newline)
    } else if is_blank(byte) {
        Some(Piece::Blank)
    } else if line && byte == b'#' {
        Some(Piece::Skipped(count_line_bytes(text)))
    } else if byte == b'/' && opens(b'*', others) {
        comment_piece(&others[1..])
    } else if byte.is_ascii_alphabetic() {
        word_piece(text)
    } else if byte.is_ascii_digit() {
        number_piece(text)
    } else if byte == b'"' {
        text_piece(others)
    } else {
        punct_piece(text)
    }
}

/// How many bytes the piece has.
pub(crate) fn size(piece: Piece) -> usize
    ensures { result ≡ spec.size piece }
{
    match piece {
        Piece::Newline | Piece::Blank => 1,
        Piece::Skipped(n) | Piece::Comment(n) | Piece::Lexeme(_, n) => n,
    }
}

/// Whether only blanks stand before what follows the piece in its line.
pub(crate) fn line_after(line: bool, piece: Piece) -> bool
    ensures { result ≡ spec.line_after line piece }
{
    match piece {
        Piece::Newline => true,
        Piece::Blank => line,
        Piece::Skipped(_) | Piece::Comment(_) | Piece::Lexeme(..) => false,
    }
}

/// What follows the piece.
pub(crate) fn past(text: &[u8], piece: Piece) -> &[u8]
    requires { spec.size piece ≤ length text.now }
    ensures { result.now ≡ drop (spec.size piece) text.now }
{
    &text[size(piece)..]
}
