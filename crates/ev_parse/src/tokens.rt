//! The readers of one token.
ghost use Rattle.std.specs.Prelude.{◌≡◌, if◌then◌else◌, Ok, IfOk, IsTrue, Some, None};
ghost use Rattle.std.specs.Option.{option_copied};
ghost use Rattle.std.specs.Str.{IsAscii};
ghost use Rattle.std.specs.List.{list_all};
ghost use Rattle.std.specs.Char.{is_ascii_digit};
ghost use Rattle.fm_name.specs.Class.{is_class};
ghost use Rattle.ev_lex.specs.Bytes.{count_while, is_text_byte as is_text_byte_of};
ghost use Rattle.ev_tree.specs.Tok as tok;
ghost use Rattle.ev_parse.specs.Gives.{Gives, GivesRest};
ghost use Rattle.ev_parse.specs.Read.{opens_at, is as is_sign_of, is_word as is_word_of, sign_at};
ghost use Rattle.ev_parse.specs.Read.{word_at};
ghost use Rattle.ev_parse.specs.Reading.{is_int, opens_name, pick_name, pick_class, pick_int};
ghost use Rattle.ev_parse.specs.Reading.{pick_time, pick_text, pick_compare};
ghost use Rattle.ev_parse.specs.Reading.{comparison as comparison_of, name_at, class_at, int_at};
ghost use Rattle.ev_parse.specs.Reading.{time_at, text_at, compare_at};
ghost use Rattle.ev_parse.specs.Toks as spec;

use crate::stop::ParseStop;
use ev_lex::{Kind, Token};
use ev_tree::{Compare, TimeWord, TreeText, Unit};
use fm_bytes::{NoMemory, read_digits};
use fm_name::{Class, read_class};
use std::alloc::Global;

fn is(bytes: &[u8], word: &[u8]) -> bool
    ensures { result ≡ tok.same_bytes bytes.now word.now }
{
    bytes == word
}

/// The bytes of a token.
fn bytes_of(text: &[u8], token: Token) -> &[u8]
    ensures { result.now ≡ spec.token_bytes text.now token }
{
    let from = text.len().min(token.from as usize);
    let rest = &text[from..];
    let size = token.to.saturating_sub(token.from) as usize;
    &rest[..rest.len().min(size)]
}

fn is_reserved(word: &[u8]) -> bool
    ensures { result ≡ tok.is_reserved word.now }
{
    is(word, b"event")
        || is(word, b"engine")
        || is(word, b"prop")
        || is(word, b"confprop")
        || is(word, b"confprop_defined")
        || is(word, b"payloadprop")
}

fn is_name_byte(byte: u8) -> bool
    ensures { result ≡ tok.is_name_byte byte }
{
    byte.is_ascii_alphanumeric() || byte == b'_' || byte == b'-'
}

fn is_all_name(word: &[u8]) -> bool
    ensures { result ≡ list_all tok.is_name_byte word.now }
{
    word.iter().all(|b| is_name_byte(*b))
}

#[tactic(auto, unfolding(crate::specs::Toks::tok_of))]
fn is_sign(text: &[u8], token: Token, sign: &[u8]) -> bool
    ensures { result ≡ is_sign_of sign.now (spec.tok_of text.now token) }
{
    let bytes = bytes_of(text, token);
    match token.kind {
        Kind::Punct => is(bytes, sign),
        Kind::Word => is_reserved(bytes) && is(bytes, sign),
        _ => false,
    }
}

/// Whether the first token is this sign.
pub(crate) fn next_is(text: &[u8], tokens: &[Token], sign: &[u8]) -> bool
    ensures { result ≡ opens_at (is_sign_of sign.now) (spec.toks text.now tokens.now) }
{
    match tokens {
        [] => false,
        [token, ..] => is_sign(text, *token, sign),
    }
}

/// What follows a sign that has to stand here.
pub(crate) fn sign<'a>(
    text: &[u8],
    tokens: &'a [Token],
    sign: &[u8],
) -> Result<&'a [Token], ParseStop<'a>>
    ensures { GivesRest text.now result (sign_at sign.now (spec.toks text.now tokens.now)) }
{
    match tokens {
        [] => Err(ParseStop::At(tokens)),
        [token, rest @ ..] => {
            if is_sign(text, *token, sign) {
                Ok(rest)
            } else {
                Err(ParseStop::At(tokens))
            }
        }
    }
}

#[tactic(auto, unfolding(crate::specs::Toks::tok_of))]
fn is_word(text: &[u8], token: Token, word: &[u8]) -> bool
    ensures { result ≡ is_word_of word.now (spec.tok_of text.now token) }
{
    let bytes = bytes_of(text, token);
    match token.kind {
        Kind::Word => !is_reserved(bytes) && is_all_name(bytes) && is(bytes, word),
        _ => false,
    }
}

/// Whether the first token is this word, which is not reserved.
pub(crate) fn next_is_word(text: &[u8], tokens: &[Token], word: &[u8]) -> bool
    ensures { result ≡ opens_at (is_word_of word.now) (spec.toks text.now tokens.now) }
{
    match tokens {
        [] => false,
        [token, ..] => is_word(text, *token, word),
    }
}

/// What follows a word that has to stand here, and is not reserved.
pub(crate) fn word<'a>(
    text: &[u8],
    tokens: &'a [Token],
    word: &[u8],
) -> Result<&'a [Token], ParseStop<'a>>
    ensures { GivesRest text.now result (word_at word.now (spec.toks text.now tokens.now)) }
{
    match tokens {
        [] => Err(ParseStop::At(tokens)),
        [token, rest @ ..] => {
            if is_word(text, *token, word) {
                Ok(rest)
            } else {
                Err(ParseStop::At(tokens))
            }
        }
    }
}

/// Bytes below 128 as a text.
fn str_of(bytes: &[u8]) -> &str
    requires { IsAscii bytes.now }
    ensures { result.now ≡ bytes.now }
{
    match std::str::from_utf8(bytes) {
        Ok(text) => text,
        Err(_) => unreachable!(),
    }
}

#[tactic(auto, unfolding(crate::specs::Toks::tok_of), using(crate::proofs::Ascii::names_ascii))]
fn name_of(text: &[u8], token: Token) -> Option<&str>
    ensures { option_copied result ≡ pick_name (spec.tok_of text.now token) }
{
    let bytes = bytes_of(text, token);
    match token.kind {
        Kind::Word => {
            if is_reserved(bytes) {
                None
            } else if is_all_name(bytes) {
                Some(str_of(bytes))
            } else {
                None
            }
        }
        _ => None,
    }
}

/// A word as a class; `None` where it is none.
fn read_word(alloc: Global, bytes: &[u8]) -> Result<Option<Class>, NoMemory>
    ensures { IfOk result (λ found. found ≡ (if is_class bytes.now then Some bytes.now else None)) }
{
    match std::str::from_utf8(bytes) {
        Ok(text) => read_class(alloc, text),
        Err(_) => Ok(None),
    }
}

#[tactic(auto, unfolding(crate::specs::Toks::tok_of), using(crate::proofs::Meanings::class_picked))]
fn class_of(alloc: Global, text: &[u8], token: Token) -> Result<Option<Class>, NoMemory>
    ensures { IfOk result (λ found. found ≡ pick_class (spec.tok_of text.now token)) }
{
    let bytes = bytes_of(text, token);
    match token.kind {
        Kind::Word => {
            if is_reserved(bytes) || is_all_name(bytes) {
                Ok(None)
            } else {
                read_word(alloc, bytes)
            }
        }
        _ => Ok(None),
    }
}

/// The number that the token is.
#[tactic(auto, unfolding(crate::specs::Toks::tok_of), using(crate::proofs::Meanings::int_picked))]
fn int_of(text: &[u8], token: Token) -> Option<u64>
    ensures { result ≡ pick_int (spec.tok_of text.now token) }
{
    let bytes = bytes_of(text, token);
    match token.kind {
        Kind::Int => read_digits(bytes, u64::MAX),
        _ => None,
    }
}

fn count_digits(bytes: &[u8]) -> usize
    ensures { result ≡ count_while is_ascii_digit bytes.now }
{
    bytes.iter().take_while(|b| b.is_ascii_digit()).count()
}

fn unit_of(letters: &[u8]) -> Option<Unit>
    ensures { result ≡ spec.unit_of letters.now }
{
    if is(letters, b"ns") {
        Some(Unit::Ns)
    } else if is(letters, b"us") {
        Some(Unit::Us)
    } else if is(letters, b"ms") {
        Some(Unit::Ms)
    } else if is(letters, b"s") {
        Some(Unit::S)
    } else if is(letters, b"m") {
        Some(Unit::M)
    } else if is(letters, b"h") {
        Some(Unit::H)
    } else if is(letters, b"d") {
        Some(Unit::D)
    } else {
        None
    }
}

#[tactic(auto, unfolding(crate::specs::Toks::time_meaning))]
fn time_word(bytes: &[u8]) -> Option<TimeWord>
    ensures { result ≡ pick_time (spec.time_meaning bytes.now) }
{
    let n = count_digits(bytes);
    match unit_of(&bytes[n..]) {
        None => None,
        Some(unit) => match read_digits(&bytes[..n], u64::MAX) {
            None => None,
            Some(number) => Some(TimeWord { number, unit }),
        },
    }
}

#[tactic(auto, unfolding(crate::specs::Toks::tok_of))]
fn time_of(text: &[u8], token: Token) -> Option<TimeWord>
    ensures { result ≡ pick_time (spec.tok_of text.now token) }
{
    let bytes = bytes_of(text, token);
    match token.kind {
        Kind::Time => time_word(bytes),
        _ => None,
    }
}

fn is_text_byte(byte: u8) -> bool
    ensures { result ≡ is_text_byte_of byte }
{
    byte >= 0x20 && byte <= 0x7e && byte != b'"' && byte != b'\\'
}

fn is_all_text(bytes: &[u8]) -> bool
    ensures { result ≡ list_all is_text_byte_of bytes.now }
{
    bytes.iter().all(|b| is_text_byte(*b))
}

/// What stands between the quotes.
fn inner(bytes: &[u8]) -> &[u8]
    ensures { result.now ≡ spec.inner bytes.now }
{
    let rest = &bytes[bytes.len().min(1)..];
    &rest[..rest.len().min(bytes.len().saturating_sub(2))]
}

#[tactic(auto, unfolding(crate::specs::Toks::tok_of), using(crate::proofs::Ascii::texts_ascii))]
fn text_of(text: &[u8], token: Token) -> Option<&str>
    ensures { option_copied result ≡ pick_text (spec.tok_of text.now token) }
{
    let bytes = bytes_of(text, token);
    match token.kind {
        Kind::Text => {
            let content = inner(bytes);
            if is_all_text(content) {
                Some(str_of(content))
            } else {
                None
            }
        }
        _ => None,
    }
}

fn comparison(sign: &[u8]) -> Option<Compare>
    ensures { result ≡ comparison_of sign.now }
{
    if is(sign, b"==") {
        Some(Compare::Eq)
    } else if is(sign, b"!=") {
        Some(Compare::Ne)
    } else if is(sign, b"<") {
        Some(Compare::Lt)
    } else if is(sign, b"<=") {
        Some(Compare::Le)
    } else if is(sign, b">") {
        Some(Compare::Gt)
    } else if is(sign, b">=") {
        Some(Compare::Ge)
    } else {
        None
    }
}

#[tactic(auto, unfolding(crate::specs::Toks::tok_of))]
fn compare_of(text: &[u8], token: Token) -> Option<Compare>
    ensures { result ≡ pick_compare (spec.tok_of text.now token) }
{
    let bytes = bytes_of(text, token);
    match token.kind {
        Kind::Punct => comparison(bytes),
        Kind::Word => {
            if is_reserved(bytes) {
                comparison(bytes)
            } else {
                None
            }
        }
        _ => None,
    }
}

/// Whether the first token is a number.
pub(crate) fn next_is_int(text: &[u8], tokens: &[Token]) -> bool
    ensures { result ≡ opens_at is_int (spec.toks text.now tokens.now) }
{
    match tokens {
        [] => false,
        [token, ..] => int_of(text, *token).is_some(),
    }
}

/// Whether the first token is a name.
pub(crate) fn next_is_name(text: &[u8], tokens: &[Token]) -> bool
    ensures { result ≡ opens_at opens_name (spec.toks text.now tokens.now) }
{
    match tokens {
        [] => false,
        [token, ..] => name_of(text, *token).is_some(),
    }
}

/// A name.
#[tactic(auto, unfolding(crate::specs::Reading::name_at))]
pub(crate) fn name<'a>(
    alloc: Global,
    text: &[u8],
    tokens: &'a [Token],
) -> Result<(TreeText, &'a [Token]), ParseStop<'a>>
    ensures { Gives text.now (λ n. n) result (name_at (spec.toks text.now tokens.now)) }
{
    match tokens {
        [] => Err(ParseStop::At(tokens)),
        [token, rest @ ..] => match name_of(text, *token) {
            None => Err(ParseStop::At(tokens)),
            Some(name) => {
                let name = TreeText::new(alloc, name)?;
                Ok((name, rest))
            }
        },
    }
}

/// A class.
#[tactic(auto, unfolding(crate::specs::Reading::class_at))]
pub(crate) fn class<'a>(
    alloc: Global,
    text: &[u8],
    tokens: &'a [Token],
) -> Result<(Class, &'a [Token]), ParseStop<'a>>
    ensures { Gives text.now (λ c. c) result (class_at (spec.toks text.now tokens.now)) }
{
    match tokens {
        [] => Err(ParseStop::At(tokens)),
        [token, rest @ ..] => match class_of(alloc, text, *token)? {
            None => Err(ParseStop::At(tokens)),
            Some(class) => Ok((class, rest)),
        },
    }
}

/// A number.
#[tactic(auto, unfolding(crate::specs::Reading::int_at))]
pub(crate) fn int<'a>(text: &[u8], tokens: &'a [Token]) -> Result<(u64, &'a [Token]), ParseStop<'a>>
    ensures { Gives text.now (λ n. n) result (int_at (spec.toks text.now tokens.now)) }
{
    match tokens {
        [] => Err(ParseStop::At(tokens)),
        [token, rest @ ..] => match int_of(text, *token) {
            None => Err(ParseStop::At(tokens)),
            Some(number) => Ok((number, rest)),
        },
    }
}

/// A time.
#[tactic(auto, unfolding(crate::specs::Reading::time_at))]
pub(crate) fn time<'a>(
    text: &[u8],
    tokens: &'a [Token],
) -> Result<(TimeWord, &'a [Token]), ParseStop<'a>>
    ensures { Gives text.now (λ w. w) result (time_at (spec.toks text.now tokens.now)) }
{
    match tokens {
        [] => Err(ParseStop::At(tokens)),
        [token, rest @ ..] => match time_of(text, *token) {
            None => Err(ParseStop::At(tokens)),
            Some(time) => Ok((time, rest)),
        },
    }
}

/// A quoted text.
#[tactic(auto, unfolding(crate::specs::Reading::text_at))]
pub(crate) fn quoted<'a>(
    alloc: Global,
    text: &[u8],
    tokens: &'a [Token],
) -> Result<(TreeText, &'a [Token]), ParseStop<'a>>
    ensures { Gives text.now (λ t. t) result (text_at (spec.toks text.now tokens.now)) }
{
    match tokens {
        [] => Err(ParseStop::At(tokens)),
        [token, rest @ ..] => match text_of(text, *token) {
            None => Err(ParseStop::At(tokens)),
            Some(content) => {
                let content = TreeText::new(alloc, content)?;
                Ok((content, rest))
            }
        },
    }
}

/// A comparison.
#[tactic(auto, unfolding(crate::specs::Reading::compare_at))]
pub(crate) fn compare<'a>(
    text: &[u8],
    tokens: &'a [Token],
) -> Result<(Compare, &'a [Token]), ParseStop<'a>>
    ensures { Gives text.now (λ c. c) result (compare_at (spec.toks text.now tokens.now)) }
{
    match tokens {
        [] => Err(ParseStop::At(tokens)),
        [token, rest @ ..] => match compare_of(text, *token) {
            None => Err(ParseStop::At(tokens)),
            Some(compare) => Ok((compare, rest)),
        },
    }
}
