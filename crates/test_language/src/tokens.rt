// The tokens of a text.
use crate::words::or_none;
use ev_lex::{Kind, LexFault, Token, lex};
use std::alloc::{AllocError, Global};
use test_words::ScriptFault;

/// The letter that stands for a kind.
fn letter(kind: Kind) -> char {
    match kind {
        Kind::Word => 'w',
        Kind::Int => 'i',
        Kind::Time => 't',
        Kind::Text => 'x',
        Kind::Punct => 'p',
    }
}

/// Puts each token as the letter of its kind and its two places.
fn put_tokens(tokens: &[Token], line: &mut String) -> Result<(), AllocError> {
    for token in tokens {
        let Token { kind, from, to } = *token;
        if !line.is_empty() {
            line.push(' ')?;
        }
        line.push(letter(kind))?;
        write!(line, "{from}-{to}")?;
    }
    Ok(())
}

/// The tokens of a text, or where its fault is.
pub fn tokens(alloc: Global, text: &[u8]) -> Result<String, ScriptFault> {
    if text.len() > 1048576 {
        return Err(ScriptFault::Words);
    }
    let mut line = String::new(alloc);
    match lex(alloc, text) {
        Ok(tokens) => put_tokens(&tokens, &mut line)?,
        Err(LexFault::At { place }) => write!(&mut line, "at {place}")?,
        Err(LexFault::NoMemory) => return Err(ScriptFault::NoMemory),
    }
    or_none(alloc, line)
}
