// The words of a line: numbers, texts and bytes as a script writes them.
use crate::fault::ScriptFault;
use std::alloc::Global;

/// The first word of a text, and what is behind the blank after it.
pub fn first_word(text: &str) -> (&str, &str) {
    text.split_once(' ').unwrap_or((text, ""))
}

/// The number that a word says.
pub fn number_in(word: &str) -> Result<u64, ScriptFault> {
    match word.parse::<u64>() {
        Ok(number) => Ok(number),
        Err(_) => Err(ScriptFault::Words),
    }
}

/// The number below 2^32 that a word says.
pub fn small_in(word: &str) -> Result<u32, ScriptFault> {
    match word.parse::<u32>() {
        Ok(number) => Ok(number),
        Err(_) => Err(ScriptFault::Words),
    }
}

/// The byte of two hexadecimal digits.
fn byte_in(digits: &str) -> Result<u8, ScriptFault> {
    match u8::from_str_radix(digits, 16) {
        Ok(byte) => Ok(byte),
        Err(_) => Err(ScriptFault::Words),
    }
}

/// The text that bytes are.
pub fn text_of(bytes: &[u8]) -> Result<&str, ScriptFault> {
    match str::from_utf8(bytes) {
        Ok(text) => Ok(text),
        Err(_) => Err(ScriptFault::Words),
    }
}

/// Appends bytes so many times.
fn put_times(count: &str, piece: &[u8], bytes: &mut Vec<u8>) -> Result<(), ScriptFault> {
    for _ in 0..number_in(count)? {
        bytes.extend_from_slice(piece)?;
    }
    Ok(())
}

/// Appends what `%(` begins: a text so many times, and what is behind it.
fn put_repeated(piece: &str, bytes: &mut Vec<u8>) -> Result<(), ScriptFault> {
    let (inner, behind) = piece.split_once(')').ok_or(ScriptFault::Words)?;
    let (count, text) = inner.split_once(' ').ok_or(ScriptFault::Words)?;
    put_times(count, text.as_bytes(), bytes)?;
    bytes.extend_from_slice(behind.as_bytes())?;
    Ok(())
}

/// Appends what `%` begins with two digits: a byte, and what is behind it.
fn put_escaped(piece: &str, bytes: &mut Vec<u8>) -> Result<(), ScriptFault> {
    let (digits, behind) = piece.split_at_checked(2).ok_or(ScriptFault::Words)?;
    bytes.push(byte_in(digits)?)?;
    bytes.extend_from_slice(behind.as_bytes())?;
    Ok(())
}

/// The bytes of a text, in which `%HH` is a byte and `%(COUNT TEXT)` a text so many times.
pub fn text_in(alloc: Global, text: &str) -> Result<Vec<u8>, ScriptFault> {
    let mut bytes = Vec::new(alloc);
    for (place, piece) in text.split('%').enumerate() {
        if place == 0 {
            bytes.extend_from_slice(piece.as_bytes())?;
            continue;
        }
        match piece.strip_prefix('(') {
            Some(piece) => put_repeated(piece, &mut bytes)?,
            None => put_escaped(piece, &mut bytes)?,
        }
    }
    Ok(bytes)
}
