// Texts as a script writes and shows them: `\n` is a newline, `\0` the byte 0, `\xHH` a byte, and
// `\*COUNT;HH` so many times a byte.
use std::alloc::Global;
use test_words::{ScriptFault, small_in};

/// Appends a byte so many times, and then a text.
fn push_times(byte: u8, count: u32, rest: &str, bytes: &mut Vec<u8>) -> Result<(), ScriptFault> {
    for _ in 0..count {
        bytes.push(byte)?;
    }
    Ok(bytes.extend_from_slice(rest.as_bytes())?)
}

/// Appends so many times the byte of the two digits at the front, and then the rest.
fn push_digits(count: u32, text: &str, bytes: &mut Vec<u8>) -> Result<(), ScriptFault> {
    let (digits, rest) = text.split_at_checked(2).ok_or(ScriptFault::Words)?;
    match u8::from_str_radix(digits, 16) {
        Ok(byte) => push_times(byte, count, rest, bytes),
        Err(_) => Err(ScriptFault::Words),
    }
}

/// Appends what stands behind a `\`.
fn push_escaped(piece: &str, bytes: &mut Vec<u8>) -> Result<(), ScriptFault> {
    let (sign, rest) = piece.split_at_checked(1).ok_or(ScriptFault::Words)?;
    match sign {
        "n" => push_times(b'\n', 1, rest, bytes),
        "0" => push_times(0, 1, rest, bytes),
        "x" => push_digits(1, rest, bytes),
        "*" => {
            let (count, digits) = rest.split_once(';').ok_or(ScriptFault::Words)?;
            push_digits(small_in(count)?, digits, bytes)
        }
        _ => Err(ScriptFault::Words),
    }
}

/// Appends the bytes of a text as a script writes it.
pub fn push_text(written: &str, bytes: &mut Vec<u8>) -> Result<(), ScriptFault> {
    for (place, piece) in written.split('\\').enumerate() {
        if place == 0 {
            bytes.extend_from_slice(piece.as_bytes())?;
        } else {
            push_escaped(piece, bytes)?;
        }
    }
    Ok(())
}

/// The bytes of a text as a script writes it.
pub fn bytes_in(alloc: Global, written: &str) -> Result<Vec<u8>, ScriptFault> {
    let mut bytes = Vec::new(alloc);
    push_text(written, &mut bytes)?;
    Ok(bytes)
}

/// A text with `\n` for each newline.
pub fn shown(alloc: Global, text: &str) -> Result<String, ScriptFault> {
    let mut shown = String::new(alloc);
    for (place, line) in text.split('\n').enumerate() {
        if place > 0 {
            shown.push_str("\\n")?;
        }
        shown.push_str(line)?;
    }
    Ok(shown)
}

/// The same of bytes that are a text.
pub fn shown_bytes(alloc: Global, bytes: &[u8]) -> Result<String, ScriptFault> {
    match str::from_utf8(bytes) {
        Ok(text) => shown(alloc, text),
        Err(_) => Ok(String::from_str(alloc, "no text")?),
    }
}
