// Numbers, bytes and answers as the program writes them.
use crate::fault::ScriptFault;

/// Appends a number in decimal digits.
pub fn show_number(number: u64, out: &mut String) -> Result<(), ScriptFault> {
    write!(out, "{number}")?;
    Ok(())
}

/// Appends a number and a blank.
pub fn show_item(number: u64, out: &mut String) -> Result<(), ScriptFault> {
    show_number(number, out)?;
    out.push_str(" ")?;
    Ok(())
}

/// Appends a word, and a number behind it.
pub fn show_count(word: &str, number: usize, out: &mut String) -> Result<(), ScriptFault> {
    out.push_str(word)?;
    out.push_str(" ")?;
    show_number(number as u64, out)
}

/// Appends a number, or `none`.
pub fn show_found(number: Option<u64>, out: &mut String) -> Result<(), ScriptFault> {
    match number {
        Some(number) => show_number(number, out),
        None => Ok(out.push_str("none")?),
    }
}

/// Appends `yes` or `no`.
pub fn show_whether(is_so: bool, out: &mut String) -> Result<(), ScriptFault> {
    out.push_str(if is_so { "yes" } else { "no" })?;
    Ok(())
}

/// Appends bytes in hexadecimal digits.
pub fn show_bytes(bytes: &[u8], out: &mut String) -> Result<(), ScriptFault> {
    for byte in bytes {
        write!(out, "{byte:02x}")?;
    }
    Ok(())
}

/// Appends whether bytes are those that are wanted, or the first place where not.
pub fn show_difference(found: &[u8], wanted: &[u8], out: &mut String) -> Result<(), ScriptFault> {
    match first_difference(found, wanted) {
        Some(place) => show_count("not from", place, out),
        None => Ok(out.push_str("yes")?),
    }
}

/// The first place at which two lists of bytes differ.
fn first_difference(found: &[u8], wanted: &[u8]) -> Option<usize> {
    for at in 0..found.len().max(wanted.len()) {
        if found.get(at) != wanted.get(at) {
            return Some(at);
        }
    }
    None
}

/// Appends a text line by line, each on a line of its own behind `| `.
pub fn show_lines(text: &str, out: &mut String) -> Result<(), ScriptFault> {
    if text.is_empty() {
        out.push_str("nothing")?;
    }
    for line in text.lines() {
        out.push_str("\n| ")?;
        out.push_str(line)?;
    }
    Ok(())
}
