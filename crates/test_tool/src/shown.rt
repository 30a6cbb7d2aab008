// Bytes, and whether something holds, as the program writes them.
use crate::undone::Undone;

/// The word for whether something holds.
pub fn yes_or_no(holds: bool) -> &'static str {
    if holds { "yes" } else { "no" }
}

/// Appends a byte: as `\xHH` where it is `\` or none that is seen.
fn show_byte(byte: u8, out: &mut String) -> Result<(), Undone> {
    match byte {
        b'\\' => out.push_str("\\x5c")?,
        b'\n' | 0x20..=0x7e => out.push(char::from(byte))?,
        _ => write!(out, "\\x{byte:02x}")?,
    }
    Ok(())
}

/// Appends bytes line by line, each behind `| `, and the last with a `\` where it has no newline.
pub fn show(bytes: &[u8], out: &mut String) -> Result<(), Undone> {
    let mut begins = true;
    for byte in bytes {
        if begins {
            out.push_str("| ")?;
        }
        show_byte(*byte, out)?;
        begins = *byte == b'\n';
    }
    if !begins {
        out.push_str("\\\n")?;
    }
    Ok(())
}
