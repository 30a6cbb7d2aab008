// Lines: the entry of each or its fault, and how streams fall into lines.
use fm_entry::Entry;
use fm_line::{LineFault, Splitter, Whole, is_blank_line, print_line, print_payload, read_line};
use std::alloc::Global;
use test_words::{ScriptFault, first_word, number_in, show_count, show_number, text_of};

/// Appends the number of a fault.
fn show_fault(fault: LineFault, out: &mut String) -> Result<(), ScriptFault> {
    match fault.code() {
        Some(code) => show_number(u64::from(code), out),
        None => Err(ScriptFault::NoMemory),
    }
}

/// Appends the entry of a line, printed as a line again, or the number of its fault.
pub fn show_entry(alloc: Global, line: &[u8], out: &mut String) -> Result<(), ScriptFault> {
    match read_line(alloc, line) {
        Ok(entry) => {
            let mut printed = Vec::new(alloc);
            print_line(alloc, &entry, &mut printed)?;
            Ok(out.push_str(text_of(&printed)?)?)
        }
        Err(fault) => show_fault(fault, out),
    }
}

/// The line of a report with this payload, in the JSON form.
fn with_payload(alloc: Global, payload: &str) -> Result<Vec<u8>, ScriptFault> {
    let mut line = Vec::new(alloc);
    line.extend_from_slice(b"{\"class\":\"ereport.a.b\",\"path\":\"hc:///c=0\",\"payload\":")?;
    line.extend_from_slice(payload.as_bytes())?;
    line.extend_from_slice(b",\"time\":1}")?;
    Ok(line)
}

/// Appends what the line of a report with this payload comes to.
pub fn show_payload(alloc: Global, payload: &str, out: &mut String) -> Result<(), ScriptFault> {
    show_entry(alloc, &with_payload(alloc, payload)?, out)
}

/// Appends this payload, read in a line and printed by itself.
pub fn show_printed(alloc: Global, payload: &str, out: &mut String) -> Result<(), ScriptFault> {
    let mut printed = Vec::new(alloc);
    match read_line(alloc, &with_payload(alloc, payload)?) {
        Ok(Entry::Report { payload, .. }) => print_payload(alloc, &payload, &mut printed)?,
        Ok(_) => return Err(ScriptFault::Words),
        Err(fault) => return show_fault(fault, out),
    }
    out.push_str(text_of(&printed)?)?;
    Ok(())
}

/// The byte that stands more than a hundred times, where a line is nothing else.
fn repeated(line: &[u8]) -> Option<u8> {
    let first = *line.first()?;
    if line.len() > 100 && line.iter().all(|byte| *byte == first) {
        Some(first)
    } else {
        None
    }
}

/// Appends a line, in which a carriage return is `%0d`.
fn show_text(line: &str, out: &mut String) -> Result<(), ScriptFault> {
    for (at, piece) in line.split('\r').enumerate() {
        if at > 0 {
            out.push_str("%0d")?;
        }
        out.push_str(piece)?;
    }
    Ok(())
}

/// Appends a line in brackets, and one of a byte that is repeated by its length.
fn show_kept(line: &[u8], out: &mut String) -> Result<(), ScriptFault> {
    match repeated(line) {
        Some(byte) => write!(out, "[{} times {}]", line.len(), char::from(byte))?,
        None => {
            out.push_str("[")?;
            show_text(text_of(line)?, out)?;
            out.push_str("]")?;
        }
    }
    Ok(())
}

/// Appends a line that ended: `!` where it was too long, and `_` where it is blank.
fn show_whole(splitter: &Splitter, whole: Whole, out: &mut String) -> Result<(), ScriptFault> {
    match whole {
        Whole::TooLong => Ok(out.push_str("!")?),
        Whole::Line if is_blank_line(splitter.line()) => Ok(out.push_str("_")?),
        Whole::Line => show_kept(splitter.line(), out),
    }
}

/// Takes a piece, and appends each line that ends.
fn take_piece(splitter: &mut Splitter, piece: &[u8], out: &mut String) -> Result<(), ScriptFault> {
    let mut rest = piece;
    for _ in 0..piece.len() {
        if rest.is_empty() {
            return Ok(());
        }
        let (taken, whole) = splitter.take(rest);
        if let Some(whole) = whole {
            show_whole(splitter, whole, out)?;
        }
        rest = &rest[taken..];
    }
    Ok(())
}

/// Appends the lines of a stream that comes in two pieces.
fn show_two(alloc: Global, input: &[u8], at: usize, out: &mut String) -> Result<(), ScriptFault> {
    let mut splitter = Splitter::new(alloc)?;
    let (first, second) = input.split_at_checked(at).unwrap_or((input, b""));
    take_piece(&mut splitter, first, out)?;
    take_piece(&mut splitter, second, out)?;
    match splitter.finish() {
        Some(whole) => show_whole(&splitter, whole, out),
        None => Ok(()),
    }
}

/// Whether the lines of a stream are these, where it is cut at a place.
fn has_lines(alloc: Global, input: &[u8], at: usize, lines: &str) -> Result<bool, ScriptFault> {
    let mut found = String::new(alloc);
    show_two(alloc, input, at, &mut found)?;
    Ok(found.as_str() == lines)
}

/// Appends the lines of a stream in one piece, and at how many places it may be cut.
pub fn show_stream(alloc: Global, input: &[u8], out: &mut String) -> Result<(), ScriptFault> {
    let mut lines = String::new(alloc);
    show_two(alloc, input, input.len(), &mut lines)?;
    let mut count: usize = 0;
    for at in 0..input.len() {
        if has_lines(alloc, input, at, &lines)? {
            count = count.saturating_add(1);
        }
    }
    out.push_str(&lines)?;
    show_count(" cut at", count, out)?;
    show_count(" of", input.len(), out)
}

/// Appends the lines of a stream that is cut at each of some places.
pub fn show_cuts(alloc: Global, text: &str, out: &mut String) -> Result<(), ScriptFault> {
    let (places, input) = first_word(text);
    for place in places.split(',') {
        out.push_str(" ")?;
        show_two(alloc, input.as_bytes(), number_in(place)? as usize, out)?;
    }
    Ok(())
}

/// How a piece left a line.
fn whole_word(whole: Option<Whole>) -> &'static str {
    match whole {
        Some(Whole::TooLong) => " too long, ",
        Some(Whole::Line) => " a line, ",
        None => " none, ",
    }
}

/// Appends how much of each of some pieces is taken at once, and the line that is left.
pub fn show_taken(alloc: Global, pieces: &str, out: &mut String) -> Result<(), ScriptFault> {
    let mut splitter = Splitter::new(alloc)?;
    for piece in pieces.split('|') {
        let (taken, whole) = splitter.take(piece.as_bytes());
        show_number(taken as u64, out)?;
        out.push_str(whole_word(whole))?;
    }
    show_count("line", splitter.line().len(), out)?;
    out.push_str(whole_word(splitter.finish()))?;
    Ok(())
}
