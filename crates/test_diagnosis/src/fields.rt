// States spelled field by field: what each field has is a word of a text, as `time=12`, with commas
// between the numbers of a list.

use std::alloc::Global;
use test_words::{ScriptFault, number_in};

/// The events of a state are at the first parts of four names, numbered in this order.
const PATHS: [&str; 4] = ["hc:///a=0", "hc:///b=0", "hc:///c=0", "hc:///d=0"];

/// The fields of a state with one open case and one solved one, of which each engine keeps the same
/// moments: those of one text, and else those of another.
#[derive(Clone, Copy, Drop)]
pub struct Fields<'a> {
    pub changed: &'a str,
    pub lawful: &'a str,
}

/// What a text says of a field.
fn said_of<'a>(text: &'a str, name: &str) -> Option<&'a str> {
    for word in text.split_whitespace() {
        if let Some((field, numbers)) = word.split_once('=') {
            if field == name {
                return Some(numbers);
            }
        }
    }
    None
}

/// The numbers between the commas of a text.
fn numbers_in(alloc: Global, text: &str) -> Result<Vec<u64>, ScriptFault> {
    let mut numbers = Vec::new(alloc);
    if text.is_empty() {
        return Ok(numbers);
    }
    for word in text.split(',') {
        numbers.push(number_in(word)?)?;
    }
    Ok(numbers)
}

impl Fields<'_> {
    fn text(&self, name: &str) -> Result<&str, ScriptFault> {
        match said_of(self.changed, name) {
            Some(text) => Ok(text),
            None => said_of(self.lawful, name).ok_or(ScriptFault::Words),
        }
    }

    fn one(&self, name: &str) -> Result<u64, ScriptFault> {
        number_in(self.text(name)?)
    }

    fn list(&self, alloc: Global, name: &str) -> Result<Vec<u64>, ScriptFault> {
        numbers_in(alloc, self.text(name)?)
    }
}

fn put_8(out: &mut Vec<u8>, value: u64) -> Result<(), ScriptFault> {
    out.extend_from_slice(&[(value & 255) as u8])?;
    Ok(())
}

fn put_16(out: &mut Vec<u8>, value: u64) -> Result<(), ScriptFault> {
    out.extend_from_slice(&((value & 65_535) as u16).to_be_bytes())?;
    Ok(())
}

fn put_32(out: &mut Vec<u8>, value: u64) -> Result<(), ScriptFault> {
    out.extend_from_slice(&((value & 0xffff_ffff) as u32).to_be_bytes())?;
    Ok(())
}

fn put_64(out: &mut Vec<u8>, value: u64) -> Result<(), ScriptFault> {
    out.extend_from_slice(&value.to_be_bytes())?;
    Ok(())
}

fn put_each_32(out: &mut Vec<u8>, values: &[u64]) -> Result<(), ScriptFault> {
    for value in values {
        put_32(out, *value)?;
    }
    Ok(())
}

fn put_each_64(out: &mut Vec<u8>, values: &[u64]) -> Result<(), ScriptFault> {
    for value in values {
        put_64(out, *value)?;
    }
    Ok(())
}

fn put_text(out: &mut Vec<u8>, text: &str) -> Result<(), ScriptFault> {
    put_16(out, text.len() as u64)?;
    out.extend_from_slice(text.as_bytes())?;
    Ok(())
}

fn put_event(out: &mut Vec<u8>, class: &str, number: u64) -> Result<(), ScriptFault> {
    let path = PATHS.get((number & 3) as usize).copied().unwrap_or("");
    put_text(out, class)?;
    put_text(out, path)
}

fn put_events(out: &mut Vec<u8>, class: &str, numbers: &[u64]) -> Result<(), ScriptFault> {
    for number in numbers {
        put_event(out, class, *number)?;
    }
    Ok(())
}

/// The one open case. Its links are pairs of numbers, which stand there where the first byte is 2.
fn put_open(alloc: Global, fields: &Fields<'_>, out: &mut Vec<u8>) -> Result<(), ScriptFault> {
    let entries = fields.list(alloc, "entries")?;
    let observed = fields.list(alloc, "observed")?;
    let links = fields.list(alloc, "links")?;
    put_64(out, 1)?;
    put_64(out, fields.one("number")?)?;
    put_64(out, fields.one("opened")?)?;
    put_64(out, entries.len() as u64)?;
    put_each_64(out, entries.as_slice())?;
    put_32(out, observed.len() as u64)?;
    put_each_32(out, observed.as_slice())?;
    if fields.one("first")? == 2 {
        put_32(out, links.len() as u64 / 2)?;
        put_each_32(out, links.as_slice())?;
    }
    Ok(())
}

/// The suspects of the word; the first has the mark.
fn put_suspects(
    fields: &Fields<'_>,
    suspects: &[u64],
    out: &mut Vec<u8>,
) -> Result<(), ScriptFault> {
    let mut mark = fields.one("mark")?;
    for number in suspects {
        put_event(out, "fault.part.dead", *number)?;
        put_8(out, fields.one("certainty")?)?;
        put_8(out, fields.one("retire")?)?;
        put_8(out, mark)?;
        mark = 0;
    }
    Ok(())
}

/// The word of the one solved case.
fn put_solved(alloc: Global, fields: &Fields<'_>, out: &mut Vec<u8>) -> Result<(), ScriptFault> {
    let seen = fields.list(alloc, "seen")?;
    let suspects = fields.list(alloc, "suspects")?;
    put_64(out, 1)?;
    put_8(out, fields.one("kind")?)?;
    put_32(out, fields.one("module")?)?;
    put_64(out, fields.one("solved")?)?;
    put_64(out, fields.one("moment")?)?;
    put_32(out, fields.one("under")?)?;
    put_32(out, seen.len() as u64)?;
    put_events(out, "ereport.part.seen", seen.as_slice())?;
    put_32(out, suspects.len() as u64)?;
    put_suspects(fields, suspects.as_slice(), out)
}

/// The engines, each with the same moments.
fn put_engines(alloc: Global, fields: &Fields<'_>, out: &mut Vec<u8>) -> Result<(), ScriptFault> {
    let moments = fields.list(alloc, "moments")?;
    let engines = fields.one("engines")?;
    put_32(out, engines)?;
    for _engine in 0..engines {
        put_16(out, moments.len() as u64)?;
        put_each_64(out, moments.as_slice())?;
    }
    Ok(())
}

/// The bytes of a state.
pub fn spell(alloc: Global, fields: &Fields<'_>) -> Result<Vec<u8>, ScriptFault> {
    let mut out = Vec::new(alloc);
    put_8(&mut out, fields.one("first")?)?;
    put_32(&mut out, fields.one("conf")?)?;
    put_64(&mut out, fields.one("time")?)?;
    put_64(&mut out, fields.one("next")?)?;
    put_open(alloc, fields, &mut out)?;
    put_solved(alloc, fields, &mut out)?;
    put_engines(alloc, fields, &mut out)?;
    Ok(out)
}
