// What bytes spell, read, copied and written again.
use fm_bytes::Copies;
use fm_entry::{read_case_name, read_entry, read_spoken, write_entry, write_spoken};
use fm_nv::{read_nv, write_nv};
use fm_saved::{read_checkpoint, read_conf, write_checkpoint, write_conf};
use std::alloc::Global;
use test_words::{ScriptFault, show_bytes, show_count};

fn list_again(alloc: Global, bytes: &[u8], out: &mut Vec<u8>) -> Result<bool, ScriptFault> {
    match read_nv(alloc, bytes)? {
        Some((list, _)) => write_nv(&list.copy(alloc)?, out)?,
        None => return Ok(false),
    }
    Ok(true)
}

fn entry_again(alloc: Global, bytes: &[u8], out: &mut Vec<u8>) -> Result<bool, ScriptFault> {
    match read_entry(alloc, bytes)? {
        Some(entry) => write_entry(&entry.copy(alloc)?, out)?,
        None => return Ok(false),
    }
    Ok(true)
}

fn spoken_again(alloc: Global, bytes: &[u8], out: &mut Vec<u8>) -> Result<bool, ScriptFault> {
    match read_spoken(alloc, bytes)? {
        Some(spoken) => write_spoken(&spoken.copy(alloc)?, out)?,
        None => return Ok(false),
    }
    Ok(true)
}

fn conf_again(alloc: Global, bytes: &[u8], out: &mut Vec<u8>) -> Result<bool, ScriptFault> {
    match read_conf(alloc, bytes)? {
        Some(conf) => write_conf(&conf.copy(alloc)?, out)?,
        None => return Ok(false),
    }
    Ok(true)
}

fn checkpoint_again(alloc: Global, bytes: &[u8], out: &mut Vec<u8>) -> Result<bool, ScriptFault> {
    match read_checkpoint(alloc, bytes)? {
        Some(checkpoint) => write_checkpoint(&checkpoint.copy(alloc)?, out)?,
        None => return Ok(false),
    }
    Ok(true)
}

/// Appends the bytes of what bytes spell, and says whether they spell something of this kind.
fn put_again(
    alloc: Global,
    kind: &str,
    bytes: &[u8],
    out: &mut Vec<u8>,
) -> Result<bool, ScriptFault> {
    match kind {
        "list" => list_again(alloc, bytes, out),
        "entry" => entry_again(alloc, bytes, out),
        "spoken" => spoken_again(alloc, bytes, out),
        "conf" => conf_again(alloc, bytes, out),
        "checkpoint" => checkpoint_again(alloc, bytes, out),
        _ => Err(ScriptFault::Words),
    }
}

/// Whether bytes spell something of this kind, which is written as they are, or how else.
pub fn show_again(
    alloc: Global,
    kind: &str,
    bytes: &[u8],
    out: &mut String,
) -> Result<(), ScriptFault> {
    let mut again = Vec::new(alloc);
    if !put_again(alloc, kind, bytes, &mut again)? {
        return Err(ScriptFault::NoSpelling);
    }
    if again.as_slice() == bytes {
        return Ok(out.push_str("the same again")?);
    }
    out.push_str("again ")?;
    show_bytes(&again, out)
}

/// How many fronts of the bytes spell something of this kind.
pub fn show_fronts(
    alloc: Global,
    kind: &str,
    bytes: &[u8],
    out: &mut String,
) -> Result<(), ScriptFault> {
    let mut count: usize = 0;
    for end in 0..bytes.len() {
        if put_again(alloc, kind, &bytes[..end], &mut Vec::new(alloc))? {
            count = count.saturating_add(1);
        }
    }
    show_count("spelling", count, out)?;
    show_count(" of", bytes.len(), out)
}

/// The module and the number of a case's name, which is copied.
pub fn show_case_name(text: &str, out: &mut String) -> Result<(), ScriptFault> {
    let case = read_case_name(text).ok_or(ScriptFault::NoSpelling)?.copy()?;
    let module = case.module;
    let number = case.case;
    write!(out, "{module} {number}")?;
    Ok(())
}
