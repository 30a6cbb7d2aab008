// The bytes of compiled files, read, written, cut and altered.
use crate::instances::put_instances;
use crate::texts::bytes_in;
use ev_file::{Made, read_file, write_file};
use ev_graph::EngineSpec;
use std::alloc::{AllocError, Global};
use test_words::{ScriptFault, first_word, small_in};

/// What bytes begin with: a file, and how long it is.
fn file_in(alloc: Global, bytes: &[u8]) -> Result<(Made, usize), ScriptFault> {
    match read_file(alloc, bytes)? {
        Some(found) => Ok(found),
        None => Err(ScriptFault::Words),
    }
}

/// Puts N, T and the trip of each engine.
fn put_engines(engines: &[EngineSpec], line: &mut String) -> Result<(), AllocError> {
    for engine in engines {
        let EngineSpec { n, t, trip, .. } = engine;
        write!(line, "engine {n} {t} {trip}; ")?;
    }
    Ok(())
}

/// What was made, as a line.
fn made_text(alloc: Global, made: &Made, size: usize) -> Result<String, AllocError> {
    let nodes = made.graph.nodes().len();
    let mut line = format!(in alloc; "{size} bytes; {nodes} nodes; ")?;
    put_engines(made.graph.engines(), &mut line)?;
    put_instances(made.graph.instances(), &mut line)?;
    let skipped = made.skipped;
    write!(&mut line, "{skipped} skipped")?;
    Ok(line)
}

/// What bytes read as.
pub fn read(alloc: Global, bytes: &[u8]) -> Result<String, ScriptFault> {
    match read_file(alloc, bytes)? {
        Some((made, size)) => Ok(made_text(alloc, &made, size)?),
        None => Ok(String::from_str(alloc, "no file")?),
    }
}

/// The bytes of two files, one behind the other.
fn both(alloc: Global, first: &[u8], second: &[u8]) -> Result<Vec<u8>, ScriptFault> {
    let mut bytes = first.to_vec(alloc)?;
    bytes.extend_from_slice(second)?;
    Ok(bytes)
}

/// What two files that were read are written as, one behind the other.
fn written(alloc: Global, first: &[u8], second: &[u8]) -> Result<Vec<u8>, ScriptFault> {
    let (made, _) = file_in(alloc, first)?;
    let (other, _) = file_in(alloc, second)?;
    let mut out = Vec::new(alloc);
    write_file(&made, &mut out)?;
    write_file(&other, &mut out)?;
    Ok(out)
}

/// Whether this file and the other are written, one behind the other, as the bytes that they were
/// read from, and how long the first of them is then.
pub fn write(alloc: Global, file: &[u8], text: &str) -> Result<String, ScriptFault> {
    let first = bytes_in(alloc, text)?;
    let out = written(alloc, &first, file)?;
    if out != both(alloc, &first, file)? {
        return Ok(String::from_str(alloc, "other bytes")?);
    }
    let (_, size) = file_in(alloc, &out)?;
    let count = out.len();
    Ok(format!(in alloc; "the same {count} bytes, of which the first file has {size}")?)
}

/// How many beginnings of the bytes there are, and how many of these are files.
pub fn beginnings(alloc: Global, bytes: &[u8]) -> Result<String, ScriptFault> {
    let mut files = 0u32;
    for end in 0..bytes.len() {
        if read_file(alloc, &bytes[..end])?.is_some() {
            files = files.saturating_add(1);
        }
    }
    let count = bytes.len();
    Ok(format!(in alloc; "{count} beginnings, {files} files")?)
}

/// What the bytes read as where one is altered, `PLACE BYTE`.
pub fn alter(alloc: Global, bytes: &[u8], words: &str) -> Result<String, ScriptFault> {
    let (place, byte) = first_word(words);
    let place = small_in(place)? as usize;
    let Ok(byte) = byte.parse::<u8>() else {
        return Err(ScriptFault::Words);
    };
    let mut other = bytes.to_vec(alloc)?;
    match other.get_mut(place) {
        Some(at) => *at = byte,
        None => return Err(ScriptFault::Words),
    }
    read(alloc, &other)
}
