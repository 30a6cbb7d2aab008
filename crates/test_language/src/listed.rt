// The lines of compiled files.
use crate::texts::{push_text, shown_bytes};
use ev_listing::put_files;
use std::alloc::Global;
use test_words::ScriptFault;

/// The lines of the files in these bytes with a text behind them, and where no file begins.
pub fn list(alloc: Global, file: &[u8], behind: &str) -> Result<String, ScriptFault> {
    let mut bytes = file.to_vec(alloc)?;
    push_text(behind, &mut bytes)?;
    let mut out = Vec::new(alloc);
    let bad = put_files(alloc, &bytes, &mut out)?;
    let lines = shown_bytes(alloc, &out)?;
    match bad {
        Some(place) => Ok(format!(in alloc; "{lines} bad at {place}")?),
        None => Ok(format!(in alloc; "{lines} all good")?),
    }
}
