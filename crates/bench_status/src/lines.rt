//! The lines of entries.

use fm_dump::{DumpOptions, write_errors};
use fm_entry::Entry;
use fm_line::read_line;
use fm_outer::{Sink, WriteSink};
use std::alloc::{AllocError, Global};

/// A report of one of 20 classes at one of 200 paths.
fn report(alloc: Global, number: u32) -> Result<Entry, AllocError> {
    let class = number % 20;
    let path = number % 200;
    let line = format!(in alloc;
        "report ereport.cpu.c{class} hc:///chassis=0/cpu={path} {number}"
    )?;
    read_line(alloc, line.as_bytes()).map_err(|_| AllocError)
}

/// So many reports.
fn reports(alloc: Global, count: u32) -> Result<Vec<Entry>, AllocError> {
    let mut entries = Vec::new(alloc);
    for number in 0..count {
        entries.push(report(alloc, number)?)?;
    }
    Ok(entries)
}

/// Makes so many entries: whether there are as many.
pub fn make(alloc: Global, count: u32) -> Result<bool, AllocError> {
    Ok(reports(alloc, count)?.len() == count as usize)
}

/// Makes so many entries, and puts a line for each to standard output: whether that went well.
pub fn put(rt: &HostRuntime, count: u32) -> Result<bool, AllocError> {
    let alloc = rt.alloc();
    let entries = reports(alloc, count)?;
    let options = DumpOptions {
        errors: true,
        full: false,
        class: None,
        case: None,
        from: None,
        to: None,
    };
    let mut text = Vec::new(alloc);
    write_errors(alloc, 0, &entries, &options, &mut text).map_err(|_| AllocError)?;
    let mut out = WriteSink::new(rt.stdout());
    Ok(out.put(&text).is_ok())
}
