// Topologies of scripts, and paths.
use crate::words::two_in;
use fm_name::{Fmri, read_fmri};
use fm_topo::{Topo, TopoFault, read_topo};
use std::alloc::{AllocError, Global};
use test_words::ScriptFault;

/// The topology of a text that has one.
pub fn topology(alloc: Global, text: &[u8]) -> Result<Topo, ScriptFault> {
    match read_topo(alloc, text) {
        Ok(topo) => Ok(topo),
        Err(TopoFault::NoMemory) => Err(ScriptFault::NoMemory),
        Err(TopoFault::At { .. }) => Err(ScriptFault::Words),
    }
}

/// The path of a text that has one.
pub fn path_in(alloc: Global, text: &str) -> Result<Fmri, ScriptFault> {
    match read_fmri(alloc, text)? {
        Some(path) => Ok(path),
        None => Err(ScriptFault::Words),
    }
}

/// Puts so many paths under a chassis, one a line.
fn put_parts(name: &str, count: u32, text: &mut String) -> Result<(), AllocError> {
    for number in 0..count {
        write!(text, "hc:///chassis=0/{name}={number}\n")?;
    }
    Ok(())
}

/// The text of a chassis with so many processors and memory modules.
pub fn machine(alloc: Global, counts: &str) -> Result<Vec<u8>, ScriptFault> {
    let (cpus, dimms) = two_in(counts)?;
    let mut text = String::from_str(alloc, "hc:///chassis=0\n")?;
    put_parts("cpu", cpus, &mut text)?;
    put_parts("dimm", dimms, &mut text)?;
    Ok(text.as_bytes().to_vec(alloc)?)
}
