//! Topology texts that come in.

use fm_topo::{TopoFault, print_topo, read_topo};
use std::io;
use std::io::{Read, Write};

/// Reads the input and prints its topology: whether it has no fault.
pub fn print_input(rt: &HostRuntime) -> io::Result<bool> {
    let mut text = Vec::new(rt.alloc());
    rt.stdin().read_to_end(&mut text)?;
    let topo = match read_topo(rt.alloc(), text.as_slice()) {
        Ok(topo) => topo,
        Err(TopoFault::At { .. }) => return Ok(false),
        Err(TopoFault::NoMemory) => return Err(io::Error::from(io::ErrorKind::OutOfMemory)),
    };
    let mut printed = Vec::new(rt.alloc());
    if print_topo(&topo, &mut printed).is_err() {
        return Err(io::Error::from(io::ErrorKind::OutOfMemory));
    }
    rt.stdout().write_all(printed.as_slice())?;
    Ok(true)
}
