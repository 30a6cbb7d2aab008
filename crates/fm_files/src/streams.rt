// The descriptors of the standard streams.

use crate::trouble::{Trouble, of};
use std::fs;
use std::fs::File;

/// The null device.
const NULL_DEVICE: &str = "/dev/null";

/// Descriptors that are held. The system gives a file that is opened the lowest number that is
/// free, so with three files open, none that is opened later gets the number of a standard stream
/// that the program was started without. They are open for reading alone: what is put to such a
/// stream fails, and what is read of it is empty.
#[derive(Drop)]
pub struct Streams {
    _held: [File; 3],
}

impl Streams {
    /// Takes the descriptors, which are held as long as this is. It is done before any other file
    /// is opened.
    pub fn hold(rt: &HostRuntime) -> Result<Streams, Trouble> {
        let first = of(NULL_DEVICE, fs::open(rt, NULL_DEVICE))?;
        let second = of(NULL_DEVICE, fs::open(rt, NULL_DEVICE))?;
        let third = of(NULL_DEVICE, fs::open(rt, NULL_DEVICE))?;
        Ok(Streams {
            _held: [first, second, third],
        })
    }
}
