//! The checks of rule files of a given shape and size.

use crate::shapes;
use ev_check::{CheckFault, CheckKind, check};
use std::alloc::{AllocError, Global};
use std::io;

/// Whether a ring of so many events is refused with all of them.
fn refuses_ring(alloc: Global, count: u32) -> Result<bool, AllocError> {
    let tree = shapes::ring(alloc, count)?;
    match check(alloc, &tree) {
        Err(
            CheckFault::At {
                kind: CheckKind::Cycle(members),
                ..
            },
        ) => Ok(members.as_slice().len() == count as usize),
        _ => Ok(false),
    }
}

/// Whether a chain of so many events is taken.
fn takes_chain(alloc: Global, count: u32) -> Result<bool, AllocError> {
    let tree = shapes::chain(alloc, count)?;
    Ok(check(alloc, &tree).is_ok())
}

/// Whether a propagation of so many patterns is taken.
fn takes_sides(alloc: Global, count: u32) -> Result<bool, AllocError> {
    let tree = shapes::sides(alloc, count)?;
    Ok(check(alloc, &tree).is_ok())
}

/// Checks a tree of that shape and size: whether the answer is the right one.
pub fn check_shape(alloc: Global, shape: &str, count: u32) -> io::Result<bool> {
    let answer = match shape {
        "ring" => refuses_ring(alloc, count),
        "chain" => takes_chain(alloc, count),
        "sides" => takes_sides(alloc, count),
        _ => return Err(io::Error::from(io::ErrorKind::InvalidInput)),
    };
    answer.map_err(|_| io::Error::from(io::ErrorKind::OutOfMemory))
}
