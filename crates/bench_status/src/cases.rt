//! Words about cases, taken by a status.

use crate::made::{push_suspect, record};
use fm_entry::ListKind;
use fm_status::Status;
use std::alloc::{AllocError, Global};

/// How many processors are suspected.
const PROCESSORS: u32 = 1_000;

/// Takes a word of this kind about each of so many cases, in an order that is none of the cases'.
fn take_kind(
    alloc: Global,
    status: &mut Status,
    kind: ListKind,
    count: u32,
) -> Result<(), AllocError> {
    for number in 0..count {
        let case = (u64::from(number) * 7_919 % u64::from(count)) as u32;
        let mut suspects = Vec::new(alloc);
        push_suspect(alloc, &mut suspects, case % PROCESSORS)?;
        let spoken = record(alloc, kind, case, suspects)?;
        status.apply(alloc, &spoken).map_err(|_| AllocError)?;
    }
    Ok(())
}

/// Takes two words about each of so many cases, and then the rows and the wanted paths: whether
/// there is a row for each case, and each processor is wanted out of use once. The number of cases
/// is no multiple of 7,919.
pub fn take_words(alloc: Global, count: u32) -> Result<bool, AllocError> {
    let mut status = Status::new(alloc);
    take_kind(alloc, &mut status, ListKind::Suspect, count)?;
    take_kind(alloc, &mut status, ListKind::Updated, count)?;
    let rows = status.rows(alloc).map_err(|_| AllocError)?;
    let wanted = status.wanted(alloc).map_err(|_| AllocError)?;
    let suspected = count.min(PROCESSORS);
    Ok(rows.len() == count as usize && wanted.paths().len() == suspected as usize)
}
