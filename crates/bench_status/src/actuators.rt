//! Actuators, brought to hold what is wanted.

use crate::made::{processor, push_suspect, record};
use crate::marked::Marked;
use fm_act::{ActKind, Actuator, MemActuator, reconcile};
use fm_entry::ListKind;
use fm_status::{Status, Wanted};
use std::alloc::{AllocError, Global};

/// So many processors, from the first on, that are wanted out of use.
fn wanted(alloc: Global, count: u32) -> Result<Wanted, AllocError> {
    let mut suspects = Vec::new(alloc);
    for number in 0..count {
        push_suspect(alloc, &mut suspects, number)?;
    }
    let spoken = record(alloc, ListKind::Suspect, 0, suspects)?;
    let mut status = Status::new(alloc);
    status.apply(alloc, &spoken).map_err(|_| AllocError)?;
    status.wanted(alloc).map_err(|_| AllocError)
}

/// An actuator in memory for processors that holds so many of them, of which half are wanted.
fn holding(alloc: Global, count: u32) -> Result<MemActuator, AllocError> {
    let Ok(Some(kind)) = ActKind::read(alloc, "cpu") else {
        return Err(AllocError);
    };
    let mut act = MemActuator::new(kind, Vec::new(alloc));
    for number in 0..count {
        let path = processor(alloc, (count / 2).saturating_add(number))?;
        act.retire(&path).map_err(|_| AllocError)?;
    }
    Ok(act)
}

/// Whether an actuator holds so many paths.
fn holds(act: &mut Box<dyn Actuator + Send>, count: u32) -> bool {
    let last = act.listed(count.saturating_sub(1));
    last.is_ok_and(|path| path.is_some()) && act.listed(count).is_ok_and(|path| path.is_none())
}

/// Makes what `bring_marked` needs and brings nothing: whether as many are wanted.
pub fn make(alloc: Global, count: u32) -> Result<bool, AllocError> {
    let wanted = wanted(alloc, count)?;
    let act = Marked::new(alloc, count.saturating_add(count / 2))?;
    let mut acts: Vec<Box<dyn Actuator + Send>> = Vec::new(alloc);
    acts.push(Box::new(alloc, act)?)?;
    Ok(wanted.paths().len() == count as usize && acts.len() == 1)
}

/// Brings an actuator that marks what it holds, which are so many paths, to hold as many, of which
/// half are others: whether it then holds so many. The number is even, and at least 2.
pub fn bring_marked(alloc: Global, count: u32) -> Result<bool, AllocError> {
    let wanted = wanted(alloc, count)?;
    let act = Marked::new(alloc, count.saturating_add(count / 2))?;
    let mut acts: Vec<Box<dyn Actuator + Send>> = Vec::new(alloc);
    acts.push(Box::new(alloc, act)?)?;
    let is_done = reconcile(alloc, &mut acts, &wanted).is_ok();
    match acts.last_mut() {
        Some(act) => Ok(is_done && holds(act, count)),
        None => Ok(false),
    }
}

/// The same of an actuator in memory, with the making of it.
pub fn bring_in_memory(alloc: Global, count: u32) -> Result<bool, AllocError> {
    let wanted = wanted(alloc, count)?;
    let mut acts: Vec<Box<dyn Actuator + Send>> = Vec::new(alloc);
    acts.push(Box::new(alloc, holding(alloc, count)?)?)?;
    let is_done = reconcile(alloc, &mut acts, &wanted).is_ok();
    match acts.last_mut() {
        Some(act) => Ok(is_done && holds(act, count)),
        None => Ok(false),
    }
}
