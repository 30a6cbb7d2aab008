// What an opening of a store answers.
use crate::runs::{Ran, run};
use crate::store_bytes::{FailingCalls, StoreBytes};
use fm_logs::StoreFault;
use fm_outer::NoMemory;
use std::alloc::Global;
use test_small_store::Told;

/// What openings of a store come to.
#[derive(Clone, Copy, Drop, PartialEq, Eq)]
pub enum OpeningAnswer {
    /// The store that is opened tells this.
    Tells(Told),
    Refused(StoreFault),
    /// An opening wrote.
    Wrote,
    /// Two openings answered differently.
    Differ,
}

/// The answer of an opening of these bytes.
fn answer_of(ran: &Ran, bytes: &StoreBytes) -> OpeningAnswer {
    if !ran.left.equals(bytes) {
        return OpeningAnswer::Wrote;
    }
    match ran.answer.fault {
        None => OpeningAnswer::Tells(ran.answer.told),
        Some(fault) => OpeningAnswer::Refused(fault),
    }
}

/// The answer of an opening, which writes nothing.
pub fn opening_answer(alloc: Global, bytes: &StoreBytes) -> Result<OpeningAnswer, NoMemory> {
    let ran = run(alloc, bytes, FailingCalls::None, &[], None)?;
    Ok(answer_of(&ran, bytes))
}

/// The answer of two openings, which are the same.
pub fn answer_of_two(alloc: Global, bytes: &StoreBytes) -> Result<OpeningAnswer, NoMemory> {
    let first = opening_answer(alloc, bytes)?;
    if opening_answer(alloc, bytes)? == first {
        Ok(first)
    } else {
        Ok(OpeningAnswer::Differ)
    }
}
