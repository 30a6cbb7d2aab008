//! Paths, suspects and words that are made of numbers.

use fm_entry::{
    BrokenLinks, CaseName, EventNames, ListEvent, ListEvents, ListKind, Mark, Spoken, Suspect,
    Suspects,
};
use fm_name::{Fmri, read_class, read_fmri};
use std::alloc::{AllocError, Global};

/// The path of the processor with this number.
pub(crate) fn processor(alloc: Global, number: u32) -> Result<Fmri, AllocError> {
    let text = format!(in alloc; "hc:///chassis=0/cpu={number}")?;
    match read_fmri(alloc, text.as_str()) {
        Ok(Some(path)) => Ok(path),
        _ => Err(AllocError),
    }
}

/// Adds a present suspect that is to be retired: the processor with this number.
pub(crate) fn push_suspect(
    alloc: Global,
    suspects: &mut Vec<Suspect>,
    number: u32,
) -> Result<(), AllocError> {
    let Ok(Some(class)) = read_class(alloc, "fault.cpu.cache") else {
        return Err(AllocError);
    };
    suspects.push(Suspect {
        class,
        path: processor(alloc, number)?,
        certainty: 100,
        retire: true,
        mark: Mark::Present,
    })?;
    Ok(())
}

/// A record of one word about a case of module 0.
pub(crate) fn record(
    alloc: Global,
    kind: ListKind,
    case: u32,
    suspects: Vec<Suspect>,
) -> Result<Spoken, AllocError> {
    let case = CaseName {
        module: 0,
        case: u64::from(case),
    };
    let mut words = Vec::new(alloc);
    words.push(ListEvent {
        kind,
        case,
        moment: 15_000_000_001,
        conf: 0,
        observed: EventNames::new(Vec::new(alloc)),
        suspects: Suspects::new(suspects),
        broken: BrokenLinks::new(Vec::new(alloc)),
    })?;
    Ok(Spoken {
        module: 0,
        number: 0,
        events: ListEvents::new(words),
    })
}
