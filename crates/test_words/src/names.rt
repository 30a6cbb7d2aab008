// Classes, paths and events that a text spells.
use crate::fault::ScriptFault;
use fm_name::{Class, EventName, Fmri, read_class, read_fmri};
use std::alloc::Global;

/// The class that a text spells.
pub fn class_in(alloc: Global, text: &str) -> Result<Class, ScriptFault> {
    read_class(alloc, text)?.ok_or(ScriptFault::NoSpelling)
}

/// The path that a text spells.
pub fn path_in(alloc: Global, text: &str) -> Result<Fmri, ScriptFault> {
    read_fmri(alloc, text)?.ok_or(ScriptFault::NoSpelling)
}

/// The event of a class and a path, with `@` between them.
pub fn event_in(alloc: Global, text: &str) -> Result<EventName, ScriptFault> {
    let (class, path) = text.split_once('@').ok_or(ScriptFault::Words)?;
    Ok(EventName {
        class: class_in(alloc, class)?,
        path: path_in(alloc, path)?,
    })
}
