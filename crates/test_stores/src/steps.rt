// The steps of a run, as a script names them.
use std::alloc::{AllocError, Global};

/// A step of an open store.
#[derive(Clone, Copy, Drop)]
pub enum Step {
    /// Takes so many reports of one class.
    Take(u32),
    /// Takes so many of the mixed reports.
    Mixed(u32),
    /// Lets both modules take all entries, and commits what they say.
    Drain,
    /// Drains, and writes a checkpoint.
    Checkpoint,
    /// Drains, and rotates the error journals.
    Rotate,
    /// Drains with the base at the end.
    End,
}

/// The step of these words; `None` where they are none.
fn step_of(words: &str) -> Option<Step> {
    match words.split_once(' ') {
        Some(("take", count)) => Some(Step::Take(count.parse::<u32>().ok()?)),
        Some(("mixed", count)) => Some(Step::Mixed(count.parse::<u32>().ok()?)),
        Some(_) => None,
        None => match words {
            "drain" => Some(Step::Drain),
            "checkpoint" => Some(Step::Checkpoint),
            "rotate" => Some(Step::Rotate),
            "end" => Some(Step::End),
            _ => None,
        },
    }
}

/// The steps of a text, with commas between them; those that are none are left out, and so is what
/// is behind the last comma where it is blank.
pub fn steps_of(alloc: Global, text: &str) -> Result<Option<Vec<Step>>, AllocError> {
    let mut steps = Vec::new(alloc);
    for words in text.split(',') {
        match step_of(words.trim()) {
            Some(step) => steps.push(step)?,
            None => return Ok(None),
        }
    }
    Ok(Some(steps))
}
