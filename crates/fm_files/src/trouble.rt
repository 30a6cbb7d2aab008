// Why an object failed, in words.

use std::alloc::{AllocError, Global};
use std::io;

/// An object that failed, and the system's reason.
#[derive(Clone, Copy)]
pub struct Trouble {
    pub name: &'static str,
    pub fault: io::Error,
}

/// The words of a fault, without the number that std puts behind the words of the system.
fn reason_in(words: &str) -> &str {
    match words.split_once(" (os error ") {
        Some((reason, _)) => reason,
        None => words,
    }
}

impl Trouble {
    /// The line that tells it: `fma: `, the object, `: `, and the reason.
    pub fn line(&self, alloc: Global) -> Result<String, AllocError> {
        let name = self.name;
        let fault = self.fault;
        let words = format!(in alloc; "{fault}")?;
        let reason = reason_in(words.as_str());
        format!(in alloc; "fma: {name}: {reason}\n")
    }
}

/// Says which object it was.
pub(crate) fn of<T>(name: &'static str, answer: io::Result<T>) -> Result<T, Trouble> {
    match answer {
        Ok(value) => Ok(value),
        Err(fault) => Err(Trouble { name, fault }),
    }
}
