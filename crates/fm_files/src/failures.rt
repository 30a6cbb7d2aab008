// What an object keeps of its failures.
ghost use Rattle.std.specs.Prelude.{◌≡◌, is_ok, IfOk, Ok};
ghost use Rattle.fm_outer.specs.Failures.{HasCause};

use crate::trouble::Trouble;
use fm_outer::Failed;

/// How often an object failed, and why it first did.
#[derive(Drop)]
pub(crate) struct Failures {
    pub(crate) count: u64,
    first: Option<Trouble>,
}

impl Failures {
    /// None yet.
    pub(crate) fn new() -> Failures {
        Failures {
            count: 0,
            first: None,
        }
    }

    /// Gives what was answered, and counts where that is a failure.
    pub(crate) fn told<T>(&mut self, answer: Result<T, Trouble>) -> Result<T, Failed>
        ensures done { is_ok result ≡ is_ok answer }
        ensures value { IfOk result (λ value. answer ≡ Ok value) }
        ensures cause { HasCause self.old.count self.new.count result }
    {
        match answer {
            Ok(value) => Ok(value),
            Err(trouble) => {
                self.count = self.count.saturating_add(1);
                self.first = self.first.or(Some(trouble));
                Err(Failed)
            }
        }
    }

    /// Why the object first failed, if it did.
    pub(crate) fn first(&self) -> Option<Trouble> {
        self.first
    }
}
