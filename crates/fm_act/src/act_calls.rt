//! The calls of an actuator in a box.

ghost use Rattle.std.specs.Prelude.{◌≡◌, ℕ, List, Option, IfOk, IfSome, OnOk};
ghost use Rattle.fm_act.specs.HeldPaths.{listed_at, ActCallCause, AddsPath, TakesPath};

use crate::actuator::Actuator;
use crate::faults::ActFault;
use fm_name::Fmri;

/// What the calls of an actuator say, without the law of the order of its paths. That law of a
/// boxed object can't be named where the box meets a trait.
pub trait ActCalls {
    /// The paths that it holds, in path order and each once, where it tells them.
    ghost held: { Self → Option (List (List ℕ)) };

    /// How often it has failed. Each call that answers Ok leaves this count.
    ghost act_failures: { Self → ℕ };

    /// The last name of the paths that it is for.
    ghost kind_text: { Self → List ℕ };

    /// The last name of the paths that it is for.
    fn kind(&self) -> &str
        ensures { result.now ≡ kind_text self.now };

    /// The path at a place of path order; none from the number held on, and from 65,536 on.
    fn listed(&mut self, at: u32) -> Result<Option<Fmri>, ActFault>
        ensures found { IfOk result
            (λ path. IfSome (held self.old) (λ paths. path ≡ listed_at paths at)) }
        ensures same { held self.new ≡ held self.old }
        ensures kind { kind_text self.new ≡ kind_text self.old }
        ensures cause { ActCallCause (act_failures self.old) (act_failures self.new) result };

    /// Takes the resource out of use.
    fn retire(&mut self, path: &Fmri) -> Result<(), ActFault>
        ensures ok { OnOk result (AddsPath path.now (held self.old) (held self.new)) }
        ensures kind { kind_text self.new ≡ kind_text self.old }
        ensures cause { ActCallCause (act_failures self.old) (act_failures self.new) result };

    /// Takes the resource back into use.
    fn unretire(&mut self, path: &Fmri) -> Result<(), ActFault>
        ensures ok { OnOk result (TakesPath path.now (held self.old) (held self.new)) }
        ensures kind { kind_text self.new ≡ kind_text self.old }
        ensures cause { ActCallCause (act_failures self.old) (act_failures self.new) result };
}

impl ActCalls for Box<dyn Actuator + Send> {
    ghost held = { λ b. (Actuator-box b).held b.value };

    ghost act_failures = { λ b. (Actuator-box b).act_failures b.value };

    ghost kind_text = { λ b. (Actuator-box b).kind_text b.value };

    fn kind(&self) -> &str {
        (**self).kind()
    }

    fn listed(&mut self, at: u32) -> Result<Option<Fmri>, ActFault> {
        (**self).listed(at)
    }

    fn retire(&mut self, path: &Fmri) -> Result<(), ActFault> {
        (**self).retire(path)
    }

    fn unretire(&mut self, path: &Fmri) -> Result<(), ActFault> {
        (**self).unretire(path)
    }
}
