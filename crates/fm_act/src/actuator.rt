//! What takes a resource out of use.

ghost use Rattle.std.specs.Prelude.{◌≡◌, ℕ, List, Option, Some, IfOk, IfSome, OnOk};
ghost use Rattle.std.specs.List.Sorted.{IsStrictlySortedBy};
ghost use Rattle.fm_name.specs.Order.{path_cmp};
ghost use Rattle.fm_act.specs.HeldPaths.{listed_at, ActCallCause, AddsPath, TakesPath};

use crate::faults::ActFault;
use fm_name::Fmri;

/// What takes resources of one kind out of use, and keeps the set of their paths.
pub trait Actuator: Drop {
    /// The paths that it holds, in path order and each once, where it tells them.
    ghost held: { Self → Option (List (List ℕ)) };

    /// How often it has failed. Each call that answers Ok leaves this count.
    ghost act_failures: { Self → ℕ };

    /// The last name of the paths that it is for.
    ghost kind_text: { Self → List ℕ };

    /// The last name of the paths that it is for.
    fn kind(&self) -> &str
        ensures { result.now ≡ kind_text self.now };

    /// The path at a place of path order; none from the number held on, and from 65,536 on.
    fn listed(&mut self, at: u32) -> Result<Option<Fmri>, ActFault>
        ensures found { IfOk result
            (λ path. IfSome (held self.old) (λ paths. path ≡ listed_at paths at)) }
        ensures same { held self.new ≡ held self.old }
        ensures kind { kind_text self.new ≡ kind_text self.old }
        ensures cause { ActCallCause (act_failures self.old) (act_failures self.new) result };

    /// Takes the resource out of use.
    fn retire(&mut self, path: &Fmri) -> Result<(), ActFault>
        ensures ok { OnOk result (AddsPath path.now (held self.old) (held self.new)) }
        ensures kind { kind_text self.new ≡ kind_text self.old }
        ensures cause { ActCallCause (act_failures self.old) (act_failures self.new) result };

    /// Takes the resource back into use.
    fn unretire(&mut self, path: &Fmri) -> Result<(), ActFault>
        ensures ok { OnOk result (TakesPath path.now (held self.old) (held self.new)) }
        ensures kind { kind_text self.new ≡ kind_text self.old }
        ensures cause { ActCallCause (act_failures self.old) (act_failures self.new) result };

    /// What it holds, where it tells that, ascends strictly in path order.
    ghost ascends: { (act : Self) (paths : List (List ℕ)) → held act ≡ Some paths
        → IsStrictlySortedBy path_cmp paths };
}
