//! Actuators, each brought to hold what is wanted of its kind.

ghost use Rattle.std.specs.Prelude.{map};
ghost use Rattle.std.specs.List.{AllZip};
ghost use Rattle.fm_act.specs.Reconciled.{actuator_state, Reconciled, KeepsKind, IsActRefusal};

use crate::act_calls::ActCalls;
use crate::actuator::Actuator;
use crate::faults::{ActFault, ActRefused};
use crate::settling::settle_actuator;
use fm_name::Fmri;
use fm_status::Wanted;
use std::alloc::Global;

/// The answer where the first actuator that failed is at this place.
fn act_refusal(at: usize) -> ActRefused
    ensures { IsActRefusal at result }
{
    match u32::try_from(at) {
        Ok(index) => ActRefused::Act { index },
        Err(_) => ActRefused::NoMemory,
    }
}

/// What `reconcile` does, to actuators of one type: a function over boxed actuators of another
/// crate that called `reconcile` would be refused by the gate, as one that may make such a box.
#[tactic(auto, using(crate::proofs::Walked::gone_none))]
pub fn settle_actuators<A: ActCalls>(
    alloc: Global,
    acts: &mut [A],
    wanted: &[Fmri],
) -> Result<(), ActRefused>
    ensures done { Reconciled wanted.now
        (map (λ a. actuator_state (A.kind_text a) (A.held a) (A.act_failures a)) acts.old)
        (map (λ a. actuator_state (A.kind_text a) (A.held a) (A.act_failures a)) acts.new) result }
    ensures kept { AllZip KeepsKind
        (map (λ a. actuator_state (A.kind_text a) (A.held a) (A.act_failures a)) acts.old)
        (map (λ a. actuator_state (A.kind_text a) (A.held a) (A.act_failures a)) acts.new) }
{
    let mut failed = None;
    'acts: for (at, act) in acts.iter_mut().enumerate() {
        match settle_actuator(alloc, act, wanted) {
            Ok(()) => {}
            Err(ActFault::Failed) => failed = failed.or(Some(at)),
            Err(ActFault::NoMemory) => return Err(ActRefused::NoMemory),
        }
    }
    match failed {
        None => Ok(()),
        Some(at) => Err(act_refusal(at)),
    }
}

/// Brings each actuator to hold exactly the wanted paths whose last name is its kind. Where some
/// fail, the others are brought there all the same, and the first that failed is answered. After
/// want of memory nothing is said of what any holds. What is said of paths is said of actuators
/// that held at most 65,536.
pub fn reconcile(
    alloc: Global,
    acts: &mut [Box<dyn Actuator + Send>],
    wanted: &Wanted,
) -> Result<(), ActRefused>
    ensures done { Reconciled wanted.now
        (map (λ a. actuator_state (kind_text a) (held a) (act_failures a)) acts.old)
        (map (λ a. actuator_state (kind_text a) (held a) (act_failures a)) acts.new) result }
    ensures kept { AllZip KeepsKind
        (map (λ a. actuator_state (kind_text a) (held a) (act_failures a)) acts.old)
        (map (λ a. actuator_state (kind_text a) (held a) (act_failures a)) acts.new) }
{
    settle_actuators(alloc, acts, wanted.paths())
}
