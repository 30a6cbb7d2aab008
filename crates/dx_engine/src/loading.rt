//! Standing states of the bytes of saved ones.

ghost use Rattle.std.specs.Prelude.{◌≡◌, map, IfOk, IsTrue};
ghost use Rattle.dx_restore.specs.Loading.{SpellsNone};
ghost use Rattle.dx_restore.specs.Parts.{loaded_state};
ghost use Rattle.dx_rules.specs.Rulebooks.{rules_in};
ghost use Rattle.dx_state.specs.Configured.{Rules};
ghost use Rattle.dx_state.specs.StateBytes.{diagnosis_bytes};
ghost use Rattle.dx_step.specs.Lawful.{are_rules};
ghost use Rattle.dx_turn.specs.Standing.{still_of};
ghost use Rattle.dx_engine.specs.Standing.{kept_parts, state_of, AreStanding, IsStanding};
ghost use Rattle.dx_engine.specs.Diagnosers.{standing_parts};

use crate::standing::StandingState;
use dx_case::Case;
use dx_restore::{Loaded, load};
use dx_rules::Rulebook;
use dx_turn::Tracked;
use ev_graph::NoMemory;
use fm_core::LoadFault;
use std::alloc::Global;

/// Open cases as turns track them.
fn tracked(alloc: Global, cases: Vec<Case>) -> Result<Vec<Tracked>, NoMemory>
    ensures { IfOk result (λ v. v.items ≡ map still_of cases.items) }
{
    let mut tracked = Vec::with_capacity(alloc, cases.len())?;
    for case in cases {
        tracked.push(Tracked::new(case))?;
    }
    Ok(tracked)
}

/// The parts of a state, as they stand.
fn standing_of(alloc: Global, loaded: Loaded) -> Result<StandingState, NoMemory>
    ensures parts { IfOk result (λ s. kept_parts s ≡ standing_parts loaded) }
    ensures stands { IfOk result
        (λ s. (r : Rules) → AreStanding r (kept_parts s) → IsStanding r s) }
{
    let Loaded {
        conf,
        time,
        next,
        cases,
        solved,
        engines,
    } = loaded;
    let cases = tracked(alloc, cases)?;
    Ok(StandingState::of_parts(conf, time, next, cases, solved, engines))
}

/// The state that the bytes spell, as it stands. `Bad` says that they spell none.
pub(crate) fn load_standing(
    alloc: Global,
    rules: &Rulebook,
    bytes: &[u8],
) -> Result<StandingState, LoadFault>
    requires { IsTrue (are_rules (rules_in rules.now)) }
    ensures ok { IfOk result (λ s. diagnosis_bytes (state_of s) ≡ bytes.now) }
    ensures standing { IfOk result (λ s. IsStanding (rules_in rules.now) s) }
    ensures bad { result ≡ Err LoadFault.Bad → SpellsNone (rules_in rules.now) bytes.now }
{
    let loaded = load(alloc, rules, bytes)?;
    let standing = standing_of(alloc, loaded)?;
    Ok(standing)
}
