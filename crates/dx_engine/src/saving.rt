//! Standing states, saved.

ghost use Rattle.std.specs.Prelude.{◌≡◌, ◌++◌, [], map, IfOk, OnOk, OnErr};
ghost use Rattle.std.specs.List.{All, cons_option};
ghost use Rattle.dx_case.specs.Cases.{open_of};
ghost use Rattle.dx_restore.specs.Saving.{IsShortCase};
ghost use Rattle.dx_rules.specs.Rulebooks.{rules_in};
ghost use Rattle.dx_state.specs.StateBytes.{diagnosis_bytes};
ghost use Rattle.dx_turn.specs.Tracking.{cases_before};
ghost use Rattle.dx_engine.specs.Standing.{state_of, IsStanding};

use crate::standing::StandingState;
use dx_kept::KeptCase;
use dx_restore::{Parts, kept_case, save};
use dx_rules::Rulebook;
use dx_turn::Tracked;
use ev_graph::NoMemory;
use std::alloc::Global;

/// Appends an open case as it is kept, if there is one.
fn push_kept(alloc: Global, tracked: &Tracked, kept: &mut Vec<KeptCase>) -> Result<(), NoMemory>
    requires { All IsShortCase (cons_option tracked.now.kept []) }
    ensures { OnOk result
        (kept.new.items ≡ kept.old.items ++ map open_of (cons_option tracked.now.kept [])) }
{
    match tracked.kept() {
        Some(case) => {
            kept.push(kept_case(alloc, case)?)?;
            Ok(())
        }
        None => Ok(()),
    }
}

/// Open cases as they are kept.
fn kept_cases(alloc: Global, cases: &[Tracked]) -> Result<Vec<KeptCase>, NoMemory>
    requires { All IsShortCase (cases_before cases.now) }
    ensures { IfOk result (λ kept. kept.items ≡ map open_of (cases_before cases.now)) }
{
    let mut kept = Vec::with_capacity(alloc, cases.len())?;
    for tracked in cases {
        push_kept(alloc, tracked, &mut kept)?;
    }
    Ok(kept)
}

/// Appends the bytes that spell the state. Without memory nothing is appended.
pub(crate) fn save_standing(
    rules: &Rulebook,
    standing: &StandingState,
    out: &mut Vec<u8>,
) -> Result<(), NoMemory>
    requires { IsStanding (rules_in rules.now) standing.now }
    ensures ok { OnOk result
        (out.new.items ≡ out.old.items ++ diagnosis_bytes (state_of standing.now)) }
    ensures err { OnErr result (out.new.items ≡ out.old.items) }
{
    let _rules = rules;
    let cases = kept_cases(*out.allocator(), standing.cases())?;
    let parts = Parts {
        conf: standing.conf(),
        time: standing.time(),
        next: standing.next(),
        cases: cases.as_slice(),
        solved: standing.solved(),
        engines: standing.engines(),
    };
    save(&parts, out)
}
