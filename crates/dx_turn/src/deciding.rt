//! Cases that are decided.

ghost use Rattle.std.specs.Prelude.{◌≡◌, ◌<◌, ◌^◌, false, IsTrue, nat_lt, length, OnOk};
ghost use Rattle.std.specs.List.{list_all};
ghost use Rattle.dx_case.specs.Cases.{open_of, time_of, waits_at, IsCaseOf};
ghost use Rattle.dx_step.specs.Said.{nodes_of};
ghost use Rattle.dx_step.specs.Turns.{solve, upset, give_up, decide};
ghost use Rattle.dx_turn.specs.Grounds.{IsGround, rules_on};
ghost use Rattle.dx_turn.specs.Turning.{IsTold, HasTurned};

use crate::ground::Ground;
use crate::noting::note_all;
use crate::told::{Told, word_on};
use dx_case::{Case, Outcome};
use dx_said::{suspects, upsets};
use ev_graph::NoMemory;
use fm_entry::ListKind;

/// The case is solved by these faults and defects.
fn solve(ground: &Ground<'_>, told: &mut Told, case: &Case, faults: &[u32]) -> Result<(), NoMemory>
    requires ground { IsGround ground.now }
    requires told { IsTold ground.now told.old }
    requires below { IsTrue
        (list_all (λ e. nat_lt e (length ground.now.graph.now.nodes)) faults.now) }
    requires few { length faults.now < 2 ^ 32 }
    ensures { OnOk result (HasTurned ground.now (solve (rules_on ground.now) (open_of case.now)
        (nodes_of ground.now.graph.now faults.now)) told.old told.new) }
{
    let suspects = suspects(ground.alloc, ground.graph, faults)?;
    let word = word_on(ground, ListKind::Suspect, case, suspects)?;
    told.say_solved(ground.alloc, word)
}

/// Only these upsets explain the case. Their engines note the time, or not.
fn upset(
    ground: &Ground<'_>,
    told: &mut Told,
    case: &Case,
    numbers: &[u32],
    notes: bool,
) -> Result<(), NoMemory>
    requires ground { IsGround ground.now }
    requires told { IsTold ground.now told.old }
    ensures { OnOk result (HasTurned ground.now (upset (rules_on ground.now) notes
        (open_of case.now) (nodes_of ground.now.graph.now numbers.now)) told.old told.new) }
{
    let suspects = upsets(ground.alloc, ground.graph, numbers)?;
    let word = word_on(ground, ListKind::Upset, case, suspects)?;
    told.say(word)?;
    if notes {
        note_all(ground, told, numbers)
    } else {
        Ok(())
    }
}

/// Nothing explains the case.
fn give_up(ground: &Ground<'_>, told: &mut Told, case: &Case) -> Result<(), NoMemory>
    requires ground { IsGround ground.now }
    requires told { IsTold ground.now told.old }
    ensures { OnOk result (HasTurned ground.now (give_up (rules_on ground.now) (open_of case.now))
        told.old told.new) }
{
    let word = word_on(
        ground,
        ListKind::Undiagnosable,
        case,
        Vec::new(ground.alloc),
    )?;
    told.say(word)
}

/// The case, for which nothing is pending, is decided.
pub(crate) fn decide(
    ground: &Ground<'_>,
    told: &mut Told,
    case: &Case,
    notes: bool,
) -> Result<(), NoMemory>
    requires ground { IsGround ground.now }
    requires told { IsTold ground.now told.old }
    requires case { IsCaseOf ground.now.graph.now case.now }
    requires still { waits_at ground.now.graph.now (time_of case.now) (open_of case.now) ≡ false }
    ensures { OnOk result (HasTurned ground.now
        (decide (rules_on ground.now) notes (open_of case.now)) told.old told.new) }
{
    match case.outcome(ground.alloc, ground.graph)? {
        Outcome::Solved(faults) => solve(ground, told, case, &faults),
        Outcome::Upset(numbers) => upset(ground, told, case, &numbers, notes),
        Outcome::Undiagnosable => give_up(ground, told, case),
    }
}
