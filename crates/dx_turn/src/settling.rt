//! Open cases that wait or are decided, as time passes.

ghost use Rattle.std.specs.Prelude.{◌≡◌, Some, false, IfOk, OnOk};
ghost use Rattle.std.specs.List.{All};
ghost use Rattle.dx_case.specs.Cases.{open_of, time_of, IsCaseOf};
ghost use Rattle.dx_turn.specs.Grounds.{IsGround};
ghost use Rattle.dx_turn.specs.Turning.{IsTold, HasTurned, decided_or_left, left_of};
ghost use Rattle.dx_turn.specs.Tracking.{opens_of, opens_in, cases_before, IsTrackedAt};
ghost use Rattle.dx_turn.specs.Settling.{IsBeforeTurn, IsMoved, HasSettled};

use crate::deciding::decide;
use crate::ground::Ground;
use crate::told::Told;
use crate::tracked::Tracked;
use dx_case::Case;
use ev_graph::NoMemory;

/// A case that was changed stays open while it waits, and is decided where it does not.
pub(crate) fn settle(
    ground: &Ground<'_>,
    told: &mut Told,
    tracked: &mut Tracked,
    case: Case,
    notes: bool,
) -> Result<(), NoMemory>
    requires ground { IsGround ground.now }
    requires told { IsTold ground.now told.old }
    requires case { IsCaseOf ground.now.graph.now case }
    requires time { time_of case ≡ Some ground.now.time }
    requires there { tracked.old.decided ≡ false }
    ensures kept { tracked.new.kept ≡ tracked.old.kept }
    ensures turned { OnOk result (HasTurned ground.now
        (decided_or_left ground.now notes (open_of case)) told.old told.new) }
    ensures left { OnOk result (opens_of tracked.new ≡ left_of ground.now (open_of case)) }
    ensures current { IsTrackedAt ground.now.graph.now ground.now.time tracked.new }
{
    if case.is_pending() {
        tracked.change(case);
        return Ok(());
    }
    tracked.decide();
    decide(ground, told, &case, notes)
}

/// The case at the turn's time, where a window of it may have ended since; none where none has.
fn expired(ground: &Ground<'_>, tracked: &Tracked) -> Result<Option<Case>, NoMemory>
    requires { IsBeforeTurn ground.now.graph.now ground.now.time tracked.now }
    ensures { IfOk result (IsMoved ground.now.graph.now ground.now.time tracked.now) }
{
    match &tracked.kept {
        None => Ok(None),
        Some(case) => {
            if case.stays(ground.time) {
                return Ok(None);
            }
            let mut moved = case.copy(ground.alloc)?;
            moved.expire(ground.graph, ground.time);
            Ok(Some(moved))
        }
    }
}

/// An open case is decided if it waits for nothing any more.
fn settle_tracked(
    ground: &Ground<'_>,
    told: &mut Told,
    tracked: &mut Tracked,
) -> Result<(), NoMemory>
    requires ground { IsGround ground.now }
    requires told { IsTold ground.now told.old }
    requires ready { IsBeforeTurn ground.now.graph.now ground.now.time tracked.old }
    ensures kept { tracked.new.kept ≡ tracked.old.kept }
    ensures ok { OnOk result (HasSettled ground.now (opens_of tracked.old) (opens_of tracked.new)
        told.old told.new) }
    ensures current { OnOk result
        (IsTrackedAt ground.now.graph.now ground.now.time tracked.new) }
{
    match expired(ground, tracked)? {
        None => Ok(()),
        Some(case) => settle(ground, told, tracked, case, true),
    }
}

/// Each open case, in order of number, is decided if it waits for nothing any more.
pub fn settle_all(
    ground: &Ground<'_>,
    told: &mut Told,
    cases: &mut Vec<Tracked>,
) -> Result<(), NoMemory>
    requires ground { IsGround ground.now }
    requires told { IsTold ground.now told.old }
    requires ready { All (IsBeforeTurn ground.now.graph.now ground.now.time) cases.old.items }
    ensures kept { cases_before cases.new.items ≡ cases_before cases.old.items }
    ensures ok { OnOk result (HasSettled ground.now (opens_in cases.old.items)
        (opens_in cases.new.items) told.old told.new) }
    ensures current { OnOk result
        (All (IsTrackedAt ground.now.graph.now ground.now.time) cases.new.items) }
{
    for at in 0..cases.len() {
        settle_tracked(ground, told, &mut cases[at])?;
    }
    Ok(())
}
