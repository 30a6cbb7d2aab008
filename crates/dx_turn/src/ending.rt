//! Open cases at the end of a turn, which is kept or undone.

ghost use Rattle.std.specs.Prelude.{◌≡◌, map};
ghost use Rattle.std.specs.List.{filter, list_all};
ghost use Rattle.dx_turn.specs.Tracking.{tracked_cases, cases_before};
ghost use Rattle.dx_turn.specs.Standing.{after_turn, before_turn, has_kept, is_still, still_of};

use crate::tracked::Tracked;

/// Each case is from now on as the turn has left it.
fn end_each(cases: &mut Vec<Tracked>)
    ensures { cases.new.items ≡ map after_turn cases.old.items }
{
    for at in 0..cases.len() {
        cases[at].end_turn();
    }
}

/// Each case is again as it was before the turn.
fn undo_each(cases: &mut Vec<Tracked>)
    ensures { cases.new.items ≡ map before_turn cases.old.items }
{
    for at in 0..cases.len() {
        cases[at].undo_turn();
    }
}

/// Those go that are none.
fn drop_blank(cases: &mut Vec<Tracked>)
    ensures { cases.new.items ≡ filter has_kept cases.old.items }
{
    cases.retain(|tracked| tracked.has_kept());
}

/// Whether the turn has changed none of these.
fn are_still(cases: &[Tracked]) -> bool
    ensures { result ≡ list_all is_still cases.now }
{
    cases.iter().all(|tracked| tracked.is_still())
}

/// The turn is over: the open cases are from now on those that it has left. It takes no memory.
pub fn end_turn(cases: &mut Vec<Tracked>)
    ensures { cases.new.items ≡ map still_of (tracked_cases cases.old.items) }
{
    if are_still(cases.as_slice()) {
        return;
    }
    end_each(cases);
    drop_blank(cases);
}

/// The turn is undone: the open cases are again those from before it. It takes no memory.
pub fn undo_turn(cases: &mut Vec<Tracked>)
    ensures { cases.new.items ≡ map still_of (cases_before cases.old.items) }
{
    undo_each(cases);
    drop_blank(cases);
}
