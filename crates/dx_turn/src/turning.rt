//! Whole turns.

ghost use Rattle.std.specs.Prelude.{◌≡◌, IfOk, OnOk, IsTrue};
ghost use Rattle.std.specs.List.{All};
ghost use Rattle.ev_incidence.specs.Sets.{ascends};
ghost use Rattle.dx_case.specs.Starts.{AreStartsOf};
ghost use Rattle.dx_state.specs.LawfulState.{solved_numbers};
ghost use Rattle.dx_step.specs.Turns.{settle_all};
ghost use Rattle.dx_turn.specs.Grounds.{IsGround, rules_on};
ghost use Rattle.dx_turn.specs.Turning.{IsTold};
ghost use Rattle.dx_turn.specs.Tracking.{cases_before};
ghost use Rattle.dx_turn.specs.Settling.{IsBeforeTurn};
ghost use Rattle.dx_turn.specs.Joining.{turn_of, IsWork, HasGone};
ghost use Rattle.dx_turn.specs.Reloading.{turned_by, HasEnded};

use crate::acting::act;
use crate::ground::Ground;
use crate::joining::trips;
use crate::reloading::{Reloaded, reload};
use crate::settling::settle_all;
use crate::work::Work;
use ev_graph::NoMemory;
use fm_entry::Entry;

/// The first part, on a turn that begins: each open case is decided if it waits for nothing.
fn settle_work(ground: &Ground<'_>, work: &mut Work) -> Result<(), NoMemory>
    requires ground { IsGround ground.now }
    requires told { IsTold ground.now work.old.told }
    requires starts { AreStartsOf ground.now.graph.now work.old.starts }
    requires ready { All (IsBeforeTurn ground.now.graph.now ground.now.time) work.old.cases.items }
    ensures kept { cases_before work.new.cases.items ≡ cases_before work.old.cases.items }
    ensures ok { OnOk result
        (HasGone ground.now (settle_all (rules_on ground.now)) work.old work.new) }
    ensures starts { AreStartsOf ground.now.graph.now work.new.starts }
{
    settle_all(ground, &mut work.told, &mut work.cases)
}

/// The turn of an entry of a number, from open cases that wait: each is decided if it waits for
/// nothing any more; the entry acts; what the engines report that fired acts; a reload acts. What
/// it leaves is not put in place.
pub fn turn(
    ground: &Ground<'_>,
    work: &mut Work,
    number: u64,
    entry: &Entry,
) -> Result<Option<Reloaded>, NoMemory>
    requires ground { IsGround ground.now }
    requires told { IsTold ground.now work.old.told }
    requires starts { AreStartsOf ground.now.graph.now work.old.starts }
    requires ready { All (IsBeforeTurn ground.now.graph.now ground.now.time) work.old.cases.items }
    requires ascend { IsTrue (ascends (solved_numbers
        (settle_all (rules_on ground.now) (turn_of ground.now work.old)).state.solved)) }
    ensures kept { cases_before work.new.cases.items ≡ cases_before work.old.cases.items }
    ensures ok { IfOk result
        (λ x. HasEnded ground.now (turned_by ground.now number entry.now) x work.old work.new) }
    ensures starts { AreStartsOf ground.now.graph.now work.new.starts }
{
    settle_work(ground, work)?;
    act(ground, work, number, entry)?;
    trips(ground, work, number)?;
    reload(ground, work, entry)
}
