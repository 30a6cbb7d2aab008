//! How entries act.

ghost use Rattle.std.specs.Prelude.{◌≡◌, true, OnOk, IsTrue};
ghost use Rattle.ev_graph.specs.Kinds.{is_report_node};
ghost use Rattle.ev_incidence.specs.Sets.{ascends};
ghost use Rattle.dx_case.specs.Starts.{AreStartsOf};
ghost use Rattle.dx_state.specs.LawfulState.{solved_numbers};
ghost use Rattle.dx_step.specs.Reports.{join, open_unknown};
ghost use Rattle.dx_step.specs.Repairs.{mark};
ghost use Rattle.dx_step.specs.Step.{act};
ghost use Rattle.dx_turn.specs.Grounds.{IsGround, rules_on, own_of};
ghost use Rattle.dx_turn.specs.Turning.{solved_by};
ghost use Rattle.dx_turn.specs.Tracking.{cases_before};
ghost use Rattle.dx_turn.specs.Joining.{IsWork, HasGone};
ghost use Rattle.dx_turn.specs.Finding.{reported_by, unknown_by};

use crate::finding::{declares, report_named};
use crate::ground::Ground;
use crate::joining::{Incoming, join};
use crate::marking::mark;
use crate::told::unknown_word;
use crate::work::Work;
use dx_said::{AtPath, Choice, OfCase, UnderPath};
use ev_graph::NoMemory;
use fm_entry::{Entry, Mark};
use fm_name::EventName;
use fm_nv::Nv;

/// A report of a node with a payload acts.
fn join_known(
    ground: &Ground<'_>,
    work: &mut Work,
    entry: u64,
    node: u32,
    payload: &Nv,
) -> Result<(), NoMemory>
    requires ground { IsGround ground.now }
    requires work { IsWork ground.now work.old }
    requires report { is_report_node ground.now.graph.now.nodes node ≡ true }
    ensures kept { cases_before work.new.cases.items ≡ cases_before work.old.cases.items }
    ensures ok { OnOk result (HasGone ground.now
        (join (rules_on ground.now) true entry node payload.now) work.old work.new) }
    ensures starts { AreStartsOf ground.now.graph.now work.new.starts }
{
    let links = ground
        .rules
        .broken_by(ground.alloc, ground.conf, node, payload)?;
    let incoming = Incoming {
        node,
        entry,
        links: &links,
        notes: true,
    };
    join(ground, work, &incoming)
}

/// A report of an event that the graph does not have opens a case that nothing explains.
fn open_unknown(ground: &Ground<'_>, work: &mut Work, name: EventName) -> Result<(), NoMemory>
    requires work { IsWork ground.now work.old }
    ensures kept { cases_before work.new.cases.items ≡ cases_before work.old.cases.items }
    ensures ok { OnOk result
        (HasGone ground.now (open_unknown (own_of ground.now) name) work.old work.new) }
    ensures starts { AreStartsOf ground.now.graph.now work.new.starts }
{
    if work.next >= 1 << 63 {
        return Ok(());
    }
    let word = unknown_word(ground, work.next, name)?;
    work.told.say(word)?;
    work.next += 1;
    Ok(())
}

/// The same, where the graph declares its class.
fn join_unknown(ground: &Ground<'_>, work: &mut Work, name: EventName) -> Result<(), NoMemory>
    requires ground { IsGround ground.now }
    requires work { IsWork ground.now work.old }
    ensures kept { cases_before work.new.cases.items ≡ cases_before work.old.cases.items }
    ensures ok { OnOk result (HasGone ground.now (unknown_by ground.now name) work.old work.new) }
    ensures starts { AreStartsOf ground.now.graph.now work.new.starts }
{
    if declares(ground, &name.class) {
        open_unknown(ground, work, name)
    } else {
        Ok(())
    }
}

/// A report acts where the graph declares its class.
fn report(
    ground: &Ground<'_>,
    work: &mut Work,
    entry: u64,
    name: EventName,
    payload: &Nv,
) -> Result<(), NoMemory>
    requires ground { IsGround ground.now }
    requires work { IsWork ground.now work.old }
    ensures kept { cases_before work.new.cases.items ≡ cases_before work.old.cases.items }
    ensures ok { OnOk result
        (HasGone ground.now (reported_by ground.now entry name payload.now) work.old work.new) }
    ensures starts { AreStartsOf ground.now.graph.now work.new.starts }
{
    // Most reports of other modules' classes end here, before a search for the whole name.
    if !declares(ground, &name.class) {
        return Ok(());
    }
    let EventName { class, path } = name;
    let sought = (path, class);
    match report_named(ground, &sought) {
        Some(node) => join_known(ground, work, entry, node, payload),
        None => {
            let (path, class) = sought;
            join_unknown(ground, work, EventName { class, path })
        }
    }
}

/// The suspects that are chosen and present get the mark.
fn repair<C: Choice>(
    ground: &Ground<'_>,
    work: &mut Work,
    choice: &C,
    with: Mark,
) -> Result<(), NoMemory>
    requires work { IsWork ground.now work.old }
    requires ascend { IsTrue (ascends (solved_numbers (solved_by ground.now work.old.told))) }
    ensures kept { cases_before work.new.cases.items ≡ cases_before work.old.cases.items }
    ensures ok { OnOk result
        (HasGone ground.now (mark (C.chosen choice.now) with) work.old work.new) }
    ensures starts { AreStartsOf ground.now.graph.now work.new.starts }
{
    mark(ground, &mut work.told, choice, with)
}

/// The entry of a number acts.
pub fn act(ground: &Ground<'_>, work: &mut Work, number: u64, entry: &Entry) -> Result<(), NoMemory>
    requires ground { IsGround ground.now }
    requires work { IsWork ground.now work.old }
    requires ascend { IsTrue (ascends (solved_numbers (solved_by ground.now work.old.told))) }
    ensures kept { cases_before work.new.cases.items ≡ cases_before work.old.cases.items }
    ensures ok { OnOk result
        (HasGone ground.now (act (rules_on ground.now) number entry.now) work.old work.new) }
    ensures starts { AreStartsOf ground.now.graph.now work.new.starts }
{
    match entry {
        Entry::Report {
            class,
            path,
            payload,
            ..
        } => {
            let name = EventName {
                class: class.copy()?,
                path: path.copy()?,
            };
            report(ground, work, number, name, payload)
        }
        Entry::Repaired { path, .. } => repair(ground, work, &AtPath { path }, Mark::Repaired),
        Entry::Replaced { path, .. } => repair(ground, work, &UnderPath { path }, Mark::Replaced),
        Entry::Acquit { case, .. } => {
            repair(ground, work, &OfCase { case: *case }, Mark::Acquitted)
        }
        Entry::Tick { .. } | Entry::Reload { .. } => Ok(()),
    }
}
