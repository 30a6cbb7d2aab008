//! The fifth phase: no event reaches itself.
ghost use Rattle.std.specs.Prelude.{◌≡◌, ◌<◌, ◌++◌, length, slice_get, slice_index, option_to_list};
ghost use Rattle.std.specs.Prelude.{IfOk, OnOk, IfErr, filter_map};
ghost use Rattle.ev_ways.specs.Cycle.{IsFirstCycle};
ghost use Rattle.ev_check.specs.Declarations.{events_in};
ghost use Rattle.ev_check.specs.Drawn.{AreArrowsOf, causes_in, effects_in};
ghost use Rattle.ev_check.specs.Faults.{IsAcyclic, IsAnswer, IsCycleAnswer, event_place};

use crate::declared_set::DeclaredSet;
use crate::kinds::CheckFault;
use crate::known::Known;
use ev_tree::{Declared, Statement};
use ev_ways::Arrows;
use ev_words::{CheckKind, Members};
use fm_bytes::{Copies, NoMemory};
use std::alloc::Global;

/// Puts the event of that number at the end.
fn add_named(
    alloc: Global,
    events: &[Known],
    number: u32,
    members: &mut Vec<Declared>,
) -> Result<(), NoMemory>
    ensures { OnOk result
        (members.new.items ≡ members.old.items ++ option_to_list (slice_get events.now number)) }
{
    match events.get(number as usize) {
        Some(event) => {
            members.push(event.get().copy(alloc)?)?;
            Ok(())
        }
        None => Ok(()),
    }
}

/// The events of these numbers.
fn named(alloc: Global, events: &[Known], numbers: &[u32]) -> Result<Members, NoMemory>
    ensures { IfOk result (λ members. members ≡ filter_map (slice_get events.now) numbers.now) }
{
    let mut members = Vec::new(alloc);
    for number in numbers {
        add_named(alloc, events, *number, &mut members)?;
    }
    Ok(Members::new(members))
}

/// Puts the place of an event statement at the end.
fn add_place(statement: &Statement, places: &mut Vec<u32>) -> Result<(), NoMemory>
    ensures { OnOk result
        (places.new.items ≡ places.old.items ++ option_to_list (event_place statement.now)) }
{
    match statement {
        Statement::Event { place, .. } => {
            places.push(*place)?;
            Ok(())
        }
        _ => Ok(()),
    }
}

/// The places of the event statements, by the numbers of their events.
fn event_places(alloc: Global, statements: &[Statement]) -> Result<Vec<u32>, NoMemory>
    ensures { IfOk result (λ places. places.items ≡ filter_map event_place statements.now) }
{
    let mut places = Vec::new(alloc);
    for statement in statements {
        add_place(statement, &mut places)?;
    }
    Ok(places)
}

/// The fault of the cycle of these numbers: its members, at the place of the first one's statement.
fn cycle_fault(
    alloc: Global,
    statements: &[Statement],
    events: &[Known],
    numbers: &[u32],
) -> Result<CheckFault, NoMemory>
    requires events { events.now ≡ events_in statements.now }
    requires some { 0 < length numbers.now }
    requires below { slice_index numbers.now 0 < length (filter_map event_place statements.now) }
    requires cycle { IsFirstCycle (causes_in statements.now) (effects_in statements.now)
        numbers.now }
    ensures { IfOk result (IsAnswer (IsCycleAnswer statements.now)) }
{
    let kind = CheckKind::Cycle(named(alloc, events, numbers)?);
    let places = event_places(alloc, statements)?;
    let first = numbers[0];
    let place = places[first as usize];
    Ok(CheckFault::At { place, kind })
}

/// The fifth phase: no event reaches itself.
pub(crate) fn check_cycle(
    alloc: Global,
    statements: &[Statement],
    events: &DeclaredSet,
    arrows: &Arrows,
) -> Result<(), CheckFault>
    requires { AreArrowsOf statements.now events.now arrows.now }
    ensures ok { OnOk result (IsAcyclic statements.now) }
    ensures err { IfErr result (IsAnswer (IsCycleAnswer statements.now)) }
{
    match arrows.first_cycle(alloc) {
        Ok(None) => Ok(()),
        Ok(Some(numbers)) => Err(cycle_fault(
            alloc,
            statements,
            events.as_slice(),
            numbers.as_slice(),
        )?),
        Err(_) => Err(CheckFault::NoMemory),
    }
}
