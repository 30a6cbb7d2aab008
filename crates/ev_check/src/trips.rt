//! The fourth phase: no trip of an engine is reached from an upset.
ghost use Rattle.std.specs.Prelude.{◌≡◌, ◌<◌, ◌^◌, ◌++◌, ◌∷◌, [], if◌then◌else◌, length, ℕ, Some};
ghost use Rattle.std.specs.Prelude.{IsTrue, false, IfOk, OnOk, IfErr};
ghost use Rattle.fm_name.specs.Category.{category_of};
ghost use Rattle.ev_words.specs.Categories.{is_upset};
ghost use Rattle.ev_ways.specs.Lists.{AllBelow};
ghost use Rattle.ev_ways.specs.Search.{AreDistances, far};
ghost use Rattle.ev_check.specs.Declarations.{events_in};
ghost use Rattle.ev_check.specs.Drawn.{AreArrowsOf, causes_in, effects_in, trip_among};
ghost use Rattle.ev_check.specs.Faults.{AreUpsets, IsAnswer, IsTripAnswer, IsTripFree, has_far};
ghost use Rattle.ev_check.specs.Faults.{IsTripped};

use crate::declared_set::DeclaredSet;
use crate::defaults::first_trip;
use crate::kinds::CheckFault;
use crate::known::Known;
use crate::undeclared::declared_at;
use ev_tree::Statement;
use ev_ways::Arrows;
use ev_words::{CheckKind, is_upset};
use fm_bytes::NoMemory;
use std::alloc::Global;

/// Puts the number of an event at the end, if it is an upset.
fn add_upset(event: &Known, number: u32, starts: &mut Vec<u32>) -> Result<(), NoMemory>
    ensures { OnOk result
        (starts.new.items ≡ (if is_upset (category_of event.now.class) then starts.old.items
        ++ number ∷ [] else starts.old.items)) }
{
    if is_upset(&event.get().class) {
        starts.push(number)?;
    }
    Ok(())
}

/// The numbers of the upsets.
fn upsets(alloc: Global, events: &[Known]) -> Result<Vec<u32>, NoMemory>
    requires { length events.now < 2 ^ 32 }
    ensures below { IfOk result (λ starts. AllBelow (length events.now) starts.items) }
    ensures are { IfOk result (λ starts. AreUpsets events.now starts.items) }
{
    let mut starts = Vec::new(alloc);
    for (number, event) in events.iter().enumerate() {
        add_upset(event, number as u32, &mut starts)?;
    }
    Ok(starts)
}

/// The number of the trip of an engine statement.
pub(crate) fn trip_among(
    alloc: Global,
    events: &DeclaredSet,
    statement: &Statement,
) -> Result<Option<u32>, NoMemory>
    ensures { IfOk result (λ trip. trip ≡ trip_among events.now statement.now) }
{
    match statement {
        Statement::Engine { engine, attrs, .. } => match first_trip(attrs.as_slice()) {
            Some(class) => {
                let wanted = declared_at(alloc, class, &engine.names)?;
                Ok(events.find(&wanted))
            }
            None => Ok(None),
        },
        _ => Ok(None),
    }
}

/// The distance of a node, where it has one.
fn distance_of(distance: &[Option<u32>], node: u32) -> Option<u32>
    ensures { result ≡ far distance.now node }
{
    match distance.get(node as usize) {
        Some(steps) => *steps,
        None => None,
    }
}

/// Whether the node is there, and has a distance.
fn has_distance(distance: &[Option<u32>], node: Option<u32>) -> bool
    ensures { result ≡ has_far distance.now node }
{
    match node {
        Some(at) => distance_of(distance, at).is_some(),
        None => false,
    }
}

/// Looks for the first engine statement whose trip has a distance.
fn find_trip(
    alloc: Global,
    statements: &[Statement],
    events: &DeclaredSet,
    starts: &[u32],
    distance: &[Option<u32>],
) -> Result<(), CheckFault>
    requires events { events.now ≡ events_in statements.now }
    requires starts { AreUpsets events.now starts.now }
    requires distance { AreDistances (causes_in statements.now) (effects_in statements.now)
        starts.now distance.now }
    ensures ok { OnOk result (IsTripFree statements.now) }
    ensures err { IfErr result (IsAnswer (IsTripAnswer statements.now)) }
{
    for statement in statements {
        let trip = trip_among(alloc, events, statement)?;
        if has_distance(distance, trip) {
            return Err(CheckFault::At {
                place: statement.place(),
                kind: CheckKind::UpsetTrips,
            });
        }
    }
    Ok(())
}

/// The fourth phase: no trip of an engine is reached from an upset.
pub(crate) fn check_trips(
    alloc: Global,
    statements: &[Statement],
    events: &DeclaredSet,
    arrows: &Arrows,
) -> Result<(), CheckFault>
    requires { AreArrowsOf statements.now events.now arrows.now }
    ensures ok { OnOk result (IsTripFree statements.now) }
    ensures err { IfErr result (IsAnswer (IsTripAnswer statements.now)) }
{
    let starts = upsets(alloc, events.as_slice())?;
    let distance = arrows.distances(alloc, starts.as_slice())?;
    find_trip(
        alloc,
        statements,
        events,
        starts.as_slice(),
        distance.as_slice(),
    )
}
