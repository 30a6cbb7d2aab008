//! The arrows between the declared events.
ghost use Rattle.std.specs.Prelude.{◌≡◌, ◌<◌, ◌≤◌, ◌+◌, ◌^◌, ◌++◌, length, OnOk, IfOk};
ghost use Rattle.std.specs.Prelude.{option_to_list, filter_map};
ghost use Rattle.ev_ways.specs.Lists.{AllBelow};
ghost use Rattle.ev_check.specs.Declarations.{events_in};
ghost use Rattle.ev_check.specs.Drawn.{causes_in, causes_of, effects_in, effects_of, numbered};
ghost use Rattle.ev_check.specs.Drawn.{side_numbers};

use crate::declared_set::DeclaredSet;
use crate::undeclared::subject_of;
use ev_tree::{SidePattern, Statement};
use ev_ways::Arrows;
use fm_bytes::{Items, NoMemory};
use std::alloc::Global;

/// Puts the number of the event that a pattern is of at the end.
fn add(
    alloc: Global,
    events: &DeclaredSet,
    pattern: &SidePattern,
    found: &mut Items<u32>,
) -> Result<(), NoMemory>
    requires { AllBelow (length events.now) found.old }
    ensures found { OnOk result
        (found.new ≡ found.old ++ option_to_list (numbered events.now pattern.now)) }
    ensures below { OnOk result (AllBelow (length events.now) found.new) }
{
    let subject = subject_of(alloc, pattern)?;
    match events.find(&subject) {
        Some(number) => {
            found.push(number)?;
            Ok(())
        }
        None => Ok(()),
    }
}

/// The numbers of the events on a side.
fn side_numbers(
    alloc: Global,
    events: &DeclaredSet,
    side: &[SidePattern],
) -> Result<Items<u32>, NoMemory>
    ensures numbers { IfOk result (λ found. found ≡ side_numbers events.now side.now) }
    ensures below { IfOk result (AllBelow (length events.now)) }
{
    let mut found = Items::new(Vec::new(alloc));
    for pattern in side {
        add(alloc, events, pattern, &mut found)?;
    }
    Ok(found)
}

/// Draws the arrow of a statement, if it has one.
fn draw_one(
    alloc: Global,
    events: &DeclaredSet,
    statement: &Statement,
    arrows: &mut Arrows,
) -> Result<(), NoMemory>
    requires nodes { arrows.old.nodes ≡ length events.now }
    requires few { length arrows.old.causes + 1 < 2 ^ 32 }
    ensures nodes { OnOk result (arrows.new.nodes ≡ length events.now) }
    ensures causes { OnOk result
        (arrows.new.causes ≡ arrows.old.causes
        ++ option_to_list (causes_of events.now statement.now)) }
    ensures effects { OnOk result
        (arrows.new.effects ≡ arrows.old.effects
        ++ option_to_list (effects_of events.now statement.now)) }
    ensures few { OnOk result (length arrows.new.causes ≤ length arrows.old.causes + 1) }
{
    match statement {
        Statement::Prop { left, right, .. } => {
            let causes = side_numbers(alloc, events, left.as_slice())?;
            let effects = side_numbers(alloc, events, right.as_slice())?;
            arrows.push(causes, effects)?;
            Ok(())
        }
        _ => Ok(()),
    }
}

/// The arrows of a file; more statements than a `u32` counts are too many for memory.
pub(crate) fn draw(
    alloc: Global,
    events: &DeclaredSet,
    statements: &[Statement],
) -> Result<Arrows, NoMemory>
    requires { events.now ≡ events_in statements.now }
    ensures nodes { IfOk result (λ arrows. arrows.nodes ≡ length events.now) }
    ensures causes { IfOk result (λ arrows. arrows.causes ≡ causes_in statements.now) }
    ensures effects { IfOk result (λ arrows. arrows.effects ≡ effects_in statements.now) }
{
    if statements.len() >= 4_294_967_295 {
        return Err(NoMemory);
    }
    let nodes = events.as_slice().len() as u32;
    let mut arrows = Arrows::new(alloc, nodes);
    for statement in statements {
        draw_one(alloc, events, statement, &mut arrows)?;
    }
    Ok(arrows)
}
