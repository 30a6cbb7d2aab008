//! The checked file that the statements give: their defaults filled in and their numbers resolved.
ghost use Rattle.std.specs.Prelude.{◌≡◌, ◌++◌, map, IfOk, OnOk, option_to_list, filter_map};
ghost use Rattle.std.specs.Option.{unwrap_or};
ghost use Rattle.fm_name.specs.Category.{category_of};
ghost use Rattle.ev_words.specs.Attributes.{engine_value};
ghost use Rattle.ev_check.specs.CheckedFile.{IsFileOf, event_spec, kind_of, linking, serd_spec};
ghost use Rattle.ev_check.specs.CheckedFile.{view_prop};
ghost use Rattle.ev_tree.specs.Pattern.{view_pattern};
ghost use Rattle.ev_check.specs.Declarations.{engines_in, events_in};
ghost use Rattle.ev_check.specs.Defaults.{first_by};
ghost use Rattle.ev_check.specs.Drawn.{number_at};
ghost use Rattle.ev_check.specs.Faults.{IsChecked};

use crate::checked::{Checked, DeclKind, EventSpec, PropSpec, SerdSpec};
use crate::declared_set::DeclaredSet;
use crate::defaults::{first_engine, fit_of, n_of, retire_of, t_of, within_of};
use crate::trips::trip_among;
use crate::undeclared::declared_at;
use ev_tree::{Count, Declared, EventAttr, Patterns, Statement, copy_patterns};
use fm_bytes::{Copies, NoMemory};
use fm_name::Category;
use std::alloc::Global;

/// The number of the engine of an upset.
fn engine_of(
    alloc: Global,
    engines: &DeclaredSet,
    event: &Declared,
    attrs: &[EventAttr],
) -> Result<Option<u32>, NoMemory>
    ensures { IfOk result
        (λ number. number ≡ number_at engines.now event.now.names
        (first_by engine_value attrs.now)) }
{
    match first_engine(attrs) {
        Some(class) => {
            let wanted = declared_at(alloc, class, &event.names)?;
            Ok(engines.find(&wanted))
        }
        None => Ok(None),
    }
}

/// What a declared event is.
fn kind_of(
    alloc: Global,
    engines: &DeclaredSet,
    event: &Declared,
    attrs: &[EventAttr],
) -> Result<DeclKind, NoMemory>
    ensures { IfOk result
        (λ kind. kind ≡ kind_of engines.now event.now attrs.now (category_of event.now.class)) }
{
    match event.class.category() {
        Some(Category::Ereport) => Ok(DeclKind::Report {
            within: within_of(attrs),
        }),
        Some(Category::Fault) => Ok(DeclKind::Fault {
            fit: fit_of(attrs),
            retire: retire_of(attrs),
        }),
        Some(Category::Defect) => Ok(DeclKind::Defect {
            fit: fit_of(attrs),
            retire: retire_of(attrs),
        }),
        Some(Category::Upset) => {
            let engine = engine_of(alloc, engines, event, attrs)?;
            Ok(DeclKind::Upset { engine })
        }
        _ => Ok(DeclKind::Inner),
    }
}

/// Puts what an event statement gives at the end.
fn add_event(
    alloc: Global,
    engines: &DeclaredSet,
    statement: &Statement,
    specs: &mut Vec<EventSpec>,
) -> Result<(), NoMemory>
    ensures { OnOk result
        (specs.new.items ≡ specs.old.items
        ++ option_to_list (event_spec engines.now statement.now)) }
{
    match statement {
        Statement::Event { event, attrs, .. } => {
            let kind = kind_of(alloc, engines, event, attrs.as_slice())?;
            let event = event.copy(alloc)?;
            specs.push(EventSpec { event, kind })?;
            Ok(())
        }
        _ => Ok(()),
    }
}

/// Puts what an engine statement gives at the end.
fn add_engine(
    alloc: Global,
    events: &DeclaredSet,
    statement: &Statement,
    specs: &mut Vec<SerdSpec>,
) -> Result<(), NoMemory>
    ensures { OnOk result
        (specs.new.items ≡ specs.old.items ++ option_to_list (serd_spec events.now statement.now)) }
{
    let trip = trip_among(alloc, events, statement)?.unwrap_or(0);
    match statement {
        Statement::Engine { engine, attrs, .. } => {
            let engine = engine.copy(alloc)?;
            let n = n_of(attrs.as_slice());
            let t = t_of(attrs.as_slice());
            specs.push(SerdSpec { engine, n, t, trip })?;
            Ok(())
        }
        _ => Ok(()),
    }
}

/// A propagation of copies of these sides, with N `A` and K 1 where they are not given.
fn prop_of(
    alloc: Global,
    left: &Patterns,
    n: Option<Count>,
    k: Option<Count>,
    right: &Patterns,
) -> Result<PropSpec, NoMemory>
    ensures { IfOk result (λ p. view_prop p ≡ record {
      left = map view_pattern left.now;
      right = map view_pattern right.now;
      n = unwrap_or n Count.All;
      k = unwrap_or k (Count.Number 1);
    }) }
{
    let left = copy_patterns(alloc, left)?;
    let right = copy_patterns(alloc, right)?;
    Ok(PropSpec {
        left,
        right,
        n: n.unwrap_or(Count::All),
        k: k.unwrap_or(Count::Number(1)),
    })
}

/// Puts what a propagation statement gives at the end.
fn add_prop(alloc: Global, statement: &Statement, specs: &mut Vec<PropSpec>) -> Result<(), NoMemory>
    ensures { OnOk result
        (map view_prop specs.new.items ≡ map view_prop specs.old.items
        ++ option_to_list (linking statement.now)) }
{
    match statement {
        Statement::Prop {
            left,
            n,
            k,
            right,
            ..
        } => {
            let prop = prop_of(alloc, left, *n, *k, right)?;
            specs.push(prop)?;
            Ok(())
        }
        _ => Ok(()),
    }
}

/// The events of the file.
fn event_specs(
    alloc: Global,
    engines: &DeclaredSet,
    statements: &[Statement],
) -> Result<Vec<EventSpec>, NoMemory>
    ensures { IfOk result
        (λ specs. specs.items ≡ filter_map (event_spec engines.now) statements.now) }
{
    let mut specs = Vec::new(alloc);
    for statement in statements {
        add_event(alloc, engines, statement, &mut specs)?;
    }
    Ok(specs)
}

/// The engines of the file.
fn serd_specs(
    alloc: Global,
    events: &DeclaredSet,
    statements: &[Statement],
) -> Result<Vec<SerdSpec>, NoMemory>
    ensures { IfOk result
        (λ specs. specs.items ≡ filter_map (serd_spec events.now) statements.now) }
{
    let mut specs = Vec::new(alloc);
    for statement in statements {
        add_engine(alloc, events, statement, &mut specs)?;
    }
    Ok(specs)
}

/// The propagations of the file.
fn prop_specs(alloc: Global, statements: &[Statement]) -> Result<Vec<PropSpec>, NoMemory>
    ensures { IfOk result (λ specs. map view_prop specs.items ≡ filter_map linking statements.now) }
{
    let mut specs = Vec::new(alloc);
    for statement in statements {
        add_prop(alloc, statement, &mut specs)?;
    }
    Ok(specs)
}

/// The file with its defaults filled in and its numbers resolved.
pub(crate) fn build(
    alloc: Global,
    statements: &[Statement],
    events: &DeclaredSet,
    engines: &DeclaredSet,
) -> Result<Checked, NoMemory>
    requires events { events.now ≡ events_in statements.now }
    requires engines { engines.now ≡ engines_in statements.now }
    requires checked { IsChecked statements.now }
    ensures { IfOk result (IsFileOf statements.now) }
{
    let event_list = event_specs(alloc, engines, statements)?;
    let engine_list = serd_specs(alloc, events, statements)?;
    let prop_list = prop_specs(alloc, statements)?;
    Ok(Checked::new(event_list, engine_list, prop_list))
}
