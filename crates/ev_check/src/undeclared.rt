//! What is declared already, and what is named but not declared.
ghost use Rattle.std.specs.Prelude.{◌≡◌, IfOk, map};
ghost use Rattle.std.specs.List.{list_any};
ghost use Rattle.ev_check.specs.Declarations.{is_again, is_declared, is_undeclared, name_of};
ghost use Rattle.ev_check.specs.Declarations.{is_undeclared_engine, is_undeclared_trip};
ghost use Rattle.ev_check.specs.Declarations.{names_undeclared, subject_of};

use crate::declared_set::DeclaredSet;
use crate::known::Known;
use ev_tree::{Declared, EngineAttr, EventAttr, Names, Part, SidePattern, Statement};
use ev_words::either;
use fm_bytes::{Copies, NoMemory};
use fm_name::Class;
use std::alloc::Global;

/// The class at these names, to be looked for.
pub(crate) fn declared_at(alloc: Global, class: &Class, names: &Names) -> Result<Known, NoMemory>
    ensures { IfOk result (λ d. d ≡ record { class = class.now; names = names.now }) }
{
    let class = class.copy()?;
    let names = names.copy(alloc)?;
    Ok(Known::new(Declared { class, names }))
}

/// The names of the parts.
fn names_of(alloc: Global, parts: &[Part]) -> Result<Names, NoMemory>
    ensures { IfOk result (λ names. names ≡ map name_of parts.now) }
{
    let mut names = Vec::new(alloc);
    for part in parts {
        names.push(part.name.copy(alloc)?)?;
    }
    Ok(Names::new(names))
}

/// What the pattern is of, its class at the names of its parts, to be looked for.
pub(crate) fn subject_of(alloc: Global, pattern: &SidePattern) -> Result<Known, NoMemory>
    ensures { IfOk result (λ d. d ≡ subject_of pattern.now) }
{
    let class = pattern.class.copy()?;
    let names = names_of(alloc, pattern.parts.as_slice())?;
    Ok(Known::new(Declared { class, names }))
}

/// An equal event or engine, to be looked for.
pub(crate) fn known(alloc: Global, declared: &Declared) -> Result<Known, NoMemory>
    ensures { IfOk result (λ d. d ≡ declared.now) }
{
    let declared = declared.copy(alloc)?;
    Ok(Known::new(declared))
}

/// Whether the statement declares what one of these events or engines is.
pub(crate) fn is_again(
    alloc: Global,
    events: &DeclaredSet,
    engines: &DeclaredSet,
    statement: &Statement,
) -> Result<bool, NoMemory>
    ensures { IfOk result (λ again. again ≡ is_again events.now engines.now statement.now) }
{
    match statement {
        Statement::Event { event, .. } => {
            let wanted = known(alloc, event)?;
            Ok(events.declares(&wanted))
        }
        Statement::Engine { engine, .. } => {
            let wanted = known(alloc, engine)?;
            Ok(engines.declares(&wanted))
        }
        Statement::Prop { .. } => Ok(false),
    }
}

/// Whether the attribute names an engine that is not declared at these names.
fn is_undeclared_engine(
    alloc: Global,
    engines: &DeclaredSet,
    names: &Names,
    attr: &EventAttr,
) -> Result<bool, NoMemory>
    ensures { IfOk result
        (λ undeclared. undeclared ≡ is_undeclared_engine engines.now names.now attr.now) }
{
    match attr {
        EventAttr::Engine(class) => {
            let wanted = declared_at(alloc, class, names)?;
            Ok(!engines.declares(&wanted))
        }
        _ => Ok(false),
    }
}

/// Whether one of the attributes does.
fn any_undeclared_engine(
    alloc: Global,
    engines: &DeclaredSet,
    names: &Names,
    attrs: &[EventAttr],
) -> Result<bool, NoMemory>
    ensures { IfOk result
        (λ undeclared. undeclared ≡ list_any (is_undeclared_engine engines.now names.now)
        attrs.now) }
{
    for attr in attrs {
        if is_undeclared_engine(alloc, engines, names, attr)? {
            return Ok(true);
        }
    }
    Ok(false)
}

/// Whether the attribute names a trip that is not declared at these names.
fn is_undeclared_trip(
    alloc: Global,
    events: &DeclaredSet,
    names: &Names,
    attr: &EngineAttr,
) -> Result<bool, NoMemory>
    ensures { IfOk result
        (λ undeclared. undeclared ≡ is_undeclared_trip events.now names.now attr.now) }
{
    match attr {
        EngineAttr::Trip(class) => {
            let wanted = declared_at(alloc, class, names)?;
            Ok(!events.declares(&wanted))
        }
        _ => Ok(false),
    }
}

/// Whether one of the attributes does.
fn any_undeclared_trip(
    alloc: Global,
    events: &DeclaredSet,
    names: &Names,
    attrs: &[EngineAttr],
) -> Result<bool, NoMemory>
    ensures { IfOk result
        (λ undeclared. undeclared ≡ list_any (is_undeclared_trip events.now names.now) attrs.now) }
{
    for attr in attrs {
        if is_undeclared_trip(alloc, events, names, attr)? {
            return Ok(true);
        }
    }
    Ok(false)
}

/// Whether no event is what the pattern is of.
fn is_undeclared(
    alloc: Global,
    events: &DeclaredSet,
    pattern: &SidePattern,
) -> Result<bool, NoMemory>
    ensures { IfOk result (λ undeclared. undeclared ≡ is_undeclared events.now pattern.now) }
{
    let wanted = subject_of(alloc, pattern)?;
    Ok(!events.declares(&wanted))
}

/// Whether this holds of one of the patterns of a side.
fn any_undeclared(
    alloc: Global,
    events: &DeclaredSet,
    side: &[SidePattern],
) -> Result<bool, NoMemory>
    ensures { IfOk result
        (λ undeclared. undeclared ≡ list_any (is_undeclared events.now) side.now) }
{
    for pattern in side {
        if is_undeclared(alloc, events, pattern)? {
            return Ok(true);
        }
    }
    Ok(false)
}

/// Whether the statement names an event or an engine that is not one of these.
pub(crate) fn names_undeclared(
    alloc: Global,
    events: &DeclaredSet,
    engines: &DeclaredSet,
    statement: &Statement,
) -> Result<bool, NoMemory>
    ensures { IfOk result
        (λ undeclared. undeclared ≡ names_undeclared events.now engines.now statement.now) }
{
    match statement {
        Statement::Event { event, attrs, .. } => any_undeclared_engine(
            alloc,
            engines,
            &event.names,
            attrs.as_slice(),
        ),
        Statement::Engine { engine, attrs, .. } => any_undeclared_trip(
            alloc,
            events,
            &engine.names,
            attrs.as_slice(),
        ),
        Statement::Prop { left, right, .. } => {
            let one = any_undeclared(alloc, events, left.as_slice())?;
            let other = any_undeclared(alloc, events, right.as_slice())?;
            Ok(either(one, other))
        }
    }
}
