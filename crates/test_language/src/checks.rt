// What the checks say of texts, of events in a ring, and of a name that no text has.
use crate::trees::tree_of;
use ev_check::{CheckFault, CheckKind, Checked, check};
use ev_tree::{Declared, EventAttrs, Names, Statement, Statements, Tree, TreeText};
use fm_name::read_class;
use std::alloc::{AllocError, Global};
use test_words::ScriptFault;

/// The word of a kind.
pub fn check_word(kind: &CheckKind) -> &'static str {
    match kind {
        CheckKind::BadKind => "kind",
        CheckKind::Twice => "twice",
        CheckKind::Missing => "missing",
        CheckKind::BadCount => "count",
        CheckKind::BadTime => "time",
        CheckKind::FreeIterator => "iterator",
        CheckKind::Undeclared => "undeclared",
        CheckKind::UpsetTrips => "upset-trips",
        CheckKind::Cycle(_) => "cycle",
    }
}

/// Puts a blank and `CLASS@NAMES`.
fn put_declared(declared: &Declared, line: &mut String) -> Result<(), AllocError> {
    line.push(' ')?;
    line.push_str(declared.class.text())?;
    let mut mark = '@';
    for name in declared.names.as_slice() {
        line.push(mark)?;
        line.push_str(name.get())?;
        mark = '/';
    }
    Ok(())
}

/// Puts the members of a cycle; of a long one their number.
fn put_members(members: &[Declared], line: &mut String) -> Result<(), AllocError> {
    if members.len() > 8 {
        let count = members.len();
        return write!(line, " of {count}");
    }
    for member in members {
        put_declared(member, line)?;
    }
    Ok(())
}

/// A fault, by its place, its word and the members of its cycle.
fn fault_text(alloc: Global, place: u32, kind: &CheckKind) -> Result<String, AllocError> {
    let word = check_word(kind);
    let mut line = format!(in alloc; "{place} {word}")?;
    if let CheckKind::Cycle(members) = kind {
        put_members(members.as_slice(), &mut line)?;
    }
    Ok(line)
}

/// What the checks say of a tree.
fn tree_answer(alloc: Global, tree: &Tree) -> Result<String, ScriptFault> {
    match check(alloc, tree) {
        Ok(_) => Ok(String::from_str(alloc, "ok")?),
        Err(CheckFault::At { place, kind }) => Ok(fault_text(alloc, place, &kind)?),
        Err(CheckFault::NoMemory) => Err(ScriptFault::NoMemory),
    }
}

/// What they say of a text that has a tree.
pub fn checks(alloc: Global, text: &[u8]) -> Result<String, ScriptFault> {
    let tree = tree_of(alloc, text)?;
    tree_answer(alloc, &tree)
}

/// The checked file of a text that has no fault.
pub fn checked(alloc: Global, text: &[u8]) -> Result<Checked, ScriptFault> {
    let tree = tree_of(alloc, text)?;
    match check(alloc, &tree) {
        Ok(checked) => Ok(checked),
        Err(CheckFault::At { .. }) => Err(ScriptFault::Words),
        Err(CheckFault::NoMemory) => Err(ScriptFault::NoMemory),
    }
}

/// Puts an event that leads to another, each by its number.
fn put_event(number: u32, next: u32, text: &mut String) -> Result<(), AllocError> {
    write!(
        text,
        "event error.e{number}@c; prop error.e{number}@c -> error.e{next}@c;\n"
    )
}

/// What they say of events in a ring of this size, each declared after the one that it leads to.
pub fn ring(alloc: Global, size: u32) -> Result<String, ScriptFault> {
    let mut text = String::new(alloc);
    let mut next = size.saturating_sub(1);
    for number in 0..size {
        put_event(number, next, &mut text)?;
        next = number;
    }
    checks(alloc, text.as_bytes())
}

/// The tree of one event at the place 7, at a path of this name.
fn event_at(alloc: Global, name: &str) -> Result<Tree, ScriptFault> {
    let class = read_class(alloc, "error.fan.hot")?.ok_or(ScriptFault::Words)?;
    let names = Vec::from_array(alloc, [TreeText::new(alloc, name)?])?;
    let statement = Statement::Event {
        place: 7,
        event: Declared {
            class,
            names: Names::new(names),
        },
        attrs: EventAttrs::new(Vec::new(alloc)),
    };
    let statements = Vec::from_array(alloc, [statement])?;
    Ok(Tree {
        statements: Statements::new(statements),
    })
}

/// What they say of an event at a path of this name.
pub fn name(alloc: Global, name: &str) -> Result<String, ScriptFault> {
    let tree = event_at(alloc, name)?;
    tree_answer(alloc, &tree)
}
