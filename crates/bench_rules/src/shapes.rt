//! Trees of a given shape and size.

use ev_tree::{
    At, Compare, Cond, Declared, EventAttrs, Names, Operand, Operands, Part, Parts, Patterns,
    SidePattern, Statement, Statements, Tree, TreeText,
};
use fm_name::{Class, read_class};
use std::alloc::{AllocError, Global};

/// The class of this text.
fn class(alloc: Global, text: &str) -> Result<Class, AllocError> {
    match read_class(alloc, text) {
        Ok(Some(class)) => Ok(class),
        _ => Err(AllocError),
    }
}

/// The name of this text.
fn name(alloc: Global, text: &str) -> Result<TreeText, AllocError> {
    TreeText::new(alloc, text).map_err(|_| AllocError)
}

/// The class of the inner event of that number.
fn inner(alloc: Global, number: u32) -> Result<Class, AllocError> {
    let text = format!(in alloc; "error.bench.e{number}")?;
    class(alloc, text.as_str())
}

/// Declares an event at the path `chassis`.
fn event(alloc: Global, place: u32, class: Class) -> Result<Statement, AllocError> {
    let mut names = Vec::new(alloc);
    names.push(name(alloc, "chassis")?)?;
    let event = Declared {
        class,
        names: Names::new(names),
    };
    let attrs = EventAttrs::new(Vec::new(alloc));
    Ok(Statement::Event {
        place,
        event,
        attrs,
    })
}

/// A side with the event of that number alone.
fn side(alloc: Global, number: u32) -> Result<Patterns, AllocError> {
    let class = inner(alloc, number)?;
    let mut parts = Vec::new(alloc);
    parts.push(Part {
        name: name(alloc, "chassis")?,
        at: At::Bare,
    })?;
    let mut patterns = Vec::new(alloc);
    patterns.push(SidePattern {
        class,
        parts: Parts::new(parts),
        cond: None,
    })?;
    Ok(Patterns::new(patterns))
}

/// The first event of that number leads to the second.
fn arrow(alloc: Global, place: u32, from: u32, to: u32) -> Result<Statement, AllocError> {
    Ok(Statement::Prop {
        place,
        left: side(alloc, from)?,
        n: None,
        k: None,
        right: side(alloc, to)?,
    })
}

/// So many events, each but the first leading to the one before it.
fn links(alloc: Global, count: u32) -> Result<Vec<Statement>, AllocError> {
    let mut statements = Vec::new(alloc);
    for number in 0..count {
        statements.push(event(alloc, number, inner(alloc, number)?)?)?;
    }
    for number in 1..count {
        statements.push(arrow(alloc, number, number, number - 1)?)?;
    }
    Ok(statements)
}

/// The file of these events.
pub fn chain(alloc: Global, count: u32) -> Result<Tree, AllocError> {
    let statements = links(alloc, count)?;
    Ok(Tree {
        statements: Statements::new(statements),
    })
}

/// The same, where the first event leads to the last too.
pub fn ring(alloc: Global, count: u32) -> Result<Tree, AllocError> {
    let mut statements = links(alloc, count)?;
    statements.push(arrow(alloc, count, 0, count.saturating_sub(1))?)?;
    Ok(Tree {
        statements: Statements::new(statements),
    })
}

/// The operands of a sum of one name.
fn sum(alloc: Global, text: &str) -> Result<Operands, AllocError> {
    let mut operands = Vec::new(alloc);
    operands.push(Operand::Name(name(alloc, text)?))?;
    Ok(Operands::new(operands))
}

/// A pattern whose path has the iterators `vN` and `hN`, under the condition that they are equal.
fn pattern(alloc: Global, number: u32) -> Result<SidePattern, AllocError> {
    let down = format!(in alloc; "v{number}")?;
    let across = format!(in alloc; "h{number}")?;
    let mut parts = Vec::new(alloc);
    parts.push(Part {
        name: name(alloc, "chassis")?,
        at: At::Down(name(alloc, down.as_str())?),
    })?;
    parts.push(Part {
        name: name(alloc, "cpu")?,
        at: At::Across(name(alloc, across.as_str())?),
    })?;
    let cond = Cond::Compares {
        left: sum(alloc, down.as_str())?,
        how: Compare::Eq,
        right: sum(alloc, across.as_str())?,
    };
    Ok(SidePattern {
        class: class(alloc, "ereport.bench.r")?,
        parts: Parts::new(parts),
        cond: Some(cond),
    })
}

/// Declares the report of the patterns, at the path `chassis/cpu`.
fn report(alloc: Global) -> Result<Statement, AllocError> {
    let mut names = Vec::new(alloc);
    names.push(name(alloc, "chassis")?)?;
    names.push(name(alloc, "cpu")?)?;
    let event = Declared {
        class: class(alloc, "ereport.bench.r")?,
        names: Names::new(names),
    };
    let attrs = EventAttrs::new(Vec::new(alloc));
    Ok(Statement::Event {
        place: 1,
        event,
        attrs,
    })
}

/// One propagation from an inner event to so many patterns.
pub fn sides(alloc: Global, count: u32) -> Result<Tree, AllocError> {
    let mut statements = Vec::new(alloc);
    statements.push(event(alloc, 0, inner(alloc, 0)?)?)?;
    statements.push(report(alloc)?)?;
    let mut patterns = Vec::new(alloc);
    for number in 0..count {
        patterns.push(pattern(alloc, number)?)?;
    }
    statements.push(Statement::Prop {
        place: 2,
        left: side(alloc, 0)?,
        n: None,
        k: None,
        right: Patterns::new(patterns),
    })?;
    Ok(Tree {
        statements: Statements::new(statements),
    })
}
