// What checked files have.
use crate::checks::checked;
use ev_check::{Checked, DeclKind, EventSpec, PropSpec, SerdSpec};
use ev_tree::Count;
use std::alloc::{AllocError, Global};
use test_words::ScriptFault;

/// The rate of a root, and whether it is retired.
fn root_text(alloc: Global, word: &str, fit: u32, retire: bool) -> Result<String, AllocError> {
    let retired = if retire { "retired" } else { "kept" };
    format!(in alloc; "{word} {fit} {retired}")
}

/// What an event is.
fn kind_text(alloc: Global, kind: DeclKind) -> Result<String, AllocError> {
    match kind {
        DeclKind::Fault { fit, retire } => root_text(alloc, "fault", fit, retire),
        DeclKind::Defect { fit, retire } => root_text(alloc, "defect", fit, retire),
        DeclKind::Upset { engine: None } => String::from_str(alloc, "upset"),
        DeclKind::Upset {
            engine: Some(engine),
        } => format!(in alloc; "upset of {engine}"),
        DeclKind::Inner => String::from_str(alloc, "inner"),
        DeclKind::Report { within } => format!(in alloc; "report {within}"),
    }
}

/// Puts the kind of each event, with a comma behind it.
fn put_events(alloc: Global, events: &[EventSpec], line: &mut String) -> Result<(), AllocError> {
    for event in events {
        let kind = kind_text(alloc, event.kind)?;
        write!(line, "{kind}, ")?;
    }
    Ok(())
}

/// Puts N, T and the trip of each engine.
fn put_engines(engines: &[SerdSpec], line: &mut String) -> Result<(), AllocError> {
    for engine in engines {
        let SerdSpec { n, t, trip, .. } = engine;
        write!(line, "engine {n} {t} {trip}, ")?;
    }
    Ok(())
}

/// Puts a number at an arrow.
fn put_count(count: Count, line: &mut String) -> Result<(), AllocError> {
    match count {
        Count::All => line.push('A'),
        Count::Number(number) => write!(line, "{number}"),
    }
}

/// Puts N and K of each propagation.
fn put_props(props: &[PropSpec], line: &mut String) -> Result<(), AllocError> {
    for prop in props {
        line.push_str("prop ")?;
        put_count(prop.n, line)?;
        line.push('/')?;
        put_count(prop.k, line)?;
        line.push_str(", ")?;
    }
    Ok(())
}

/// What a checked file has.
fn file_text(alloc: Global, file: &Checked) -> Result<String, AllocError> {
    let mut line = String::new(alloc);
    put_events(alloc, file.events(), &mut line)?;
    put_engines(file.engines(), &mut line)?;
    put_props(file.props(), &mut line)?;
    Ok(line)
}

/// What the checked file of a text has, and a copy of it.
pub fn checked_file(alloc: Global, text: &[u8]) -> Result<String, ScriptFault> {
    let file = checked(alloc, text)?;
    let copy = file.copy(alloc)?;
    let line = file_text(alloc, &file)?;
    if line != file_text(alloc, &copy)? {
        return Ok(String::from_str(alloc, "a copy differs")?);
    }
    let kept = line.as_str().strip_suffix(", ").unwrap_or(line.as_str());
    Ok(String::from_str(alloc, kept)?)
}
