// What a module says at entries, and whether its state is kept.
use std::alloc::Global;
use test_text_modules::{Ended, Setup, loaded, put_cases, run};
use test_words::{ScriptFault, first_word, number_in, show_difference};

/// Appends what was said, and which cases are open then.
fn show_said(ended: &Ended, out: &mut String) -> Result<(), ScriptFault> {
    let said = ended.heard.text.as_str();
    out.push_str(if said.is_empty() { "silent" } else { said })?;
    put_cases(ended.again.open.as_slice(), "open", out)?;
    Ok(())
}

/// Nothing has happened to the module, which begins in this state.
pub fn begin(
    alloc: Global,
    setup: &mut Setup,
    state: Option<Vec<u8>>,
    out: &mut String,
) -> Result<(), ScriptFault> {
    setup.state = state;
    setup.entries = Vec::new(alloc);
    let ended = run(alloc, setup, 0)?;
    show_said(&ended, out)
}

/// Lets the module take the entry of a line.
pub fn take(
    alloc: Global,
    setup: &mut Setup,
    line: &str,
    out: &mut String,
) -> Result<(), ScriptFault> {
    setup.entries.push(String::from_str(alloc, line)?)?;
    let ended = run(alloc, setup, setup.last())?;
    show_said(&ended, out)
}

/// Puts the entry of a line so often behind those of the module.
fn push_often(alloc: Global, setup: &mut Setup, count: u64, line: &str) -> Result<(), ScriptFault> {
    for _time in 0..count {
        setup.entries.push(String::from_str(alloc, line)?)?;
    }
    Ok(())
}

/// Lets the module take the entry of a line so often: `COUNT LINE`.
pub fn repeat(
    alloc: Global,
    setup: &mut Setup,
    rest: &str,
    out: &mut String,
) -> Result<(), ScriptFault> {
    let (count, line) = first_word(rest);
    push_often(alloc, setup, number_in(count)?, line)?;
    let ended = run(alloc, setup, setup.last())?;
    let words = ended.heard.words;
    write!(out, "{words} words so far, at the last ")?;
    show_said(&ended, out)
}

/// Appends whether the state, loaded by another module, is saved to equal bytes.
pub fn show_kept(alloc: Global, setup: &Setup, out: &mut String) -> Result<(), ScriptFault> {
    let ended = run(alloc, setup, setup.last())?;
    show_difference(&ended.again.state, &ended.state, out)
}

/// Appends whether bytes load, as a state that is saved to equal bytes.
pub fn show_load(
    alloc: Global,
    setup: &Setup,
    bytes: &[u8],
    out: &mut String,
) -> Result<(), ScriptFault> {
    match loaded(alloc, setup, bytes) {
        Ok(again) => {
            let is_same = again.state.as_slice() == bytes;
            out.push_str(if is_same { "loads" } else { "loads as another" })?;
        }
        Err(ScriptFault::NoSpelling) => out.push_str("bad")?,
        Err(fault) => return Err(fault),
    }
    Ok(())
}
