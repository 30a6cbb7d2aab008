// Guarded links, and those that payloads break.
use crate::checks::checked;
use crate::conditions::bank_props;
use crate::parts::topology;
use crate::words::{numbers_in, numbers_text, two_in};
use ev_check::Checked;
use ev_guards::Guards;
use ev_inst::{instantiate, make_guards};
use fm_topo::Topo;
use std::alloc::Global;
use test_words::{ScriptFault, first_word, small_in};

/// The guards of a rule file over some parts.
fn guards_of(alloc: Global, file: &Checked, topo: Topo) -> Result<Guards, ScriptFault> {
    let Ok(made) = instantiate(alloc, file, &topo) else {
        return Err(ScriptFault::NoMemory);
    };
    match make_guards(alloc, file, topo, &made.graph) {
        Ok(guards) => Ok(guards),
        Err(_) => Err(ScriptFault::NoMemory),
    }
}

/// The guards of rules over some parts.
fn guards_in(alloc: Global, rules: &[u8], parts: &[u8]) -> Result<Guards, ScriptFault> {
    let file = checked(alloc, rules)?;
    let topo = topology(alloc, parts)?;
    guards_of(alloc, &file, topo)
}

/// Whether a link is guarded, `INSTANCE NODE`.
pub fn guarded(
    alloc: Global,
    rules: &[u8],
    parts: &[u8],
    words: &str,
) -> Result<String, ScriptFault> {
    let (instance, node) = two_in(words)?;
    let guards = guards_in(alloc, rules, parts)?;
    let answer = guards.is_guarded(instance, node);
    Ok(format!(in alloc; "{answer}")?)
}

/// The instances whose link to a node a payload with these banks breaks.
fn broken_text(
    alloc: Global,
    guards: &Guards,
    node: u32,
    banks: &[u32],
) -> Result<String, ScriptFault> {
    let props = bank_props(alloc, banks)?;
    let found = guards.broken_by(alloc, node, &props)?;
    numbers_text(alloc, &found)
}

/// The same of rules over some parts, `NODE BANK ..`.
pub fn breaks(
    alloc: Global,
    rules: &[u8],
    parts: &[u8],
    words: &str,
) -> Result<String, ScriptFault> {
    let (node, rest) = first_word(words);
    let node = small_in(node)?;
    let banks = numbers_in(alloc, rest)?;
    let guards = guards_in(alloc, rules, parts)?;
    broken_text(alloc, &guards, node, &banks)
}
