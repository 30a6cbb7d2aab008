//! States, loaded.

ghost use Rattle.std.specs.Prelude.{◌≡◌, ◌<◌, ◌^◌, length, IsTrue, IfOk};
ghost use Rattle.fm_bytes.specs.Numbers.{AllBytes};
ghost use Rattle.dx_state.specs.Configured.{found_at};
ghost use Rattle.dx_kept.specs.Kept.{diagnosis_of};
ghost use Rattle.dx_step.specs.Lawful.{are_rules, is_there};
ghost use Rattle.dx_rules.specs.Rulebooks.{rules_in};
ghost use Rattle.dx_restore.specs.Restoring.{IsRestorable};
ghost use Rattle.dx_restore.specs.Loading.{IsLoaded, SpellsNone, IsReadAs, IsKeptAs, IsRestoredAs};

use crate::cases::restore_cases;
use crate::engines::restore_engines;
use crate::parts::Loaded;
use dx_kept::{KeptState, ReadFault, take_state};
use dx_lawful::is_state;
use dx_rules::{Configs, Rulebook};
use ev_graph::{Graph, NoMemory};
use fm_bytes::Input;
use fm_core::LoadFault;
use std::alloc::Global;

/// Whether there is a configuration of this number.
fn has_configuration(rules: &Rulebook, conf: u32) -> bool
    ensures { result ≡ is_there (found_at (rules_in rules.now).configurations conf) }
{
    match &rules.configs {
        Configs::Single { number, .. } => conf == *number,
        Configs::Listed(list) => (conf as usize) < list.len(),
    }
}

/// How many bytes there are, which is a number of 64 bits.
fn count(bytes: &[u8]) -> usize
    ensures few { length bytes.now < 2 ^ 64 }
    ensures all { AllBytes bytes.now }
{
    Input::new(bytes).left()
}

/// The state that the bytes spell, where it is lawful in all but that each open case waits for a
/// report; else none.
fn read_state(alloc: Global, rules: &Rulebook, bytes: &[u8]) -> Result<Option<KeptState>, NoMemory>
    requires { IsTrue (are_rules (rules_in rules.now)) }
    ensures { IfOk result (IsKeptAs (rules_in rules.now) bytes.now) }
{
    let _count = count(bytes);
    let kept = match take_state(alloc, rules.own, bytes) {
        Ok(kept) => kept,
        Err(ReadFault::NoSpelling) => return Ok(None),
        Err(ReadFault::NoMemory) => return Err(NoMemory),
    };
    if !has_configuration(rules, kept.conf) {
        return Ok(None);
    }
    let ruled = rules.ruled(kept.conf);
    let lawful = is_state(alloc, rules.own, &ruled.graph, ruled, &kept)?;
    if lawful { Ok(Some(kept)) } else { Ok(None) }
}

/// The parts of a kept state, which is lawful in a configuration with this graph in all but that
/// each open case waits for a report; none, where some case does not.
fn restore(alloc: Global, graph: &Graph, kept: KeptState) -> Result<Option<Loaded>, NoMemory>
    requires { IsRestorable graph.now (diagnosis_of kept) }
    ensures { IfOk result (IsRestoredAs graph.now (diagnosis_of kept)) }
{
    let KeptState {
        conf,
        time,
        next,
        open_cases,
        solved,
        engines,
    } = kept;
    let Some(cases) = restore_cases(alloc, graph, time, open_cases.as_slice())? else {
        return Ok(None);
    };
    let engines = restore_engines(alloc, time, graph.engines(), engines.as_slice())?;
    Ok(Some(Loaded {
        conf,
        time,
        next,
        cases,
        solved: solved.into_vec(),
        engines,
    }))
}

/// The parts of the lawful state that the bytes spell, or none where they spell none.
fn read_parts(alloc: Global, rules: &Rulebook, bytes: &[u8]) -> Result<Option<Loaded>, NoMemory>
    requires { IsTrue (are_rules (rules_in rules.now)) }
    ensures { IfOk result (IsReadAs (rules_in rules.now) bytes.now) }
{
    let Some(kept) = read_state(alloc, rules, bytes)? else {
        return Ok(None);
    };
    let graph = rules.graph(kept.conf);
    let parts = restore(alloc, graph, kept)?;
    Ok(parts)
}

/// The parts of the lawful state that the bytes spell. `Bad` says that they spell none.
pub fn load(alloc: Global, rules: &Rulebook, bytes: &[u8]) -> Result<Loaded, LoadFault>
    requires { IsTrue (are_rules (rules_in rules.now)) }
    ensures ok { IfOk result (IsLoaded (rules_in rules.now) bytes.now) }
    ensures bad { result ≡ Err LoadFault.Bad → SpellsNone (rules_in rules.now) bytes.now }
{
    match read_parts(alloc, rules, bytes) {
        Ok(Some(loaded)) => Ok(loaded),
        Ok(None) => Err(LoadFault::Bad),
        Err(_) => Err(LoadFault::NoMemory),
    }
}
