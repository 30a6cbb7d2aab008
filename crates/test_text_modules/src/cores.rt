// Entries taken by a core, and by a hand.
ghost use Rattle.std.specs.Prelude.{◌≡◌, IfOk};
ghost use Rattle.fm_core.specs.Seen.{seen};
ghost use Rattle.test_text_modules.specs.Ones.{IsOne};
ghost use Rattle.test_text_modules.specs.Alike.{AreTwins};

use crate::entries::{any_entry_of, entry_of};
use crate::heard::Heard;
use crate::setup::Setup;
use fm_core::{Core, Hand, LoadFault, Module, NoMemory, restore};
use fm_entry::Spoken;
use std::alloc::Global;
use test_words::ScriptFault;

/// The module in the state of the bytes.
pub fn loaded_from<M: Module>(alloc: Global, object: M, bytes: &[u8]) -> Result<M, ScriptFault>
    ensures { IfOk result (λ loaded. M.meaning loaded ≡ M.meaning object) }
{
    let mut object = object;
    match object.load(alloc, bytes) {
        Ok(()) => Ok(object),
        Err(LoadFault::Bad) => Err(ScriptFault::NoSpelling),
        Err(LoadFault::NoMemory) => Err(ScriptFault::NoMemory),
    }
}

/// The module in the state of the bytes, if there are some.
fn begun<M: Module>(alloc: Global, own: M, state: &Option<Vec<u8>>) -> Result<M, ScriptFault>
    ensures { IfOk result (λ begun. M.meaning begun ≡ M.meaning own) }
{
    match state {
        Some(bytes) => loaded_from(alloc, own, bytes.as_slice()),
        None => Ok(own),
    }
}

/// A core of a module that has taken nothing.
fn core_of<M: Module>(alloc: Global, own: M, kept: M) -> Result<Core<M>, ScriptFault>
    requires { AreTwins M.Module 0 own kept }
    ensures { IfOk result (λ core. IsOne (seen M.Module core)) }
{
    let mut hands = Vec::new(alloc);
    hands.push(Hand::new(0, 0, own))?;
    let mut before = Vec::new(alloc);
    before.push(Hand::new(0, 0, kept))?;
    Ok(Core::new(alloc, 0, hands, before)?)
}

/// A core of a module that begins in the state of the bytes, if there are some.
fn core_in<M: Module>(
    alloc: Global,
    own: M,
    kept: M,
    state: &Option<Vec<u8>>,
) -> Result<Core<M>, ScriptFault>
    requires { AreTwins M.Module 0 own kept }
    ensures { IfOk result (λ core. IsOne (seen M.Module core)) }
{
    let own = begun(alloc, own, state)?;
    let mut kept = kept;
    restore(alloc, &own, &mut kept)?;
    core_of(alloc, own, kept)
}

fn accept<M: Module>(alloc: Global, core: &mut Core<M>, line: &str) -> Result<(), ScriptFault>
    requires { IsOne (seen M.Module core.old) }
    ensures { IsOne (seen M.Module core.new) }
{
    let Some(entry) = entry_of(alloc, line) else {
        return Err(ScriptFault::Words);
    };
    if core.len() >= 1 << 46 {
        return Err(ScriptFault::Words);
    }
    core.accept(entry)?;
    Ok(())
}

fn accept_all<M: Module>(
    alloc: Global,
    core: &mut Core<M>,
    lines: &[String],
) -> Result<(), ScriptFault>
    requires { IsOne (seen M.Module core.old) }
    ensures { IsOne (seen M.Module core.new) }
{
    'lines: for line in lines {
        accept(alloc, core, line.as_str())?;
    }
    Ok(())
}

fn tell_all(alloc: Global, records: &[Spoken], heard: &mut Heard) -> Result<(), ScriptFault> {
    for spoken in records {
        heard.take(alloc, spoken)?;
    }
    Ok(())
}

/// The bytes of the module's state.
pub fn saved<M: Module>(alloc: Global, module: &M) -> Result<Vec<u8>, NoMemory> {
    let mut bytes = Vec::new(alloc);
    module.save(&mut bytes)?;
    Ok(bytes)
}

/// Lets a core of the module take the entries of a setup, tells what it said, and answers the bytes
/// of its state.
pub(crate) fn play<M: Module>(
    alloc: Global,
    own: M,
    kept: M,
    setup: &Setup,
    heard: &mut Heard,
) -> Result<Vec<u8>, ScriptFault>
    requires { AreTwins M.Module 0 own kept }
{
    let mut core = core_in(alloc, own, kept, &setup.state)?;
    accept_all(alloc, &mut core, setup.entries.as_slice())?;
    core.drain(alloc)?;
    tell_all(alloc, core.spoken(), heard)?;
    Ok(saved(alloc, core.hand(0).state())?)
}

fn step<M: Module>(
    alloc: Global,
    hand: Hand<M>,
    line: &str,
    heard: &mut Heard,
) -> Result<Hand<M>, ScriptFault> {
    let Some(entry) = any_entry_of(alloc, line) else {
        return Err(ScriptFault::Words);
    };
    if hand.cursor() >= 1 << 46 {
        return Err(ScriptFault::Words);
    }
    match hand.step(alloc, &entry) {
        Ok((hand, spoken)) => {
            heard.take(alloc, &spoken)?;
            Ok(hand)
        }
        Err(_) => Err(ScriptFault::NoMemory),
    }
}

/// The same of a hand, which also takes reloads.
pub(crate) fn step_all<M: Module>(
    alloc: Global,
    own: M,
    setup: &Setup,
    heard: &mut Heard,
) -> Result<Vec<u8>, ScriptFault>
    requires { (M.meaning own).own ≡ 0 }
{
    let mut hand = Hand::new(0, 0, begun(alloc, own, &setup.state)?);
    'lines: for line in setup.entries.as_slice() {
        hand = step(alloc, hand, line.as_str(), heard)?;
    }
    Ok(saved(alloc, hand.state())?)
}
