// A module that takes the entries of a setup, and what it has come to.
use crate::cases::{CaseRow, Cases};
use crate::cores::{loaded_from, play, saved, step_all};
use crate::entries::reload_words;
use crate::files::{configs_of, module_of, twins};
use crate::heard::Heard;
use crate::setup::Setup;
use fm_core::Module;
use std::alloc::Global;
use test_words::ScriptFault;

/// What a module has that has loaded a state: its open and its solved cases, and the bytes of its
/// own state.
#[derive(Drop)]
pub struct Again {
    pub open: Vec<CaseRow>,
    pub solved: Vec<CaseRow>,
    pub state: Vec<u8>,
}

/// What the module said, the bytes of its state, and what a module has that has loaded them.
#[derive(Drop)]
pub struct Ended {
    pub heard: Heard,
    pub state: Vec<u8>,
    pub again: Again,
}

/// The bytes of the module's state after the entries of a setup, which a hand takes.
fn step_setup(alloc: Global, setup: &Setup, heard: &mut Heard) -> Result<Vec<u8>, ScriptFault> {
    let configs = configs_of(alloc, setup)?;
    let own = module_of(alloc, 0, configs)?;
    step_all(alloc, own, setup, heard)
}

/// The same where a core takes them.
fn play_setup(
    alloc: Global,
    setup: &Setup,
    number: u32,
    heard: &mut Heard,
) -> Result<Vec<u8>, ScriptFault> {
    let text = setup.first_rules()?;
    let (own, kept) = twins(alloc, 0, number, text, setup.topology.as_str())?;
    play(alloc, own, kept, setup, heard)
}

/// The same where a core takes them, or a hand if there is a reload among them or a list of
/// configurations.
fn state_after(alloc: Global, setup: &Setup, heard: &mut Heard) -> Result<Vec<u8>, ScriptFault> {
    match setup.number {
        Some(number) => {
            let mut lines = setup.entries.iter();
            if lines.any(|line| reload_words(line.as_str()).is_some()) {
                step_setup(alloc, setup, heard)
            } else {
                play_setup(alloc, setup, number, heard)
            }
        }
        None => step_setup(alloc, setup, heard),
    }
}

/// What a module has once it has loaded a state.
fn told_of<M: Module + Cases>(alloc: Global, own: M, state: &[u8]) -> Result<Again, ScriptFault> {
    let own = loaded_from(alloc, own, state)?;
    Ok(Again {
        open: own.open_cases(alloc)?,
        solved: own.solved_cases(alloc)?,
        state: saved(alloc, &own)?,
    })
}

/// What a module of a setup has that has loaded a state.
pub fn loaded(alloc: Global, setup: &Setup, state: &[u8]) -> Result<Again, ScriptFault> {
    let configs = configs_of(alloc, setup)?;
    let own = module_of(alloc, 0, configs)?;
    told_of(alloc, own, state)
}

/// What a module comes to after the entries of a setup, with the words of those from a number on.
pub fn run(alloc: Global, setup: &Setup, from: u64) -> Result<Ended, ScriptFault> {
    let mut heard = Heard::new(alloc, from);
    let state = state_after(alloc, setup, &mut heard)?;
    let again = loaded(alloc, setup, state.as_slice())?;
    Ok(Ended {
        heard,
        state,
        again,
    })
}
