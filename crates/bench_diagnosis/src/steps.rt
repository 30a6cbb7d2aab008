// A module by itself that takes the entries of lines.
ghost use Rattle.std.specs.Prelude.{◌≡◌};

use crate::tally::Tally;
use fm_core::{Hand, Module};
use fm_line::read_line;
use std::alloc::Global;
use test_text_modules::{Cases, loaded_from, saved};
use test_words::ScriptFault;

/// A module with its place, and how many words it has said.
#[derive(Drop)]
pub struct Stepped<M> {
    hand: Hand<M>,
    words: u64,
}

impl<M: Module> Stepped<M> {
    /// The module of a number that has taken nothing.
    pub fn new(own: u32, object: M) -> Stepped<M>
        requires { (M.meaning object).own ≡ own }
    {
        Stepped {
            hand: Hand::new(own, 0, object),
            words: 0,
        }
    }

    /// Takes the entry of a line.
    pub fn step(self, alloc: Global, line: &str) -> Result<Stepped<M>, ScriptFault> {
        let Ok(entry) = read_line(alloc, line.as_bytes()) else {
            return Err(ScriptFault::NoSpelling);
        };
        if self.hand.cursor() >= 1 << 46 {
            return Err(ScriptFault::Words);
        }
        match self.hand.step(alloc, &entry) {
            Ok((hand, spoken)) => {
                let more = spoken.events.as_slice().len() as u64;
                Ok(Stepped {
                    hand,
                    words: self.words.saturating_add(more),
                })
            }
            Err(_) => Err(ScriptFault::NoMemory),
        }
    }

    /// Saves the state of the module so often, and has another one load it.
    pub fn save_often(&self, alloc: Global, other: M, rounds: u32) -> Result<(), ScriptFault> {
        let mut other = other;
        for _round in 0..rounds {
            let bytes = saved(alloc, self.hand.state())?;
            other = loaded_from(alloc, other, bytes.as_slice())?;
        }
        Ok(())
    }
}

/// What a module has come to that has taken so many entries.
pub fn tally_of<M: Module + Cases>(
    alloc: Global,
    module: &Stepped<M>,
    entries: u64,
) -> Result<Tally, ScriptFault> {
    let state = module.hand.state();
    let open = state.open_cases(alloc)?.len() as u64;
    let solved = state.solved_cases(alloc)?.len() as u64;
    Ok(Tally {
        entries,
        words: module.words,
        open,
        solved,
    })
}
