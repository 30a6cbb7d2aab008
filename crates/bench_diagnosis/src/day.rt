// Generated entries over a chassis with 200 processors and 40 memories.
ghost use Rattle.fm_core.specs.Seen.{seen};
ghost use Rattle.test_text_modules.specs.Alike.{AreTwins};
ghost use Rattle.bench_diagnosis.specs.Twos.{IsTwo};

use crate::cores::{accept, core_of};
use crate::files::{MEMORIES, PROCESSORS, parts_text};
use crate::steps::{Stepped, tally_of};
use crate::tally::Tally;
use fm_core::{Core, Counter, Module};
use std::alloc::{AllocError, Global};
use test_text_modules::{Cases, twins};
use test_words::ScriptFault;

/// How many reports there are: two of each processor, three of each memory.
const REPORTS: u64 = 520;

/// The reports that are drawn, and the moment.
#[derive(Drop)]
pub struct Draws {
    state: u64,
    moment: u64,
}

/// The class of the report of a processor, and of a memory.
fn cpu_class(number: u64) -> &'static str {
    if number % 2 == 0 { "cpu.ue" } else { "cpu.wd" }
}

fn dimm_class(number: u64) -> &'static str {
    match number % 3 {
        0 => "mem.ce",
        1 => "mem.thr",
        _ => "mem.ue",
    }
}

impl Draws {
    /// The draws of the generator that begins with 7.
    pub fn new() -> Draws {
        Draws {
            state: 7,
            moment: 0,
        }
    }

    fn draw(&mut self) -> u64 {
        self.state = self
            .state
            .wrapping_mul(6_364_136_223_846_793_005)
            .wrapping_add(1_442_695_040_888_963_407);
        self.state >> 33
    }

    /// The line of the next report.
    pub fn line(&mut self, alloc: Global) -> Result<String, AllocError> {
        let number = self.draw() % REPORTS;
        self.moment = self.moment.saturating_add(self.draw() % 2_000_000_000);
        let moment = self.moment;
        if number < 400 {
            let class = cpu_class(number);
            let cpu = number / 2;
            format!(in alloc; "report ereport.{class} hc:///chassis=0/cpu={cpu} {moment}")
        } else {
            let number = number.saturating_sub(400);
            let class = dimm_class(number);
            let dimm = number / 3;
            format!(in alloc; "report ereport.{class} hc:///chassis=0/dimm={dimm} {moment}")
        }
    }
}

fn accept_all<M: Module>(alloc: Global, core: &mut Core<M>, count: u32) -> Result<(), ScriptFault>
    requires { IsTwo (seen M.Module core.old) }
    ensures { IsTwo (seen M.Module core.new) }
{
    let mut draws = Draws::new();
    'lines: for _line in 0..count {
        accept(alloc, core, draws.line(alloc)?.as_str())?;
    }
    Ok(())
}

/// How many words a core has said.
fn words_of<M: Module>(core: &Core<M>) -> u64 {
    let mut words = 0u64;
    for spoken in core.spoken() {
        words = words.saturating_add(spoken.events.as_slice().len() as u64);
    }
    words
}

/// A core of two modules takes so many entries.
fn work<M: Module>(
    alloc: Global,
    first: (M, M),
    second: (M, M),
    count: u32,
) -> Result<Tally, ScriptFault>
    requires first { AreTwins M.Module 0 first.0 first.1 }
    requires second { AreTwins M.Module 1 second.0 second.1 }
{
    let mut core = core_of(alloc, first, second)?;
    accept_all(alloc, &mut core, count)?;
    core.drain(alloc)?;
    Ok(Tally {
        entries: core.len(),
        words: words_of(&core),
        open: 0,
        solved: 0,
    })
}

/// A core of the two diagnosis modules takes so many entries.
pub fn diagnose(alloc: Global, count: u32) -> Result<Tally, ScriptFault> {
    let parts = parts_text(alloc, 200, 40)?;
    let first = twins(alloc, 0, 0, PROCESSORS, parts.as_str())?;
    let second = twins(alloc, 1, 0, MEMORIES, parts.as_str())?;
    work(alloc, first, second, count)
}

/// A core of two counters takes so many entries.
pub fn count(alloc: Global, count: u32) -> Result<Tally, ScriptFault> {
    let first = (Counter::new(alloc, 0), Counter::new(alloc, 0));
    let second = (Counter::new(alloc, 1), Counter::new(alloc, 1));
    work(alloc, first, second, count)
}

/// Lets a module by itself take so many entries, which are not kept.
fn step_all<M: Module>(
    alloc: Global,
    stepped: Stepped<M>,
    count: u32,
) -> Result<Stepped<M>, ScriptFault> {
    let mut draws = Draws::new();
    let mut stepped = stepped;
    'lines: for _line in 0..count {
        stepped = stepped.step(alloc, draws.line(alloc)?.as_str())?;
    }
    Ok(stepped)
}

/// A module takes so many entries by itself, and its state is then saved, and loaded by the other
/// one, so often.
fn step_module<M: Module + Cases>(
    alloc: Global,
    own: u32,
    modules: (M, M),
    count: u32,
    rounds: u32,
) -> Result<Tally, ScriptFault>
    requires { AreTwins M.Module own modules.0 modules.1 }
{
    let (module, other) = modules;
    let stepped = step_all(alloc, Stepped::new(own, module), count)?;
    stepped.save_often(alloc, other, rounds)?;
    tally_of(alloc, &stepped, u64::from(count))
}

/// The same of the module of a number with these rules.
fn step_one(
    alloc: Global,
    own: u32,
    rules: &str,
    count: u32,
    rounds: u32,
) -> Result<Tally, ScriptFault> {
    let parts = parts_text(alloc, 200, 40)?;
    let modules = twins(alloc, own, 0, rules, parts.as_str())?;
    step_module(alloc, own, modules, count, rounds)
}

/// Each of the two diagnosis modules takes so many entries by itself, and its state is then saved
/// and loaded so often.
pub fn step(alloc: Global, count: u32, rounds: u32) -> Result<Tally, ScriptFault> {
    let first = step_one(alloc, 0, PROCESSORS, count, rounds)?;
    let second = step_one(alloc, 1, MEMORIES, count, rounds)?;
    Ok(first.with(second))
}
