// Many cases that are open at once.
ghost use Rattle.std.specs.Prelude.{◌≡◌};

use crate::files::{PROCESSORS, parts_text};
use crate::steps::{Stepped, tally_of};
use crate::tally::Tally;
use fm_core::Module;
use std::alloc::Global;
use test_text_modules::{Cases, twins};
use test_words::ScriptFault;

/// What comes once the cases are open: reports, each of which joins a case, or ticks.
#[derive(Clone, Copy, Drop)]
pub enum Further {
    Reports,
    Ticks,
}

/// A report at a processor, which opens a case or joins the one that is open there.
fn report<M: Module>(
    alloc: Global,
    module: Stepped<M>,
    cpu: u64,
) -> Result<Stepped<M>, ScriptFault> {
    let line = format!(in alloc; "report ereport.cpu.ue hc:///chassis=0/cpu={cpu} 1")?;
    module.step(alloc, line.as_str())
}

/// Opens so many cases.
fn open_all<M: Module>(
    alloc: Global,
    module: Stepped<M>,
    cases: u32,
) -> Result<Stepped<M>, ScriptFault> {
    let mut module = module;
    'cases: for case in 0..cases {
        module = report(alloc, module, u64::from(case))?;
    }
    Ok(module)
}

/// So many reports, each of which joins one of so many cases, one after the other in leaps.
fn join_all<M: Module>(
    alloc: Global,
    module: Stepped<M>,
    cases: u32,
    count: u32,
) -> Result<Stepped<M>, ScriptFault> {
    let mut module = module;
    let mut case = 0u64;
    'reports: for _report in 0..count {
        case = case.saturating_add(7919) % u64::from(cases).max(1);
        module = report(alloc, module, case)?;
    }
    Ok(module)
}

/// So many ticks at the moment of the cases.
fn tick_all<M: Module>(
    alloc: Global,
    module: Stepped<M>,
    count: u32,
) -> Result<Stepped<M>, ScriptFault> {
    let mut module = module;
    'ticks: for _tick in 0..count {
        module = module.step(alloc, "tick 1")?;
    }
    Ok(module)
}

/// Has a module open so many cases, and then take so many further entries.
fn work_through<M: Module + Cases>(
    alloc: Global,
    own: M,
    cases: u32,
    further: Further,
    count: u32,
) -> Result<Tally, ScriptFault>
    requires { (M.meaning own).own ≡ 0 }
{
    let opened = open_all(alloc, Stepped::new(0, own), cases)?;
    let ended = match further {
        Further::Reports => join_all(alloc, opened, cases, count)?,
        Further::Ticks => tick_all(alloc, opened, count)?,
    };
    let entries = u64::from(cases).saturating_add(u64::from(count));
    tally_of(alloc, &ended, entries)
}

/// A module of so many processors, in which so many cases are open, takes so many further entries.
pub fn with_many(
    alloc: Global,
    parts: u32,
    cases: u32,
    further: Further,
    count: u32,
) -> Result<Tally, ScriptFault> {
    let parts = parts_text(alloc, parts, 0)?;
    let (own, _kept) = twins(alloc, 0, 0, PROCESSORS, parts.as_str())?;
    work_through(alloc, own, cases, further, count)
}
