// A core of two counters that takes reports.
ghost use Rattle.std.specs.Prelude.{◌≡◌, ◌≤◌, ◌^◌, [], ◌∷◌, length, IfOk, OnOk};
ghost use Rattle.bench_core.specs.Cores.{HasCounters, fresh_hand};
ghost use Rattle.fm_core.specs.Book.{IsAdmitted};

use fm_core::{Core, Counter, Hand};
use fm_entry::Entry;
use fm_line::read_line;
use std::alloc::{AllocError, Global};

/// A report of one of 20 classes at one of 200 paths.
fn report(alloc: Global, number: u32) -> Result<Entry, AllocError>
    ensures { IfOk result IsAdmitted }
{
    let class = number % 20;
    let path = number % 200;
    let line = format!(in alloc;
        "report ereport.cpu.c{class} hc:///chassis=0/cpu={path} {number}"
    )?;
    match read_line(alloc, line.as_bytes()) {
        Ok(entry) => Ok(entry),
        Err(_) => Err(AllocError),
    }
}

/// A hand of each of two counters.
fn hands(alloc: Global) -> Result<Vec<Hand<Counter>>, AllocError>
    ensures { IfOk result (λ hands. hands.items ≡ fresh_hand 0 ∷ fresh_hand 1 ∷ []) }
{
    let mut hands = Vec::new(alloc);
    hands.push(Hand::new(0, 0, Counter::new(alloc, 0)))?;
    hands.push(Hand::new(1, 0, Counter::new(alloc, 1)))?;
    Ok(hands)
}

/// A core of two counters.
fn core(alloc: Global) -> Result<Core<Counter>, AllocError>
    ensures filled { IfOk result HasCounters }
    ensures none { IfOk result (λ core. core.entries ≡ []) }
{
    let own = hands(alloc)?;
    let kept = hands(alloc)?;
    Core::new(alloc, 0, own, kept).map_err(|_| AllocError)
}

/// Takes so many reports into a core.
fn fill(alloc: Global, core: &mut Core<Counter>, count: u32) -> Result<(), AllocError>
    requires filled { HasCounters core.old }
    requires none { core.old.entries ≡ [] }
    ensures { OnOk result (HasCounters core.new) }
{
    for number in 0..count {
        let entry = report(alloc, number)?;
        core.accept(entry).map_err(|_| AllocError)?;
    }
    Ok(())
}

/// Takes so many reports into one core of two counters, and works neither: whether each was taken.
pub fn accept_only(alloc: Global, count: u32) -> Result<bool, AllocError> {
    let mut core = core(alloc)?;
    fill(alloc, &mut core, count)?;
    Ok(core.len() == u64::from(count))
}

/// Takes so many reports into one core of two counters and works both to the end: whether each was
/// taken.
pub fn accept_and_drain(alloc: Global, count: u32) -> Result<bool, AllocError> {
    let mut core = core(alloc)?;
    fill(alloc, &mut core, count)?;
    core.drain(alloc).map_err(|_| AllocError)?;
    Ok(core.hand(0).cursor() == u64::from(count) && core.hand(1).cursor() == u64::from(count))
}
