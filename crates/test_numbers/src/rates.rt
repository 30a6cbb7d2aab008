//! Rate engines on plain numbers.

ghost use Rattle.std.specs.Prelude.{◌≡◌};
ghost use Rattle.dx_serd.specs.Rates.{none_past};

use dx_serd::{Engine, are_lawful, last_decide, notes_are_kept};
use std::alloc::Global;
use std::test::Fail;

const HOUR: u64 = 3_600_000_000_000;

// an engine of this n and t, which are in range
fn engine_of(alloc: Global, n: u32, t: u64) -> Result<Engine, Fail> {
    if n < 1 || n > 1024 || t < 1 || t > 1 << 60 {
        return Err(Fail::new("out of range"));
    }
    Ok(Engine::new(alloc, n, t)?)
}

// whether some moments are none past another
fn none_later(moments: &[u64], moment: u64) -> bool
    ensures { result ≡ none_past moment moments.now }
{
    moments.iter().all(|x| *x <= moment)
}

// notes a moment that no kept moment is past
fn note(alloc: Global, engine: &mut Engine, moment: u64) -> Result<bool, Fail> {
    let kept = engine.moments(alloc)?;
    if none_later(&kept, moment) {
        Ok(engine.note(moment))
    } else {
        Err(Fail::new("a kept moment is past it"))
    }
}

// which of three moments fire
fn fired(alloc: Global, n: u32, t: u64, moments: [u64; 3]) -> Result<[bool; 3], Fail> {
    let mut engine = engine_of(alloc, n, t)?;
    let [first, second, third] = moments;
    let one = note(alloc, &mut engine, first)?;
    let two = note(alloc, &mut engine, second)?;
    let three = note(alloc, &mut engine, third)?;
    Ok([one, two, three])
}

// how often an engine fires that notes one moment so many times
fn times_fired(alloc: Global, engine: &mut Engine, times: u32, moment: u64) -> Result<u32, Fail> {
    let mut count: u32 = 0;
    for _turn in 0..times {
        if note(alloc, engine, moment)? {
            count = count.saturating_add(1);
        }
    }
    Ok(count)
}

// whether an engine can keep these moments, and then its copy keeps them
fn restores(alloc: Global, n: u32, t: u64, moments: &[u64]) -> Result<bool, Fail> {
    if n < 1 || n > 1024 || t < 1 || t > 1 << 60 {
        return Err(Fail::new("out of range"));
    }
    if !are_lawful(n, t, moments) {
        return Ok(false);
    }
    let engine = Engine::with_moments(alloc, n, t, moments)?;
    let kept = engine.copy(alloc)?.moments(alloc)?;
    if kept.as_slice() == moments {
        Ok(true)
    } else {
        Err(Fail::new("other moments"))
    }
}

#[test]
fn fires_by_the_count(rt: HostRuntime) -> Result<(), Fail> {
    let alloc = rt.alloc();
    assert_eq!(rt; fired(alloc, 1, 1, [5, 5, 6])?, [true, true, true]);
    assert_eq!(rt;
        fired(alloc, 3, HOUR, [0, 10_000_000_000, HOUR])?,
        [false, false, true]
    );
    assert_eq!(rt;
        fired(alloc, 3, HOUR, [0, 10_000_000_000, HOUR + 1])?,
        [false, false, false]
    );
    assert_eq!(rt; fired(alloc, 2, 10, [0, 10, 11])?, [false, true, false]);
    assert_eq!(rt; fired(alloc, 2, 1 << 60, [0, 7, 7])?, [false, true, false]);
    Ok(())
}

#[test]
fn keeps_what_it_can_keep(rt: HostRuntime) -> Result<(), Fail> {
    let alloc = rt.alloc();
    assert!(rt; restores(alloc, 3, 10, &[])?);
    assert!(rt; restores(alloc, 3, 10, &[7])?);
    assert!(rt; restores(alloc, 3, 10, &[7, 7])?);
    assert!(rt; restores(alloc, 3, 10, &[0, 5, 11])?);
    assert!(rt; !restores(alloc, 3, 10, &[7, 6])?);
    assert!(rt; !restores(alloc, 3, 10, &[0, 5, 10])?);
    assert!(rt; !restores(alloc, 3, 10, &[0, 20, 40, 60])?);
    Ok(())
}

#[test]
fn fires_at_the_thousandth_moment(rt: HostRuntime) -> Result<(), Fail> {
    let alloc = rt.alloc();
    let mut engine = engine_of(alloc, 1024, 1)?;
    assert_eq!(rt; times_fired(alloc, &mut engine, 1023, 7)?, 0);
    assert_eq!(rt; engine.moments(alloc)?.len(), 1023);
    assert_eq!(rt; times_fired(alloc, &mut engine, 1, 7)?, 1);
    assert_eq!(rt; engine.moments(alloc)?.len(), 0);
    Ok(())
}

#[test]
fn forgets_at_a_reset(rt: HostRuntime) -> Result<(), Fail> {
    let alloc = rt.alloc();
    let mut engine = engine_of(alloc, 2, 10)?;
    assert_eq!(rt; times_fired(alloc, &mut engine, 1, 5)?, 0);
    engine.reset();
    assert_eq!(rt; times_fired(alloc, &mut engine, 1, 6)?, 0);
    assert_eq!(rt; times_fired(alloc, &mut engine, 1, 6)?, 1);
    last_decide();
    notes_are_kept();
    Ok(())
}
