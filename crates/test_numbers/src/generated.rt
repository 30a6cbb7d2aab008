//! Entries made of a number, in plain numbers.

ghost use Rattle.std.specs.Prelude.{◌≡◌, ◌<◌, ◌^◌, IfOk, IsTrue};
ghost use Rattle.fm_gen.specs.Generated.{are_ereports};

use fm_entry::Entry;
use fm_gen::{Gen, entries_are_generated};
use fm_name::{EventName, read_class, read_fmri};
use std::alloc::Global;
use std::test::Fail;

// an event of two texts
fn event(alloc: Global, class: &str, path: &str) -> Result<EventName, Fail> {
    let class = read_class(alloc, class)?.ok_or("no class")?;
    let path = read_fmri(alloc, path)?.ok_or("no path")?;
    Ok(EventName { class, path })
}

// three events to report
fn three(alloc: Global) -> Result<Vec<EventName>, Fail> {
    let mut events = Vec::new(alloc);
    events.push(event(alloc, "ereport.cpu.ue", "hc:///chassis=0/cpu=0")?)?;
    events.push(event(alloc, "ereport.cpu.wd", "hc:///chassis=0/cpu=0")?)?;
    events.push(event(alloc, "ereport.cpu.ue", "hc:///chassis=0/cpu=1")?)?;
    Ok(events)
}

// whether all events can be reported
fn can_be_reported(events: &[EventName]) -> bool
    ensures { result ≡ are_ereports events.now }
{
    events.iter().all(|event| event.class.is_ereport())
}

// a generator over events that can be reported
fn generator(alloc: Global, seed: u64, start: u64, events: Vec<EventName>) -> Result<Gen, Fail> {
    if start < 1 << 61 && can_be_reported(&events) {
        Ok(Gen::new(alloc, seed, start, events))
    } else {
        Err(Fail::new("not to be reported"))
    }
}

// the class, the path and the moment of the next entry, where it is a report
fn next_report(alloc: Global, generator: &mut Gen) -> Result<String, Fail> {
    match generator.next()? {
        Some(
            Entry::Report {
                class,
                path,
                moment,
                ..
            },
        ) => Ok(format!(in alloc; "{class} {path} {moment}")?),
        _ => Err(Fail::new("no report")),
    }
}

// the moment of the next entry, where it is the tick
fn next_tick(generator: &mut Gen) -> Result<u64, Fail> {
    match generator.next()? {
        Some(Entry::Tick { moment }) => Ok(moment),
        _ => Err(Fail::new("no tick")),
    }
}

#[test]
fn reports_and_then_ticks(rt: HostRuntime) -> Result<(), Fail> {
    let alloc = rt.alloc();
    let mut generator = generator(alloc, 7, 10, three(alloc)?)?;
    let first = next_report(alloc, &mut generator)?;
    assert_eq!(rt;
        first.as_str(),
        "ereport.cpu.ue hc:///chassis=0/cpu=1 52263241"
    );
    let second = next_report(alloc, &mut generator)?;
    assert_eq!(rt;
        second.as_str(),
        "ereport.cpu.ue hc:///chassis=0/cpu=0 637981914"
    );
    let third = next_report(alloc, &mut generator)?;
    assert_eq!(rt;
        third.as_str(),
        "ereport.cpu.wd hc:///chassis=0/cpu=0 935239133"
    );
    for _turn in 3..1200 {
        let _report = next_report(alloc, &mut generator)?;
    }
    assert_eq!(rt; next_tick(&mut generator)?, 1_127_024_071_551_577);
    assert!(rt; generator.next()?.is_none());
    assert!(rt; generator.next()?.is_none());
    entries_are_generated();
    Ok(())
}

#[test]
fn ticks_where_nothing_can_be_reported(rt: HostRuntime) -> Result<(), Fail> {
    let alloc = rt.alloc();
    let mut generator = generator(alloc, 7, 10, Vec::new(alloc))?;
    assert_eq!(rt; next_tick(&mut generator)?, 1_125_899_906_842_634);
    assert!(rt; generator.next()?.is_none());
    Ok(())
}
