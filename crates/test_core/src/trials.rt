// A core of two counters that takes reports, in one order and another.
use crate::trials::loaded::{Loaded, core_of_one, step_loaded, work_loaded};
use fm_core::{
    Core, Counter, Hand, LoadFault, Module, Worked, any_order, configurations_follow_reloads,
    floors_are_lawful, hands_follow_on, longer_lists_agree, restore, words_are_spelled,
};
use fm_entry::{Entry, ListEvent, Spoken};
use fm_name::{Category, read_class, read_fmri};
use fm_nv::Nv;
use std::alloc::Global;
use std::process::Abort;
use std::test::Fail;

mod loaded;

ghost use Rattle.std.specs.Prelude.{◌≡◌, ◌<◌, ◌≤◌, ◌^◌, true, [], ◌∷◌, length, All, IfSome, OnSome};
ghost use Rattle.fm_entry.specs.Entries.{IsSpelled};
ghost use Rattle.fm_core.specs.Book.{IsAdmitted};
ghost use Rattle.fm_core.specs.Hands.{shown};
ghost use Rattle.fm_core.specs.Counter.{counters};
ghost use Rattle.test_core.specs.Trials.{IsFilled, fresh_hand, shown_after};

// a report without a payload
fn report(alloc: Global, class: &str, moment: u64) -> Option<Entry>
    requires { moment < 2 ^ 62 }
    ensures admitted { IfSome result IsAdmitted }
    ensures spelled { IfSome result IsSpelled }
{
    let class = read_class(alloc, class).ok()??;
    let path = read_fmri(alloc, "hc:///chassis=0/cpu=1").ok()??;
    let payload = Nv::new(alloc);
    let _class = class.text();
    let _path = path.text();
    let _deep = payload.depth();
    match class.category() {
        Some(Category::Ereport) => Some(Entry::Report {
            class,
            path,
            moment,
            payload,
        }),
        _ => None,
    }
}

// a hand of each of two counters
fn hands(alloc: Global) -> Option<Vec<Hand<Counter>>>
    ensures { IfSome result (λ hands. hands.items ≡ fresh_hand 0 ∷ fresh_hand 1 ∷ []) }
{
    let mut hands = Vec::new(alloc);
    hands.push(Hand::new(0, 0, Counter::new(alloc, 0))).ok()?;
    hands.push(Hand::new(1, 0, Counter::new(alloc, 1))).ok()?;
    Some(hands)
}

// a core of two counters
fn two(alloc: Global) -> Option<Core<Counter>>
    ensures { IfSome result IsFilled }
{
    let own = hands(alloc)?;
    let kept = hands(alloc)?;
    match Core::new(alloc, 0, own, kept) {
        Ok(core) => Some(core),
        Err(_) => None,
    }
}

// takes a report into a core
fn fill(alloc: Global, core: &mut Core<Counter>, moment: u64) -> Option<()>
    requires moment { moment < 2 ^ 62 }
    requires core { IsFilled core.old }
    ensures { OnSome result (IsFilled core.new) }
{
    let entry = report(alloc, "ereport.cpu.ue", moment)?;
    if core.len() >= 1000 {
        return None;
    }
    core.accept(entry).ok()?;
    Some(())
}

// a core of two counters that has accepted six reports of one class, at the moments 7 to 12
fn filled(alloc: Global) -> Option<Core<Counter>>
    ensures { IfSome result IsFilled }
{
    let mut core = two(alloc)?;
    'reports: for moment in 7..13 {
        fill(alloc, &mut core, moment)?;
    }
    Some(core)
}

// lets a module take so many entries
fn work_on(alloc: Global, core: &mut Core<Counter>, module: u32, times: u64) -> Option<()>
    requires filled { IsFilled core.old }
    requires known { «module» < 2 }
    ensures { OnSome result (IsFilled core.new) }
{
    'turns: for _turn in 0..times {
        core.work(alloc, module).ok()?;
    }
    Some(())
}

// lets both modules take every entry
fn finish(alloc: Global, core: &mut Core<Counter>) -> Option<()>
    requires { IsFilled core.old }
    ensures { OnSome result (IsFilled core.new) }
{
    match core.drain(alloc) {
        Ok(()) => Some(()),
        Err(_) => None,
    }
}

// a hand of module 0 that took these entries, from the start on
fn rebuilt(alloc: Global, entries: &[Entry]) -> Option<Hand<Counter>>
    requires spelled { All IsSpelled entries.now }
    requires few { length entries.now ≤ 2 ^ 46 }
    ensures { IfSome result (λ hand. shown counters hand ≡ shown_after entries.now) }
{
    let mut hand = Hand::new(0, 0, Counter::new(alloc, 0));
    'steps: for entry in entries {
        hand = match hand.step(alloc, entry) {
            Ok((next, _spoken)) => next,
            Err(_) => return None,
        };
    }
    Some(hand)
}

// whether the records are all numbered below a number
fn are_below(records: &[Spoken], number: u64) -> bool
    ensures { result ≡ true → All (λ r. r.number < number) records.now }
{
    'records: for spoken in records {
        if spoken.number >= number {
            return false;
        }
    }
    true
}

// puts module 0 back to where it had taken so many entries, if that is not below its floor, and
// tells how far it had come
fn fall_to(alloc: Global, core: &mut Core<Counter>, place: usize) -> Option<u64>
    requires { IsFilled core.old }
    ensures { OnSome result (IsFilled core.new) }
{
    let entries = core.entries();
    if place > entries.len() {
        return None;
    }
    let hand = rebuilt(alloc, &entries[..place])?;
    if core.hand(0).cursor() < hand.cursor() {
        return None;
    }
    if !are_below(core.spoken(), hand.cursor()) {
        return None;
    }
    let own = core.fall(0, hand);
    Some(own.cursor())
}

// a word, with all that it says
fn tell_word(alloc: Global, text: &mut String, word: &ListEvent) -> Result<(), Fail> {
    let head = format!(in alloc;
        " {:?} {}/{} at {} conf {} of",
        word.kind, word.case.module, word.case.case, word.moment, word.conf
    )?;
    text.push_str(head.as_str())?;
    for event in word.observed.as_slice() {
        let observed = format!(in alloc; " {}={}", event.class.text(), event.path.text())?;
        text.push_str(observed.as_str())?;
    }
    let tail = format!(in alloc; " by {};", word.suspects.as_slice().len())?;
    text.push_str(tail.as_str())?;
    Ok(())
}

// a record, with all its words
fn tell_record(alloc: Global, text: &mut String, spoken: &Spoken) -> Result<(), Fail> {
    let head = format!(in alloc; "{}@{}:", spoken.module, spoken.number)?;
    text.push_str(head.as_str())?;
    for word in spoken.events.as_slice() {
        tell_word(alloc, text, word)?;
    }
    text.push_str("\n")?;
    Ok(())
}

// the save of a counter, in hexadecimal digits
fn tell_save(alloc: Global, text: &mut String, counter: &Counter) -> Result<(), Fail> {
    let mut bytes = Vec::new(alloc);
    counter.save(&mut bytes)?;
    for byte in bytes.as_slice() {
        let digits = format!(in alloc; "{byte:02x}")?;
        text.push_str(digits.as_str())?;
    }
    Ok(())
}

// what a module has come to: each of its records, and the save of its state
fn ending_text(alloc: Global, core: &Core<Counter>, module: u32) -> Result<String, Fail>
    requires filled { IsFilled core.now }
    requires known { «module» < 2 }
{
    let mut text = String::new(alloc);
    for spoken in core.spoken() {
        if spoken.module == module {
            tell_record(alloc, &mut text, spoken)?;
        }
    }
    tell_save(alloc, &mut text, core.hand(module).state())?;
    Ok(text)
}

// drains the core, and compares what its modules come to with a core that was only drained
fn ends_alike(rt: &impl Abort, alloc: Global, core: &mut Core<Counter>) -> Result<(), Fail>
    requires { IsFilled core.old }
{
    let mut straight = filled(alloc).ok_or("straight")?;
    finish(alloc, &mut straight).ok_or("drain")?;
    finish(alloc, core).ok_or("drain too")?;
    assert!(rt; core.spoken().len() == straight.spoken().len());
    let first = ending_text(alloc, core, 0)?;
    assert!(rt; first.as_str() == ending_text(alloc, &straight, 0)?.as_str());
    let second = ending_text(alloc, core, 1)?;
    assert!(rt; second.as_str() == ending_text(alloc, &straight, 1)?.as_str());
    Ok(())
}

// what module 0 comes to in the straight order: an upset at the third and at the sixth report
const FIRST: &str = "0@2: Upset 0/0 at 9 conf 0 of ereport.cpu.ue=hc:///chassis=0/cpu=1 by 0;\n\
    0@5: Upset 0/1 at 12 conf 0 of ereport.cpu.ue=hc:///chassis=0/cpu=1 by 0;\n\
    0000000000000001000e657265706f72742e6370752e75650000000000000006";

// and module 1
const SECOND: &str = "1@2: Upset 1/0 at 9 conf 0 of ereport.cpu.ue=hc:///chassis=0/cpu=1 by 0;\n\
    1@5: Upset 1/1 at 12 conf 0 of ereport.cpu.ue=hc:///chassis=0/cpu=1 by 0;\n\
    0000000000000001000e657265706f72742e6370752e75650000000000000006";

#[test]
fn takes_each_entry_once(rt: HostRuntime) -> Result<(), Fail> {
    let alloc = rt.alloc();
    let mut core = filled(alloc).ok_or("core")?;
    assert!(rt; core.len() == 6);
    finish(alloc, &mut core).ok_or("drain")?;
    assert!(rt; core.len() == 6);
    assert!(rt; core.spoken().len() == 4);
    assert!(rt; ending_text(alloc, &core, 0)?.as_str() == FIRST);
    assert!(rt; ending_text(alloc, &core, 1)?.as_str() == SECOND);
    Ok(())
}

#[test]
fn takes_each_entry_once_with_module_one_first(rt: HostRuntime) -> Result<(), Fail> {
    let alloc = rt.alloc();
    let mut core = filled(alloc).ok_or("core")?;
    work_on(alloc, &mut core, 1, 6).ok_or("work")?;
    assert!(rt; core.hand(1).cursor() == 6);
    assert!(rt; core.hand(0).cursor() == 0);
    assert!(rt; core.spoken().len() == 2);
    ends_alike(&rt, alloc, &mut core)
}

#[test]
fn takes_each_entry_once_after_a_fall_to_the_start(rt: HostRuntime) -> Result<(), Fail> {
    let alloc = rt.alloc();
    let mut core = filled(alloc).ok_or("core")?;
    work_on(alloc, &mut core, 0, 2).ok_or("work")?;
    let fallen_from = fall_to(alloc, &mut core, 0).ok_or("fall")?;
    assert!(rt; fallen_from == 2);
    assert!(rt; core.hand(0).cursor() == 0);
    ends_alike(&rt, alloc, &mut core)
}

#[test]
fn takes_each_entry_once_after_a_fall_behind_a_word(rt: HostRuntime) -> Result<(), Fail> {
    let alloc = rt.alloc();
    let mut core = filled(alloc).ok_or("core")?;
    work_on(alloc, &mut core, 0, 5).ok_or("work")?;
    assert!(rt; core.spoken().len() == 1);
    let fallen_from = fall_to(alloc, &mut core, 3).ok_or("fall")?;
    assert!(rt; fallen_from == 5);
    assert!(rt; core.hand(0).cursor() == 3);
    assert!(rt; core.spoken().len() == 1);
    ends_alike(&rt, alloc, &mut core)
}

// whether a fresh counter takes the bytes, and keeps itself as just these again, and so does a copy
// of it
fn restores(alloc: Global, bytes: &[u8]) -> Result<bool, LoadFault> {
    let mut counter = Counter::new(alloc, 0);
    counter.load(alloc, bytes)?;
    let mut again = Vec::new(alloc);
    counter.save(&mut again)?;
    let copy = counter.copy(alloc)?;
    let mut copied = Vec::new(alloc);
    copy.save(&mut copied)?;
    Ok(again.as_slice() == bytes && copied.as_slice() == bytes)
}

// asserts that a counter takes the bytes, and keeps itself as just these
fn is_kept(rt: &impl Abort, alloc: Global, bytes: &[u8]) {
    assert!(rt; restores(alloc, bytes) == Ok(true));
}

// asserts that no counter keeps itself as these bytes
fn is_bad(rt: &impl Abort, alloc: Global, bytes: &[u8]) {
    assert!(rt; restores(alloc, bytes) == Err(LoadFault::Bad));
}

#[test]
fn restores_what_it_keeps(rt: HostRuntime) {
    let alloc = rt.alloc();
    is_kept(&rt, alloc, b"\0\0\0\0\0\0\0\0");
    is_kept(
        &rt,
        alloc,
        b"\0\0\0\0\0\0\0\x01\0\x0eereport.cpu.ue\0\0\0\0\0\0\0\x03",
    );
    is_kept(
        &rt,
        alloc,
        b"\0\0\0\0\0\0\0\x02\0\x0eereport.cpu.ce\0\0\0\0\0\0\0\x01\
          \0\x0eereport.cpu.ue\0\0\0\0\0\0\0\x02",
    );
    is_kept(
        &rt,
        alloc,
        b"\0\0\0\0\0\0\0\x01\0\x0eereport.cpu.ue\0\0\x40\0\0\0\0\0",
    );
}

#[test]
fn restores_from_no_fewer_and_no_more_bytes(rt: HostRuntime) {
    let alloc = rt.alloc();
    is_bad(&rt, alloc, b"");
    is_bad(&rt, alloc, b"\0\0\0\0\0\0\0");
    is_bad(&rt, alloc, b"\0\0\0\0\0\0\0\x01");
    is_bad(&rt, alloc, b"\0\0\0\0\0\0\0\0\0");
    is_bad(
        &rt,
        alloc,
        b"\0\0\0\0\0\0\0\x01\0\x0eereport.cpu.ue\0\0\0\0\0\0\0",
    );
}

#[test]
fn restores_from_counts_of_reports_alone(rt: HostRuntime) {
    let alloc = rt.alloc();
    is_bad(
        &rt,
        alloc,
        b"\0\0\0\0\0\0\0\x01\0\x0eereport.cpu.ue\0\0\0\0\0\0\0\0",
    );
    is_bad(
        &rt,
        alloc,
        b"\0\0\0\0\0\0\0\x01\0\x0cfault.cpu.ue\0\0\0\0\0\0\0\x03",
    );
    is_bad(
        &rt,
        alloc,
        b"\0\0\0\0\0\0\0\x01\0\x07ereport\0\0\0\0\0\0\0\x03",
    );
    is_bad(
        &rt,
        alloc,
        b"\0\0\0\0\0\0\0\x01\0\x0eereport.cpu.ue\0\0\x40\0\0\0\0\x01",
    );
}

#[test]
fn restores_from_ascending_classes_alone(rt: HostRuntime) {
    let alloc = rt.alloc();
    is_bad(
        &rt,
        alloc,
        b"\0\0\0\0\0\0\0\x02\0\x0eereport.cpu.ue\0\0\0\0\0\0\0\x01\
          \0\x0eereport.cpu.ce\0\0\0\0\0\0\0\x02",
    );
    is_bad(
        &rt,
        alloc,
        b"\0\0\0\0\0\0\0\x02\0\x0eereport.cpu.ue\0\0\0\0\0\0\0\x01\
          \0\x0eereport.cpu.ue\0\0\0\0\0\0\0\x02",
    );
}

// counts of 2 and of 2^46 - 3
const NEARLY_FULL: &[u8] = b"\0\0\0\0\0\0\0\x02\0\x0eereport.cpu.ce\0\0\0\0\0\0\0\x02\
      \0\x0eereport.cpu.ue\0\0\x3f\xff\xff\xff\xff\xfd";

#[test]
fn counts_no_more_than_its_limit(rt: HostRuntime) -> Result<(), Fail> {
    let alloc = rt.alloc();
    let mut counter = Counter::new(alloc, 3);
    assert!(rt; counter.load(alloc, NEARLY_FULL) == Ok(()));
    let last = report(alloc, "ereport.cpu.ce", 11).ok_or("last")?;
    let said = counter.step(alloc, 5, &last)?;
    assert!(rt; said.len() == 1);
    assert!(rt; said[0].case.module == 3);
    assert!(rt; said[0].case.case == 23_456_248_059_220);
    assert!(rt; said[0].moment == 11);
    assert!(rt; said[0].suspects.len() == 0);
    assert!(rt; said[0].observed.as_slice().len() == 1);
    assert!(rt; said[0].observed.as_slice()[0].class.text() == "ereport.cpu.ce");
    assert!(rt; counter.step(alloc, 6, &last)?.len() == 0);
    assert!(rt; counter.step(alloc, 7, &last)?.len() == 0);
    assert!(rt; counter.counts().len() == 2);
    assert!(rt; counter.counts()[0].count == 3);
    Ok(())
}

#[test]
fn subscribes_to_every_class(rt: HostRuntime) -> Result<(), Fail> {
    let alloc = rt.alloc();
    let counter = Counter::new(alloc, 0);
    let class = read_class(alloc, "ereport.io.scsi")?.ok_or("class")?;
    assert!(rt; counter.subscribes(&class));
    assert!(rt; counter.conf().is_none());
    Ok(())
}

#[test]
fn brings_a_module_to_the_state_of_another(rt: HostRuntime) -> Result<(), Fail> {
    let alloc = rt.alloc();
    let mut first = Counter::new(alloc, 3);
    let mut second = Counter::new(alloc, 3);
    let entry = report(alloc, "ereport.cpu.ue", 7).ok_or("entry")?;
    assert!(rt; first.step(alloc, 0, &entry)?.len() == 0);
    restore(alloc, &first, &mut second)?;
    assert!(rt; second.counts().len() == 1);
    assert!(rt; second.counts()[0].count == 1);
    assert!(rt; second.counts()[0].class.text() == "ereport.cpu.ue");
    Ok(())
}

#[test]
fn laws_are_there(_rt: HostRuntime) -> Result<(), Fail> {
    any_order();
    floors_are_lawful();
    hands_follow_on();
    words_are_spelled();
    configurations_follow_reloads();
    longer_lists_agree();
    Ok(())
}

#[test]
fn steps_a_boxed_object(rt: HostRuntime) -> Result<(), Fail> {
    let alloc = rt.alloc();
    let object: Box<dyn Module> = Box::new(alloc, Counter::new(alloc, 3))?;
    let hand = Hand::new(3, 0, Loaded::new(object));
    let entry = report(alloc, "ereport.cpu.ue", 7).ok_or("entry")?;
    let hand = step_loaded(alloc, hand, &entry).ok_or("step")?;
    assert!(rt; hand.cursor() == 1);
    assert!(rt; hand.module() == 3);
    Ok(())
}

#[test]
fn works_a_boxed_object(rt: HostRuntime) -> Result<(), Fail> {
    let alloc = rt.alloc();
    let own: Box<dyn Module> = Box::new(alloc, Counter::new(alloc, 0))?;
    let kept: Box<dyn Module> = Box::new(alloc, Counter::new(alloc, 0))?;
    let mut core = core_of_one(alloc, Loaded::new(own), Loaded::new(kept)).ok_or("core")?;
    let entry = report(alloc, "ereport.cpu.ue", 7).ok_or("entry")?;
    assert!(rt; core.accept(entry) == Ok(0));
    assert!(rt; work_loaded(alloc, &mut core, 0) == Ok(Worked::Silent));
    assert!(rt; work_loaded(alloc, &mut core, 0) == Ok(Worked::Idle));
    Ok(())
}
