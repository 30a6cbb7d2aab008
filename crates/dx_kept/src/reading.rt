//! States, read.

ghost use Rattle.std.specs.Prelude.{◌≡◌, ◌<◌, ◌^◌, Some, None, IfOk, IfErr, length, not, ◌||◌};
ghost use Rattle.std.specs.List.{list_any};
ghost use Rattle.fm_bytes.specs.Numbers.{AllBytes};
ghost use Rattle.fm_bytes.specs.Reading.{IsMisspelled, whole, items_from, counted_from};
ghost use Rattle.fm_bytes.specs.Reading.{number_from, where_from};
ghost use Rattle.fm_entry.specs.Words.{links_ascend, is_link_before};
ghost use Rattle.fm_entry.specs.WordBytes.{has_links};
ghost use Rattle.fm_entry.specs.WordReading.{word_from, link_from};
ghost use Rattle.dx_state.specs.StateBytes.{is_marked};
ghost use Rattle.dx_state.specs.StateReading.{marked_from, case_links_from, open_case_from};
ghost use Rattle.dx_state.specs.StateReading.{moments_from, parts_from, marked_parts_from};
ghost use Rattle.dx_state.specs.StateReading.{diagnosis_from};
ghost use Rattle.dx_kept.specs.Kept.{diagnosis_of};

use crate::codecs::{BrokenCodec, LongCodec, take_long_list, take_many};
use crate::kept_case::KeptCase;
use crate::kept_state::KeptState;
use crate::writing::put_moments;
use fm_bytes::{Input, Items, NoMemory, ReadFault};
use fm_entry::{Broken, ListEvent, take_list_event};
use fm_items::{Codec, NumberCodec, take_counted};
use std::alloc::Global;

/// The state of the module of this number that all of the bytes spell.
pub fn take_state(alloc: Global, own: u32, bytes: &[u8]) -> Result<KeptState, ReadFault>
    ensures ok { IfOk result (λ s. whole (diagnosis_from own bytes.now) ≡ Some (diagnosis_of s)) }
    ensures err { IfErr result (λ f. IsMisspelled f → whole (diagnosis_from own bytes.now) ≡ None) }
{
    let mut input = Input::new(bytes);
    let state = take_marked_state(&mut input, alloc, own)?;
    if input.left() == 0 {
        Ok(state)
    } else {
        Err(ReadFault::NoSpelling)
    }
}

/// A state: its first byte, and what follows.
#[tactic(auto, unfolding(dx_state::specs::StateReading::diagnosis_from))]
fn take_marked_state(input: &mut Input, alloc: Global, own: u32) -> Result<KeptState, ReadFault>
    ensures ok { IfOk result
        (λ s. diagnosis_from own input.old ≡ Some (diagnosis_of s, input.new)) }
    ensures err { IfErr result (λ f. IsMisspelled f → diagnosis_from own input.old ≡ None) }
{
    let marked = take_marked(input)?;
    let state = take_parts(input, alloc, own, marked)?;
    if !marked || has_broken(state.open_cases.as_slice()) {
        Ok(state)
    } else {
        Err(ReadFault::NoSpelling)
    }
}

/// Whether some case has broken links.
fn has_broken(cases: &[KeptCase]) -> bool
    ensures { result ≡ list_any (λ c. has_links c.broken) cases.now }
{
    cases.iter().any(|case| case.broken().len() > 0)
}

/// The first byte of a state: whether it has broken links.
#[tactic(auto, unfolding(dx_state::specs::StateReading::marked_from))]
fn take_marked(input: &mut Input) -> Result<bool, ReadFault>
    ensures ok { IfOk result (λ b. marked_from input.old ≡ Some (b, input.new)) }
    ensures err { IfErr result (λ f. IsMisspelled f → marked_from input.old ≡ None) }
{
    match input.take_u8()? {
        1 => Ok(false),
        2 => Ok(true),
        _ => Err(ReadFault::NoSpelling),
    }
}

/// What follows the first byte of a state.
#[tactic(auto, unfolding(dx_state::specs::StateReading::parts_from))]
fn take_parts(
    input: &mut Input,
    alloc: Global,
    own: u32,
    marked: bool,
) -> Result<KeptState, ReadFault>
    ensures ok { IfOk result
        (λ s. parts_from own marked input.old ≡ Some (diagnosis_of s, input.new)) }
    ensures err { IfErr result (λ f. IsMisspelled f → parts_from own marked input.old ≡ None) }
{
    let conf = input.take_u32()?;
    let time = input.take_u64()?;
    let next = input.take_u64()?;
    let open_cases = take_cases(input, alloc, marked)?;
    let solved = take_words(input, alloc, own)?;
    let engines = take_counted::<Items<u64>, MomentsCodec>(input, alloc)?;
    Ok(KeptState {
        conf,
        time,
        next,
        open_cases: Items::new(open_cases),
        solved: Items::new(solved),
        engines: Items::new(engines),
    })
}

/// The spelling of the moments of an engine.
struct MomentsCodec;

impl Codec<Items<u64>> for MomentsCodec {
    ghost use Rattle.std.specs.Prelude.{◌<◌, length};
    ghost use Rattle.dx_state.specs.StateBytes.{moments_bytes};
    ghost use Rattle.dx_state.specs.StateReading.{moments_from};

    ghost fits = { λ xs. length xs < 65536 };

    ghost spelling = { moments_bytes };

    ghost reading = { moments_from };

    fn put(moments: &Items<u64>, out: &mut Vec<u8>) -> Result<(), NoMemory> {
        put_moments(moments.as_slice(), out)
    }

    #[tactic(auto, unfolding(fm_bytes::specs::Reading::counted_from))]
    fn take(input: &mut Input, alloc: Global) -> Result<Items<u64>, ReadFault> {
        let count = input.take_u16()?;
        let moments = take_many::<u64, LongCodec>(input, alloc, u64::from(count))?;
        Ok(Items::new(moments))
    }
}

/// The open cases.
#[tactic(auto, unfolding(fm_bytes::specs::Reading::counted_from))]
fn take_cases(input: &mut Input, alloc: Global, marked: bool) -> Result<Vec<KeptCase>, ReadFault>
    ensures ok { IfOk result
        (λ v. counted_from 8 (open_case_from marked) input.old ≡ Some (v.items, input.new)) }
    ensures err { IfErr result
        (λ f. IsMisspelled f → counted_from 8 (open_case_from marked) input.old ≡ None) }
{
    let count = input.take_u64()?;
    take_each_case(input, alloc, marked, count)
}

/// So many open cases.
fn take_each_case(
    input: &mut Input,
    alloc: Global,
    marked: bool,
    count: u64,
) -> Result<Vec<KeptCase>, ReadFault>
    ensures ok { IfOk result
        (λ v. items_from (open_case_from marked) count input.old ≡ Some (v.items, input.new)) }
    ensures err { IfErr result
        (λ f. IsMisspelled f → items_from (open_case_from marked) count input.old ≡ None) }
{
    let mut items = Vec::new(alloc);
    'items: for at in 0..count {
        let _at = at;
        items.push(take_case(input, alloc, marked)?)?;
    }
    Ok(items)
}

/// An open case.
#[tactic(auto, unfolding(dx_state::specs::StateReading::open_case_from))]
fn take_case(input: &mut Input, alloc: Global, marked: bool) -> Result<KeptCase, ReadFault>
    ensures ok { IfOk result (λ c. open_case_from marked input.old ≡ Some (c, input.new)) }
    ensures err { IfErr result (λ f. IsMisspelled f → open_case_from marked input.old ≡ None) }
{
    let number = input.take_u64()?;
    let opened = input.take_u64()?;
    let entries = take_long_list::<u64, LongCodec>(input, alloc)?;
    let observed = take_observed(input, alloc)?;
    let broken = take_links(input, alloc, marked)?;
    Ok(KeptCase::new(number, opened, entries, observed, broken))
}

/// The nodes of the reports of a case.
fn take_observed(input: &mut Input, alloc: Global) -> Result<Vec<u32>, ReadFault>
    ensures ok { IfOk result
        (λ v. counted_from 4 (number_from 4) input.old ≡ Some (v.items, input.new)) }
    ensures err { IfErr result
        (λ f. IsMisspelled f → counted_from 4 (number_from 4) input.old ≡ None) }
    ensures few { IfOk result (λ v. length v.items < 2 ^ 32) }
{
    let _all = input.left();
    let nodes = take_counted::<u32, NumberCodec>(input, alloc)?;
    Ok(nodes)
}

/// The broken links of a case, where the state has some.
#[tactic(auto, unfolding(dx_state::specs::StateReading::case_links_from))]
fn take_links(input: &mut Input, alloc: Global, marked: bool) -> Result<Vec<Broken>, ReadFault>
    ensures ok { IfOk result (λ v. case_links_from marked input.old ≡ Some (v.items, input.new)) }
    ensures err { IfErr result (λ f. IsMisspelled f → case_links_from marked input.old ≡ None) }
    ensures few { IfOk result (λ v. length v.items < 2 ^ 32) }
{
    if marked {
        take_some_links(input, alloc)
    } else {
        Ok(Vec::new(alloc))
    }
}

/// The broken links of a case, in order.
fn take_some_links(input: &mut Input, alloc: Global) -> Result<Vec<Broken>, ReadFault>
    ensures ok { IfOk result (λ v. where_from links_ascend (counted_from 4 link_from) input.old
        ≡ Some (v.items, input.new)) }
    ensures err { IfErr result (λ f.
        IsMisspelled f → where_from links_ascend (counted_from 4 link_from) input.old ≡ None) }
    ensures few { IfOk result (λ v. length v.items < 2 ^ 32) }
{
    let _all = input.left();
    let links = take_counted::<Broken, BrokenCodec>(input, alloc)?;
    if links_ascend(&links) {
        Ok(links)
    } else {
        Err(ReadFault::NoSpelling)
    }
}

/// Whether each link stands before the next, and so before all that follow it.
fn links_ascend(links: &[Broken]) -> bool
    ensures { result ≡ links_ascend links.now }
{
    for at in 1..links.len() {
        if !is_link_before(&links[at - 1], &links[at]) {
            return false;
        }
    }
    true
}

/// Whether a link stands before another.
fn is_link_before(x: &Broken, y: &Broken) -> bool
    ensures { result ≡ is_link_before x.now y.now }
{
    x.instance < y.instance || (x.instance == y.instance && x.effect < y.effect)
}

/// Words of the solved cases.
#[tactic(auto, unfolding(fm_bytes::specs::Reading::counted_from))]
fn take_words(input: &mut Input, alloc: Global, own: u32) -> Result<Vec<ListEvent>, ReadFault>
    ensures ok { IfOk result
        (λ v. counted_from 8 (word_from own) input.old ≡ Some (v.items, input.new)) }
    ensures err { IfErr result
        (λ f. IsMisspelled f → counted_from 8 (word_from own) input.old ≡ None) }
{
    let count = input.take_u64()?;
    take_each_word(input, alloc, own, count)
}

/// So many words of a module.
fn take_each_word(
    input: &mut Input,
    alloc: Global,
    own: u32,
    count: u64,
) -> Result<Vec<ListEvent>, ReadFault>
    ensures ok { IfOk result
        (λ v. items_from (word_from own) count input.old ≡ Some (v.items, input.new)) }
    ensures err { IfErr result
        (λ f. IsMisspelled f → items_from (word_from own) count input.old ≡ None) }
{
    let mut items = Vec::new(alloc);
    'items: for at in 0..count {
        let _at = at;
        items.push(take_list_event(input, alloc, own)?)?;
    }
    Ok(items)
}
