//! Words about cases, written and read.

ghost use Rattle.std.specs.Prelude.{◌≡◌, ◌++◌, ◌<◌, ◌^◌, ◌-◌, All, Some, None, true, false, length};
ghost use Rattle.std.specs.Prelude.{option_map, flat_map, IfOk, IfErr, OnOk};
ghost use Rattle.fm_bytes.specs.Numbers.{counted_bytes};
ghost use Rattle.fm_bytes.specs.Reading.{IsMisspelled, items_from, counted_from};
ghost use Rattle.fm_entry.specs.Words.{IsWordOf};
ghost use Rattle.fm_entry.specs.WordBytes.{event_bytes, suspect_bytes, broken_bytes};
ghost use Rattle.fm_entry.specs.WordBytes.{kind_byte, head_byte, word_bytes};
ghost use Rattle.fm_entry.specs.WordReading.{list_kind_of, head_of, head_from};
ghost use Rattle.fm_entry.specs.WordReading.{own_from, event_from};
ghost use Rattle.fm_entry.specs.WordReading.{suspect_from, broken_from, word_body_from, word_from};
ghost use Rattle.fm_entry.specs.WordReading.{words_from};

use crate::broken::{put_broken, take_broken};
use crate::case_name::CaseName;
use crate::event_item::EventCodec;
use crate::list_event::{ListEvent, ListEvents, ListKind};
use crate::parts::{case, moment};
use crate::suspect::Suspect;
use crate::suspect_item::SuspectCodec;
use fm_bytes::{Input, Items, NoMemory, ReadFault, put_u8, put_u32, put_u64};
use fm_items::{put_counted, room_for, take_counted};
use fm_name::EventName;
use std::alloc::Global;

/// Appends the bytes that spell the word. After want of memory a part of them may stand there.
pub fn put_list_event(word: &ListEvent, out: &mut Vec<u8>) -> Result<(), NoMemory>
    requires observed { length word.now.observed < 2 ^ 32 }
    requires suspects { length word.now.suspects < 2 ^ 32 }
    requires broken { length word.now.broken < 2 ^ 32 }
    ensures ok { OnOk result (out.new.items ≡ out.old.items ++ word_bytes word.now) }
{
    put_u8(head_byte(word.kind, word.broken.len() > 0), out)?;
    put_u32(word.case.module, out)?;
    put_u64(word.case.case, out)?;
    put_u64(word.moment, out)?;
    put_u32(word.conf, out)?;
    put_lists(word, out)
}

/// Writes the lists of a word: the events, the suspects and the broken links.
fn put_lists(word: &ListEvent, out: &mut Vec<u8>) -> Result<(), NoMemory>
    requires observed { length word.now.observed < 2 ^ 32 }
    requires suspects { length word.now.suspects < 2 ^ 32 }
    requires broken { length word.now.broken < 2 ^ 32 }
    ensures ok { OnOk result (out.new.items
        ≡ out.old.items
        ++ (counted_bytes 4 event_bytes word.now.observed
        ++ (counted_bytes 4 suspect_bytes word.now.suspects ++ broken_bytes word.now.broken))) }
{
    put_counted::<EventName, EventCodec>(word.observed.as_slice(), out)?;
    put_counted::<Suspect, SuspectCodec>(word.suspects.as_slice(), out)?;
    put_broken(&word.broken, out)
}

/// The first byte of a word of a kind.
fn head_byte(kind: ListKind, marked: bool) -> u8
    ensures { result ≡ head_byte kind marked }
{
    if marked {
        8 + kind_byte(kind)
    } else {
        kind_byte(kind)
    }
}

/// The number of a word's kind.
fn kind_byte(kind: ListKind) -> u8
    ensures number { result ≡ kind_byte kind }
    ensures few { result < 8 }
{
    match kind {
        ListKind::Suspect => 1,
        ListKind::Undiagnosable => 2,
        ListKind::Upset => 3,
        ListKind::Updated => 4,
        ListKind::Repaired => 5,
    }
}

/// Writes the words of a module, behind their number.
#[tactic(auto, unfolding(fm_bytes::specs::Numbers::u32_bytes))]
pub(crate) fn put_words(_own: u32, words: &ListEvents, out: &mut Vec<u8>) -> Result<(), NoMemory>
    requires few { length words.now < 2 ^ 32 }
    requires words { All (IsWordOf _own) words.now }
    ensures ok { OnOk result
        (out.new.items ≡ out.old.items ++ counted_bytes 4 word_bytes words.now) }
{
    let items = words.as_slice();
    put_u32(items.len() as u32, out)?;
    'items: for word in items {
        put_list_event(word, out)?;
    }
    Ok(())
}

/// The word of a module that the bytes begin with.
#[tactic(auto, unfolding(crate::specs::WordReading::word_from))]
pub fn take_list_event(input: &mut Input, alloc: Global, own: u32) -> Result<ListEvent, ReadFault>
    ensures ok { IfOk result (λ w. word_from own input.old ≡ Some (w, input.new)) }
    ensures err { IfErr result (λ f. IsMisspelled f → word_from own input.old ≡ None) }
{
    let (kind, marked) = head(input)?;
    let module = same_module(input, own)?;
    let case = case(input)?;
    let moment = moment(input)?;
    let conf = input.take_u32()?;
    let observed = take_counted::<EventName, EventCodec>(input, alloc)?;
    let suspects = take_counted::<Suspect, SuspectCodec>(input, alloc)?;
    let broken = take_broken(input, alloc, marked)?;
    Ok(ListEvent {
        kind,
        case: CaseName { module, case },
        moment,
        conf,
        observed: Items::new(observed),
        suspects: Items::new(suspects),
        broken,
    })
}

/// The first byte of a word: its kind, and whether it has broken links.
#[tactic(auto, unfolding(crate::specs::WordReading::head_from))]
fn head(input: &mut Input) -> Result<(ListKind, bool), ReadFault>
    ensures ok { IfOk result (λ h. head_from input.old ≡ Some (h, input.new)) }
    ensures err { IfErr result (λ f. IsMisspelled f → head_from input.old ≡ None) }
{
    let number = input.take_u8()?;
    match head_of(number) {
        Some(head) => Ok(head),
        None => Err(ReadFault::NoSpelling),
    }
}

/// What the first byte of a word stands for.
fn head_of(number: u8) -> Option<(ListKind, bool)>
    ensures { result ≡ head_of number }
{
    if number > 8 {
        kind_of(number - 8).map(|kind| (kind, true))
    } else {
        kind_of(number).map(|kind| (kind, false))
    }
}

/// The kind of this number.
fn kind_of(number: u8) -> Option<ListKind>
    ensures { result ≡ list_kind_of number }
{
    match number {
        1 => Some(ListKind::Suspect),
        2 => Some(ListKind::Undiagnosable),
        3 => Some(ListKind::Upset),
        4 => Some(ListKind::Updated),
        5 => Some(ListKind::Repaired),
        _ => None,
    }
}

/// The number of the record's module.
#[tactic(auto, unfolding(crate::specs::WordReading::own_from))]
fn same_module(input: &mut Input, own: u32) -> Result<u32, ReadFault>
    ensures ok { IfOk result (λ n. own_from own input.old ≡ Some (n, input.new)) }
    ensures err { IfErr result (λ f. IsMisspelled f → own_from own input.old ≡ None) }
{
    let number = input.take_u32()?;
    if number == own {
        Ok(number)
    } else {
        Err(ReadFault::NoSpelling)
    }
}

/// The words of a module, one or more.
#[tactic(auto, unfolding(fm_bytes::specs::Reading::counted_from))]
pub(crate) fn take_words(
    input: &mut Input,
    alloc: Global,
    own: u32,
) -> Result<ListEvents, ReadFault>
    ensures ok { IfOk result (λ l. words_from own input.old ≡ Some (l, input.new)) }
    ensures err { IfErr result (λ f. IsMisspelled f → words_from own input.old ≡ None) }
{
    let count = input.take_u32()?;
    let words = ListEvents::new(each_word(input, alloc, own, count)?);
    if words.len() > 0 {
        Ok(words)
    } else {
        Err(ReadFault::NoSpelling)
    }
}

/// So many words of a module.
fn each_word(
    input: &mut Input,
    alloc: Global,
    own: u32,
    count: u32,
) -> Result<Vec<ListEvent>, ReadFault>
    ensures ok { IfOk result
        (λ v. items_from (word_from own) count input.old ≡ Some (v.items, input.new)) }
    ensures err { IfErr result
        (λ f. IsMisspelled f → items_from (word_from own) count input.old ≡ None) }
{
    let mut items = room_for(alloc, count)?;
    'items: for at in 0..count {
        let _at = at;
        items.push(take_list_event(input, alloc, own)?)?;
    }
    Ok(items)
}
