// The commands of a script: each works on the bytes of six disks, and has an answer.
use crate::bytes::{bytes_in, first_difference};
use crate::fault::ScriptFault;
use crate::left::reports_in;
use crate::openings::answer_of_two;
use crate::runs::run;
use crate::steps::{Step, steps_of};
use crate::stops::Trial;
use crate::store_bytes::{FailingCalls, StoreBytes};
use crate::told::{left_text, opening_text, ran_text, reports_text};
use crate::{made, trials};
use fm_logs::DiskName;
use fm_outer::Image;
use std::alloc::Global;

/// The number that a word says.
pub fn number_in(word: &str) -> Result<u32, ScriptFault> {
    match word.parse::<u32>() {
        Ok(number) => Ok(number),
        Err(_) => Err(ScriptFault::Words),
    }
}

/// The disk of this name.
fn disk_in(word: &str) -> Result<DiskName, ScriptFault> {
    match word {
        "conf" => Ok(DiskName::Conf),
        "err_a" => Ok(DiskName::ErrA),
        "err_b" => Ok(DiskName::ErrB),
        "slot_a" => Ok(DiskName::SlotA),
        "slot_b" => Ok(DiskName::SlotB),
        "flt" => Ok(DiskName::Flt),
        _ => Err(ScriptFault::Words),
    }
}

/// The image that a word says: the old bytes, the new ones, or one byte throughout.
fn image_in(word: &str) -> Result<Image, ScriptFault> {
    match word {
        "old" => Ok(Image::Old),
        "new" => Ok(Image::New),
        _ => match word.parse::<u8>() {
            Ok(byte) => Ok(Image::Fill(byte)),
            Err(_) => Err(ScriptFault::Words),
        },
    }
}

/// The steps of a text, of which there are some.
fn steps_in(alloc: Global, text: &str) -> Result<Vec<Step>, ScriptFault> {
    steps_of(alloc, text)?.ok_or(ScriptFault::Words)
}

/// The first word of a text, and what is behind it.
fn first_word(text: &str) -> (&str, &str) {
    match text.split_once(' ') {
        Some(both) => both,
        None => (text, ""),
    }
}

/// Runs the steps over the store.
fn run_steps(alloc: Global, store: &mut StoreBytes, text: &str) -> Result<String, ScriptFault> {
    let steps = steps_in(alloc, text)?;
    let ran = run(alloc, store, FailingCalls::None, &steps, None)?;
    let answer = ran_text(alloc, store, &ran)?;
    *store = ran.left;
    Ok(answer)
}

/// A command on a whole store.
fn answer_of_store(
    alloc: Global,
    store: &mut StoreBytes,
    word: &str,
    rest: &str,
) -> Result<String, ScriptFault> {
    match word {
        "empty" => {
            *store = StoreBytes::empty(alloc)?;
            Ok(String::from_str(alloc, "ok")?)
        }
        "new" => made::new_store(alloc, store),
        "make" => made::make(alloc, store, number_in(rest)?),
        "files" => made::files(alloc, store),
        "journals" => made::journals(alloc, store),
        "run" => run_steps(alloc, store, rest),
        "calls" => made::calls(alloc, store, FailingCalls::None, rest),
        "tell" => Ok(opening_text(alloc, answer_of_two(alloc, store)?)?),
        "reports" => Ok(reports_text(alloc, reports_in(alloc, store)?)?),
        _ => Err(ScriptFault::Words),
    }
}

/// Compares the bytes of a disk.
fn compare(alloc: Global, found: &[u8], wanted: &str) -> Result<String, ScriptFault> {
    match first_difference(found, &bytes_in(alloc, wanted)?) {
        None => Ok(String::from_str(alloc, "yes")?),
        Some(place) => Ok(format!(in alloc; "not from {place} on")?),
    }
}

/// Cuts a disk at a length.
fn cut(
    alloc: Global,
    store: &mut StoreBytes,
    disk: DiskName,
    length: u32,
) -> Result<String, ScriptFault> {
    let mut bytes = store.of(disk).to_vec(alloc)?;
    bytes.truncate(length as usize);
    store.put(disk, bytes);
    Ok(String::from_str(alloc, "ok")?)
}

/// A command on one disk.
fn answer_of_disk(
    alloc: Global,
    store: &mut StoreBytes,
    word: &str,
    disk: DiskName,
    rest: &str,
) -> Result<String, ScriptFault> {
    match word {
        "holds" => compare(alloc, store.of(disk), rest),
        "cut" => cut(alloc, store, disk, number_in(rest)?),
        "bytes" => {
            store.put(disk, bytes_in(alloc, rest)?);
            Ok(String::from_str(alloc, "ok")?)
        }
        "alterations" => trials::alterations(alloc, store, disk),
        "stop" => stop(alloc, store, disk, rest),
        "failing" => {
            let (call, text) = first_word(rest);
            made::failing_calls(alloc, store, disk, u64::from(number_in(call)?), text)
        }
        _ => try_disk(alloc, store, word, disk, rest),
    }
}

/// Stops steps at a call of a disk behind the opening, and leaves what a crash does.
fn stop(
    alloc: Global,
    store: &mut StoreBytes,
    disk: DiskName,
    rest: &str,
) -> Result<String, ScriptFault> {
    let (call, rest) = first_word(rest);
    let (image, text) = first_word(rest);
    let steps = steps_in(alloc, text)?;
    let trial = Trial {
        bytes: store,
        disk,
        steps: &steps,
    };
    let call = u64::from(number_in(call)?);
    let ran = trials::left_behind_opening(alloc, trial, call, image_in(image)?)?;
    let reports = reports_in(alloc, &ran.left)?;
    *store = ran.left;
    Ok(left_text(alloc, ran.answer, reports)?)
}

/// A command that tries steps while calls of a disk fail.
fn try_disk(
    alloc: Global,
    store: &StoreBytes,
    word: &str,
    disk: DiskName,
    rest: &str,
) -> Result<String, ScriptFault> {
    let (front, text) = first_word(rest);
    let text = match word {
        "fail" | "stops_twice" => text,
        _ => rest,
    };
    let steps = steps_in(alloc, text)?;
    let trial = Trial {
        bytes: store,
        disk,
        steps: &steps,
    };
    match word {
        "fail" => trials::fail(alloc, trial, u64::from(number_in(front)?)),
        "stops_twice" => trials::stops_twice(alloc, trial, disk_in(front)?),
        "stops" => trials::stops(alloc, trial),
        "failures" => trials::failures(alloc, trial),
        _ => Err(ScriptFault::Words),
    }
}

/// Does what a line says, and tells what came of it.
pub fn answer(alloc: Global, store: &mut StoreBytes, line: &str) -> Result<String, ScriptFault> {
    let (word, rest) = first_word(line);
    let (name, text) = first_word(rest);
    match disk_in(name) {
        Ok(disk) => answer_of_disk(alloc, store, word, disk, text),
        Err(_) => answer_of_store(alloc, store, word, rest),
    }
}
