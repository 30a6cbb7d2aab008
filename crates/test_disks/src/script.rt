// What stays from line to line of a script, and what its lines do.
use crate::setting::{Setting, image_in};
use crate::{calls, journals, lent, payloads, slots, streams, sweeps};
use std::alloc::Global;
use test_words::{
    Named, Script, ScriptFault, first_word, number_in, show_difference, small_in, text_in, text_of,
};

/// What stays from line to line.
#[derive(Drop)]
pub struct Held {
    named: Named,
    setting: Setting,
}

/// Sets what the disk is: `ROOM RECORD`.
fn set_room(setting: &mut Setting, rest: &str) -> Result<(), ScriptFault> {
    let (room, record) = first_word(rest);
    setting.room = number_in(room)?;
    setting.record = number_in(record)?;
    Ok(())
}

/// Has the disk be a journal of so many payloads: `COUNT LENGTH`.
fn set_many(alloc: Global, setting: &mut Setting, rest: &str) -> Result<(), ScriptFault> {
    let (count, length) = first_word(rest);
    let bytes = journals::many(alloc, number_in(count)?, small_in(length)?)?;
    let room = bytes.len() as u64;
    setting.begin(bytes);
    setting.room = room;
    setting.record = 16;
    Ok(())
}

/// Does what a line says of the disk of the next ones, where it is such a line.
fn set_disk(alloc: Global, held: &mut Held, word: &str, rest: &str) -> Result<bool, ScriptFault> {
    let setting = &mut held.setting;
    match word {
        "disk" => setting.begin(held.named.bytes_in(alloc, rest)?),
        "beside" => setting.beside = held.named.bytes_in(alloc, rest)?,
        "many" => set_many(alloc, setting, rest)?,
        "room" => set_room(setting, rest)?,
        "fails" => setting.set_fails(rest)?,
        "stop" => setting.stop = Some(number_in(rest)?),
        "image" => setting.image = Some(image_in(rest)?),
        _ => return Ok(false),
    }
    Ok(true)
}

/// Answers a line about files.
fn answer_of_files(
    rt: &HostRuntime,
    named: &Named,
    word: &str,
    rest: &str,
    out: &mut String,
) -> Result<(), ScriptFault> {
    let (name, text) = first_word(rest);
    match word {
        "write_file" => streams::write_file(rt, name, text, out),
        "file" => calls::show_file(rt, name, out),
        "file_source" => streams::show_file_source(rt, name, text, out),
        "file_sink" => streams::show_file_sink(rt, name, text, out),
        "read_only" => streams::show_read_only(rt, name, text, out),
        "small_sink" => streams::show_small(rest, out),
        "file_disk" => calls::call_file(rt, named, number_in(name)?, text, out),
        "no_file" => calls::call_no_file(rt.alloc(), named, rest, out),
        _ => Err(ScriptFault::Words),
    }
}

/// Answers a line about slots, sources and sinks.
fn answer_of_slots(
    alloc: Global,
    held: &mut Held,
    word: &str,
    first: &str,
    rest: &str,
    out: &mut String,
) -> Result<(), ScriptFault> {
    let setting = &mut held.setting;
    match word {
        "newest" => slots::show_newest(alloc, setting, out),
        "clear" => slots::clear_slot(alloc, setting, out),
        "slot_frame" => slots::show_slot_frame(alloc, number_in(first)?, out),
        "source" => streams::show_source(alloc, setting, number_in(first)?, rest, out),
        "sink" => streams::show_sink(alloc, setting, number_in(first)?, rest, out),
        "replace" => {
            let payload = held.named.bytes_in(alloc, rest)?;
            slots::put_slot(alloc, setting, number_in(first)?, &payload, out)
        }
        "add" => {
            let body = held.named.bytes_in(alloc, rest)?;
            calls::add_body(alloc, setting, number_in(first)?, &body, out)
        }
        _ => Err(ScriptFault::Words),
    }
}

/// Answers a line about journals.
fn answer_of_journals(
    alloc: Global,
    held: &mut Held,
    word: &str,
    rest: &str,
    out: &mut String,
) -> Result<(), ScriptFault> {
    let named = &held.named;
    let setting = &mut held.setting;
    match word {
        "create" => journals::create(alloc, setting, number_in(rest)?, out),
        "journal" => journals::use_journal(alloc, named, setting, rest, out),
        "frame" => journals::show_frame(alloc, number_in(rest)?, out),
        "lent" => lent::show_lent(alloc, out),
        "values" => payloads::show_values(alloc, setting, out),
        "place" => payloads::show_place(alloc, setting, number_in(rest)?, out),
        "stops" => sweeps::sweep(alloc, named, setting, rest, out),
        "calls" => calls::call_disk(alloc, named, setting, rest, out),
        "holds" => show_difference(&setting.bytes, &named.bytes_in(alloc, rest)?, out),
        _ => Err(ScriptFault::Words),
    }
}

impl Held {
    /// No bytes have a name, and the disk has none.
    pub fn new(alloc: Global) -> Held {
        Held {
            named: Named::new(alloc),
            setting: Setting::new(alloc),
        }
    }
}

impl Script for Held {
    fn set(&mut self, alloc: Global, word: &str, rest: &str) -> Result<bool, ScriptFault> {
        set_disk(alloc, self, word, rest)
    }

    fn answer(
        &mut self,
        rt: &HostRuntime,
        line: &str,
        out: &mut String,
    ) -> Result<(), ScriptFault> {
        let alloc = rt.alloc();
        let (word, rest) = first_word(line);
        let (first, words) = first_word(rest);
        match word {
            "bytes" => {
                self.named.define(alloc, rest)?;
                Ok(out.push_str("ok")?)
            }
            "newest" | "clear" | "slot_frame" | "source" | "sink" | "replace" | "add" => {
                answer_of_slots(alloc, self, word, first, words, out)
            }
            "create"
            | "journal"
            | "frame"
            | "lent"
            | "values"
            | "place"
            | "stops"
            | "calls"
            | "holds" => answer_of_journals(alloc, self, word, rest, out),
            _ => {
                let bytes = text_in(alloc, rest)?;
                answer_of_files(rt, &self.named, word, text_of(&bytes)?, out)
            }
        }
    }
}
