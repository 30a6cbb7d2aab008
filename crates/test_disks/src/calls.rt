// Calls of disks, in memory and over files.
ghost use Rattle.std.specs.Prelude.{◌<◌, ◌^◌};

use crate::setting::{Setting, ending, is_within};
use fm_outer::{Disk, Failed, FileDisk, MemDisk, add};
use std::alloc::Global;
use std::fs::OpenOptions;
use std::{fs, io};
use test_words::{Named, ScriptFault, first_word, number_in, show_bytes, show_number};

/// Writes bytes at a place, where it is inside, which takes a call more.
fn write<D: Disk>(disk: &mut D, place: u64, bytes: &[u8]) -> &'static str {
    if is_within(disk, place) {
        ending(disk.write_at(place, bytes))
    } else {
        "not inside"
    }
}

/// Cuts a disk, where the length is inside, which takes a call more.
fn cut<D: Disk>(disk: &mut D, length: u64) -> &'static str {
    if is_within(disk, length) {
        ending(disk.cut(length))
    } else {
        "not inside"
    }
}

/// Makes a call of a word alone.
fn plain_call<D: Disk>(disk: &mut D, word: &str) -> Result<&'static str, ScriptFault> {
    match word {
        "read" => Ok(ending(disk.read(0, &mut []))),
        "sync" => Ok(ending(disk.sync())),
        _ => Err(ScriptFault::Words),
    }
}

/// Appends the length of a disk.
fn show_length<D: Disk>(disk: &mut D, out: &mut String) -> Result<(), ScriptFault> {
    match disk.len() {
        Ok(count) => show_number(count, out),
        Err(_) => Ok(out.push_str("failed")?),
    }
}

/// Makes a call, and appends how it ended.
fn call<D: Disk>(
    alloc: Global,
    named: &Named,
    disk: &mut D,
    text: &str,
    out: &mut String,
) -> Result<(), ScriptFault> {
    let (word, rest) = first_word(text);
    match word {
        "len" => show_length(disk, out),
        "write" => {
            let (place, words) = first_word(rest);
            let bytes = named.bytes_in(alloc, words)?;
            Ok(out.push_str(write(disk, number_in(place)?, &bytes))?)
        }
        "cut" => Ok(out.push_str(cut(disk, number_in(rest)?))?),
        _ => Ok(out.push_str(plain_call(disk, word)?)?),
    }
}

/// Makes the calls of a text, with commas between them.
fn make_calls<D: Disk>(
    alloc: Global,
    named: &Named,
    disk: &mut D,
    text: &str,
    out: &mut String,
) -> Result<(), ScriptFault> {
    for (at, text) in text.split(", ").enumerate() {
        if at > 0 {
            out.push_str(", ")?;
        }
        call(alloc, named, disk, text, out)?;
    }
    Ok(())
}

/// Makes calls of the disk.
pub fn call_disk(
    alloc: Global,
    named: &Named,
    setting: &mut Setting,
    text: &str,
    out: &mut String,
) -> Result<(), ScriptFault> {
    let mut disk = setting.disk(alloc)?;
    let done = make_calls(alloc, named, &mut disk, text, out);
    setting.leave(alloc, disk, out)?;
    done
}

/// Adds a body behind the closed gate at this place, behind a look at the length and a sync.
fn add_synced(disk: &mut MemDisk, end: u64, body: &[u8]) -> &'static str
    requires { end < 2 ^ 40 }
{
    if !is_within(disk, end + 1) {
        return "not inside";
    }
    match disk.sync() {
        Ok(()) => ending(add(disk, end, body)),
        Err(Failed) => "failed",
    }
}

/// Adds a body to the disk.
pub fn add_body(
    alloc: Global,
    setting: &mut Setting,
    end: u64,
    body: &[u8],
    out: &mut String,
) -> Result<(), ScriptFault> {
    if end >= 1 << 40 {
        return Err(ScriptFault::Words);
    }
    let mut disk = setting.disk(alloc)?;
    out.push_str(add_synced(&mut disk, end, body))?;
    setting.leave(alloc, disk, out)
}

/// Makes calls of a disk that has no file, and that is lent.
pub fn call_no_file(
    alloc: Global,
    named: &Named,
    text: &str,
    out: &mut String,
) -> Result<(), ScriptFault> {
    let mut disk = FileDisk::new(None);
    let mut lent = &mut disk;
    make_calls(alloc, named, &mut lent, text, out)?;
    out.push_str("; faults ")?;
    show_number(disk.faults(), out)
}

/// A new file for reading and writing, without bytes.
fn new_disk(rt: &HostRuntime) -> io::Result<FileDisk> {
    let mut options = OpenOptions::new();
    options.read(true).write(true).create(true).truncate(true);
    Ok(FileDisk::new(Some(options.open(rt, "disk")?)))
}

/// Appends the four bytes at a place, or that they can't be read.
fn show_four(disk: &mut FileDisk, place: u64, out: &mut String) -> Result<(), ScriptFault> {
    let mut four = [0u8; 4];
    match disk.read(place, &mut four) {
        Ok(()) => show_bytes(&four, out),
        Err(_) => Ok(out.push_str("failed")?),
    }
}

/// Makes calls of a disk over a new file, and appends the four bytes at a place, and its failures.
pub fn call_file(
    rt: &HostRuntime,
    named: &Named,
    place: u64,
    text: &str,
    out: &mut String,
) -> Result<(), ScriptFault> {
    let Ok(mut disk) = new_disk(rt) else {
        return Err(ScriptFault::NoSpelling);
    };
    make_calls(rt.alloc(), named, &mut disk, text, out)?;
    out.push_str("; ")?;
    show_four(&mut disk, place, out)?;
    out.push_str("; faults ")?;
    show_number(disk.faults(), out)
}

/// The text of a file.
pub fn show_file(rt: &HostRuntime, name: &str, out: &mut String) -> Result<(), ScriptFault> {
    match fs::read_to_string(rt, name) {
        Ok(text) => Ok(out.push_str(text.as_str())?),
        Err(_) => Err(ScriptFault::NoSpelling),
    }
}
