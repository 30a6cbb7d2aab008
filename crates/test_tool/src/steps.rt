// Steps of a script: what each of its lines does.
use crate::blocks::{Block, number};
use crate::disks::{ALL, bytes_of, disk_name, is_named};
use crate::runs::Run;
use crate::settings::SourceCalls;
use crate::shown::{show, yes_or_no};
use crate::undone::Undone;
use fm_outer::Image;
use fm_top::ToolStatus;
use std::alloc::Global;

/// The most bytes of a disk.
const ROOM: u64 = 16_384;

/// Makes the call of a line, and appends what it put.
fn call_of(run: &mut Run<'_>, block: &Block<'_>, put: &mut Vec<u8>) -> Result<ToolStatus, Undone> {
    let (_, words) = block.words();
    let mut input = Vec::new(run.alloc);
    run.texts.write(run.alloc, &block.lines, &mut input)?;
    run.call(words, &input, put)
}

/// Writes the line of a call, how it ended and what it put.
fn show_call(head: &str, status: ToolStatus, put: &[u8], out: &mut String) -> Result<(), Undone> {
    writeln!(out, "{head}: {}", status.code())?;
    show(put, out)
}

/// Makes the call of a line, writes what it put, and makes that the text `put`.
fn step_call(run: &mut Run<'_>, block: &Block<'_>, out: &mut String) -> Result<(), Undone> {
    let mut put = Vec::new(run.alloc);
    let status = call_of(run, block, &mut put)?;
    show_call(block.head, status, &put, out)?;
    run.texts.define("put", put)
}

/// Makes the call of a line, writes how it ended, and makes what it put the text `put`.
fn step_brief(run: &mut Run<'_>, block: &Block<'_>, out: &mut String) -> Result<(), Undone> {
    let mut put = Vec::new(run.alloc);
    let status = call_of(run, block, &mut put)?;
    writeln!(out, "{}: {}", block.head, status.code())?;
    run.texts.define("put", put)
}

/// A text as characters.
fn characters<'b>(run: &'b Run<'_>, name: &str) -> Result<&'b str, Undone> {
    match str::from_utf8(run.texts.get(name)?) {
        Ok(text) => Ok(text),
        Err(_) => Err(Undone::Unread),
    }
}

/// Writes a line of a text: `PLACE NAME`.
fn show_line(run: &Run<'_>, rest: &str, out: &mut String) -> Result<(), Undone> {
    let (place, name) = rest.split_once(' ').ok_or(Undone::Unread)?;
    let text = characters(run, name)?;
    let line = text
        .lines()
        .nth(number(place)? as usize)
        .ok_or(Undone::Unread)?;
    writeln!(out, "line {rest}: {line}")?;
    Ok(())
}

/// Writes whether two texts are the same: `NAME NAME`.
fn show_same(run: &Run<'_>, rest: &str, out: &mut String) -> Result<(), Undone> {
    let (one, other) = rest.split_once(' ').ok_or(Undone::Unread)?;
    let word = yes_or_no(run.texts.get(one)? == run.texts.get(other)?);
    writeln!(out, "same {rest}: {word}")?;
    Ok(())
}

/// Writes of each actuator whether it holds just what the last call's text retires.
fn show_retired(run: &Run<'_>, out: &mut String) -> Result<(), Undone> {
    let text = characters(run, "put")?;
    for held in &run.machine.acts {
        held.show_retired(text, out)?;
    }
    Ok(())
}

/// Sets what the next calls are given.
fn step_setting<'a>(run: &mut Run<'a>, word: &str, rest: &'a str) -> Result<(), Undone> {
    match word {
        "rules" => run.settings.rules = rest,
        "topology" => run.settings.topology = rest,
        "piece" => run.settings.piece = number(rest)? as usize,
        "now" => run.settings.now = number(rest)?,
        _ => return Err(Undone::Unread),
    }
    Ok(())
}

/// Makes a machine of a line: actuators of these kinds, or first `room COUNT`.
fn step_machine<'a>(run: &mut Run<'a>, rest: &'a str) -> Result<(), Undone> {
    match rest.strip_prefix("room ") {
        Some(rest) => {
            let (room, kinds) = rest.split_once(' ').unwrap_or((rest, ""));
            run.machine.clear(run.alloc, number(room)?, kinds)
        }
        None => run.machine.clear(run.alloc, ROOM, rest),
    }
}

/// A place and a number.
fn pair(rest: &str) -> Result<(usize, u64), Undone> {
    let (place, call) = rest.split_once(' ').ok_or(Undone::Unread)?;
    Ok((number(place)? as usize, number(call)?))
}

/// Has a call of an object fail: of the next call's, or of a disk.
fn step_fail(run: &mut Run<'_>, rest: &str) -> Result<(), Undone> {
    let (object, call) = rest.split_once(' ').ok_or(Undone::Unread)?;
    let fails = &mut run.settings.fails;
    match object {
        "rules" => fails.rules = Some(pair(call)?),
        "actuator" => fails.act = Some(pair(call)?),
        "topology" => fails.topology = Some(number(call)?),
        "input" => fails.input = Some(number(call)?),
        "out" => fails.out = Some(number(call)?),
        _ => return run
            .machine
            .fail(run.alloc, disk_name(object)?, number(call)?),
    }
    Ok(())
}

/// Has the calls of a disk stop.
fn step_stop(run: &mut Run<'_>, rest: &str) -> Result<(), Undone> {
    let (name, call) = rest.split_once(' ').ok_or(Undone::Unread)?;
    run.machine.stop(run.alloc, disk_name(name)?, number(call)?)
}

/// The image of this name: `old`, `new`, or a byte in decimal digits.
fn image_of(word: &str) -> Result<Image, Undone> {
    match word {
        "old" => Ok(Image::Old),
        "new" => Ok(Image::New),
        _ => match word.parse::<u8>() {
            Ok(byte) => Ok(Image::Fill(byte)),
            Err(_) => Err(Undone::Unread),
        },
    }
}

/// Has the machine crash with one of these images, a blank between two: the one whose turn it is.
fn step_crash(run: &mut Run<'_>, rest: &str) -> Result<(), Undone> {
    let word = rest.split(' ').nth(run.image).ok_or(Undone::Unread)?;
    run.machine.crash(run.alloc, image_of(word)?)?;
    Ok(())
}

/// Alters one of the bytes: `PLACE BYTE`.
fn alter(rest: &str, bytes: &mut [u8]) -> Result<(), Undone> {
    let (place, byte) = pair(rest)?;
    let Ok(byte) = u8::try_from(byte) else {
        return Err(Undone::Unread);
    };
    *bytes.get_mut(place).ok_or(Undone::Unread)? = byte;
    Ok(())
}

/// Has bytes be other ones: the text of the line's block, or the same, cut or altered.
fn change_bytes(
    run: &Run<'_>,
    block: &Block<'_>,
    rest: &str,
    bytes: &mut Vec<u8>,
) -> Result<(), Undone> {
    match block.words().0 {
        "set" => {
            bytes.clear();
            run.texts.write(run.alloc, &block.lines, bytes)
        }
        "cut" => {
            bytes.truncate(number(rest)? as usize);
            Ok(())
        }
        _ => alter(rest, bytes),
    }
}

/// Puts other bytes on a disk: the text of the lines, or those that it has, cut or altered.
fn step_disk(run: &mut Run<'_>, block: &Block<'_>) -> Result<(), Undone> {
    let (_, rest) = block.words();
    let (name, rest) = rest.split_once(' ').unwrap_or((rest, ""));
    let name = disk_name(name)?;
    let mut bytes = bytes_of(run.alloc, run.machine.disk(name))?;
    change_bytes(run, block, rest, &mut bytes)?;
    run.machine.put_disk(run.alloc, name, &bytes, None)?;
    Ok(())
}

/// Writes how many calls of a disk were made, or of all.
fn show_calls(run: &mut Run<'_>, rest: &str, out: &mut String) -> Result<(), Undone> {
    let mut calls = 0_u64;
    for name in ALL {
        if is_named(name, rest) {
            calls = calls.saturating_add(run.machine.disk(name).calls());
        }
    }
    writeln!(out, "calls {rest}: {calls}")?;
    Ok(())
}

/// How often sources of the last call were called, or the most bytes that its input was asked for
/// at once.
fn asked_of(asked: SourceCalls, word: &str) -> Result<u64, Undone> {
    let two = asked.rules.saturating_add(asked.topology);
    match word {
        "rules" => Ok(asked.rules),
        "topology" => Ok(asked.topology),
        "input" => Ok(asked.input),
        "most" => Ok(asked.most),
        "all" => Ok(two.saturating_add(asked.input)),
        _ => Err(Undone::Unread),
    }
}

/// Writes how often sources of the last call were called, or the most bytes that its input was
/// asked for at once.
fn show_asked(asked: SourceCalls, word: &str, out: &mut String) -> Result<(), Undone> {
    let count = asked_of(asked, word)?;
    writeln!(out, "asked {word}: {count}")?;
    Ok(())
}

/// Writes the bytes of a disk.
fn show_bytes(run: &mut Run<'_>, rest: &str, out: &mut String) -> Result<(), Undone> {
    let name = disk_name(rest)?;
    writeln!(out, "bytes {rest}:")?;
    let bytes = bytes_of(run.alloc, run.machine.disk(name))?;
    show(&bytes, out)
}

/// Writes what each actuator holds.
fn show_held(run: &Run<'_>, out: &mut String) -> Result<(), Undone> {
    for held in &run.machine.acts {
        out.push_str("held ")?;
        held.show(out)?;
    }
    Ok(())
}

/// Does what a line says that is no sweep and defines no text.
pub fn step<'a>(run: &mut Run<'a>, block: &Block<'a>, out: &mut String) -> Result<(), Undone> {
    let (word, rest) = block.words();
    match word {
        "$" => step_call(run, block, out),
        "brief" => step_brief(run, block, out),
        "line" => show_line(run, rest, out),
        "same" => show_same(run, rest, out),
        "retired" => show_retired(run, out),
        "machine" => step_machine(run, rest),
        "fail" => step_fail(run, rest),
        "stop" => step_stop(run, rest),
        "crash" => step_crash(run, rest),
        "set" | "cut" | "alter" => step_disk(run, block),
        "calls" => show_calls(run, rest, out),
        "asked" => show_asked(run.asked, rest, out),
        "bytes" => show_bytes(run, rest, out),
        "held" => show_held(run, out),
        _ => step_setting(run, word, rest),
    }
}
