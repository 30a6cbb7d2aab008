// Sources and sinks, in memory and over files.
use crate::setting::Setting;
use fm_outer::{Failed, MemSink, MemSource, ReadSource, Sink, Source, WriteSink};
use std::alloc::Global;
use std::fs;
use std::fs::File;
use test_words::{ScriptFault, number_in, show_bytes, text_in, text_of};

/// What a source gives into so much of a buffer.
fn give<'a, S: Source>(source: &mut S, buf: &'a mut [u8], room: usize) -> Result<&'a [u8], Failed> {
    if room == 0 || room > buf.len() {
        return Err(Failed);
    }
    let count = source.next(&mut buf[..room])?;
    Ok(&buf[..count])
}

/// Appends what a source gives into so much of a buffer, behind a bar.
fn show_given<S: Source>(source: &mut S, room: u64, out: &mut String) -> Result<(), ScriptFault> {
    let mut buf = [0u8; 8];
    out.push_str(" |")?;
    match give(source, &mut buf, room as usize) {
        Ok(bytes) => Ok(out.push_str(text_of(bytes)?)?),
        Err(_) => Ok(out.push_str("failed")?),
    }
}

/// Appends what a source gives into so much of a buffer at a time.
fn show_all<S: Source>(source: &mut S, rooms: &str, out: &mut String) -> Result<(), ScriptFault> {
    for room in rooms.split_whitespace() {
        show_given(source, number_in(room)?, out)?;
    }
    Ok(())
}

/// A source of the setting's bytes, which gives so many at most.
fn source_of(alloc: Global, setting: &Setting, piece: u64) -> Result<MemSource, ScriptFault> {
    if piece == 0 {
        return Err(ScriptFault::Words);
    }
    let bytes = setting.bytes.to_vec(alloc)?;
    let fails = setting.fails.to_vec(alloc)?;
    Ok(MemSource::new(bytes, piece as usize, fails))
}

/// What a source in memory gives, and what it has left each time.
pub fn show_source(
    alloc: Global,
    setting: &Setting,
    piece: u64,
    rooms: &str,
    out: &mut String,
) -> Result<(), ScriptFault> {
    let mut source = source_of(alloc, setting, piece)?;
    for room in rooms.split_whitespace() {
        show_given(&mut source, number_in(room)?, out)?;
        out.push_str(" of ")?;
        out.push_str(text_of(source.rest())?)?;
    }
    Ok(())
}

/// Puts pieces, with strokes between them, and appends whether each was taken.
fn put_pieces<K: Sink>(sink: &mut K, pieces: &str, out: &mut String) -> Result<(), ScriptFault> {
    for piece in pieces.split('/') {
        let is_put = sink.put(piece.as_bytes()).is_ok();
        out.push_str(if is_put { "put " } else { "failed " })?;
    }
    Ok(())
}

/// What a sink in memory takes, and what it then holds.
pub fn show_sink(
    alloc: Global,
    setting: &Setting,
    room: u64,
    pieces: &str,
    out: &mut String,
) -> Result<(), ScriptFault> {
    let mut sink = MemSink::new(alloc, room as usize, setting.fails.to_vec(alloc)?)?;
    put_pieces(&mut sink, pieces, out)?;
    out.push_str(text_of(sink.bytes())?)?;
    Ok(())
}

/// What a sink takes over a writer that has room for one byte.
pub fn show_small(pieces: &str, out: &mut String) -> Result<(), ScriptFault> {
    let mut room = [0u8; 1];
    let mut sink = WriteSink::new(room.as_mut_slice());
    put_pieces(&mut sink, pieces, out)
}

/// Writes a file.
pub fn write_file(
    rt: &HostRuntime,
    name: &str,
    text: &str,
    out: &mut String,
) -> Result<(), ScriptFault> {
    match fs::write(rt, name, text) {
        Ok(()) => Ok(out.push_str("written")?),
        Err(_) => Err(ScriptFault::NoSpelling),
    }
}

/// What a source gives over a file or a folder.
pub fn show_file_source(
    rt: &HostRuntime,
    name: &str,
    rooms: &str,
    out: &mut String,
) -> Result<(), ScriptFault> {
    let Ok(file) = File::open(rt, name) else {
        return Err(ScriptFault::NoSpelling);
    };
    show_all(&mut ReadSource::new(file), rooms, out)
}

/// What a sink takes over a file that is made anew.
pub fn show_file_sink(
    rt: &HostRuntime,
    name: &str,
    pieces: &str,
    out: &mut String,
) -> Result<(), ScriptFault> {
    let Ok(file) = File::create(rt, name) else {
        return Err(ScriptFault::NoSpelling);
    };
    put_pieces(&mut WriteSink::new(file), pieces, out)
}

/// What a sink takes over a file that is open for reading.
pub fn show_read_only(
    rt: &HostRuntime,
    name: &str,
    pieces: &str,
    out: &mut String,
) -> Result<(), ScriptFault> {
    let Ok(file) = File::open(rt, name) else {
        return Err(ScriptFault::NoSpelling);
    };
    put_pieces(&mut WriteSink::new(file), pieces, out)
}
