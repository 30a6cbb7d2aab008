//! Actuators that keep their lists in files.

ghost use Rattle.std.specs.Prelude.{◌≡◌, ℕ, List, None, Some};
ghost use Rattle.std.specs.declared.option.Option.{Option};
ghost use Rattle.fm_act.specs.HeldPaths.{ActCallCause};
ghost use Rattle.fm_act.specs.ToldLaws.{nothing_told_ascends};

use crate::retired_note::RetiredNote;
use fm_act::{ActFault, Actuator};
use fm_bytes::Text;
use fm_name::{Fmri, read_fmri};
use std::alloc::{AllocError, Global};
use std::io::{ErrorKind, Write};
use std::{fs, io};

/// The actuator of one kind. Its list is the file `retired.KIND`: one path a line, in path order
/// and each once, each with a newline behind it. A missing file is an empty list, and every other
/// text is a fault. The file is replaced whole whenever the list changes: it is written beside,
/// synced and renamed, and then the folder is synced.
///
/// The file is read at the first call, and kept in memory up to a call that is refused: then it is
/// read again.
#[derive(Drop)]
pub struct Retired {
    rt: HostRuntime,
    kind: Text,
    paths: Option<Vec<Fmri>>,
    failures: u64,
    note: RetiredNote,
}

impl Retired {
    /// The actuator of the kind, which keeps in the note why it first failed.
    pub fn new(rt: HostRuntime, kind: Text, note: RetiredNote) -> Retired {
        Retired {
            rt,
            kind,
            paths: None,
            failures: 0,
            note,
        }
    }
}

/// Counts a failure, and notes its reason.
fn counted<T>(failures: &mut u64, note: &RetiredNote, answer: io::Result<T>) -> Result<T, ActFault>
    ensures { ActCallCause failures.old failures.new result }
{
    match answer {
        Ok(value) => Ok(value),
        Err(fault) if fault.kind() == ErrorKind::OutOfMemory => Err(ActFault::NoMemory),
        Err(fault) => {
            note.keep(fault);
            *failures = failures.saturating_add(1);
            Err(ActFault::Failed)
        }
    }
}

/// What stands for a text that is no list.
fn no_list() -> io::Error {
    io::Error::from(ErrorKind::InvalidData)
}

/// Adds the path of a line, which stands behind the paths of the lines before it.
fn push_path(alloc: Global, paths: &mut Vec<Fmri>, line: &str) -> io::Result<()> {
    let Some(path) = read_fmri(alloc, line).map_err(|_| AllocError)? else {
        return Err(no_list());
    };
    if paths.last().is_some_and(|last| *last >= path) {
        return Err(no_list());
    }
    paths.push(path)?;
    Ok(())
}

/// The paths in the text of a list.
fn paths_in(alloc: Global, text: &str) -> io::Result<Vec<Fmri>> {
    let mut paths = Vec::new(alloc);
    if text.is_empty() {
        return Ok(paths);
    }
    let Some(lines) = text.strip_suffix("\n") else {
        return Err(no_list());
    };
    for line in lines.split('\n') {
        push_path(alloc, &mut paths, line)?;
    }
    Ok(paths)
}

/// The text of a list.
fn text_of(alloc: Global, paths: &[Fmri]) -> Result<String, AllocError> {
    let mut text = String::new(alloc);
    for path in paths {
        text.push_str(path.text())?;
        text.push_str("\n")?;
    }
    Ok(text)
}

/// The paths in the list of a kind.
fn read_list(rt: &HostRuntime, kind: &str) -> io::Result<Vec<Fmri>> {
    let name = format!(in rt.alloc(); "retired.{kind}")?;
    match fs::read_to_string(rt, name.as_str()) {
        Ok(text) => paths_in(rt.alloc(), text.as_str()),
        Err(fault) => match fault.kind() {
            ErrorKind::NotFound => Ok(Vec::new(rt.alloc())),
            _ => Err(fault),
        },
    }
}

/// Writes a whole file, and syncs it.
fn write_file(rt: &HostRuntime, name: &str, text: &str) -> io::Result<()> {
    let mut file = fs::create(rt, name)?;
    file.write_all(text.as_bytes())?;
    file.sync_all()
}

/// Syncs the folder.
fn sync_folder(rt: &HostRuntime) -> io::Result<()> {
    fs::open(rt, ".")?.sync_all()
}

/// Puts the paths in the place of the list of a kind.
fn replace_list(rt: &HostRuntime, kind: &str, paths: &[Fmri]) -> io::Result<()> {
    let name = format!(in rt.alloc(); "retired.{kind}")?;
    let beside = format!(in rt.alloc(); "retired.{kind}.new")?;
    let text = text_of(rt.alloc(), paths)?;
    write_file(rt, beside.as_str(), text.as_str())?;
    fs::rename(rt, beside.as_str(), name.as_str())?;
    sync_folder(rt)
}

/// Takes the list of a kind from where it is kept, or else from its file.
fn take_list(rt: &HostRuntime, kind: &str, kept: &mut Option<Vec<Fmri>>) -> io::Result<Vec<Fmri>> {
    match kept.take() {
        Some(paths) => Ok(paths),
        None => read_list(rt, kind),
    }
}

/// The path at a place of the list of a kind.
fn path_at(
    rt: &HostRuntime,
    kind: &str,
    kept: &mut Option<Vec<Fmri>>,
    at: u32,
) -> io::Result<Option<Fmri>> {
    let paths = take_list(rt, kind, kept)?;
    let found = match paths.get(at as usize) {
        Some(path) if at < 65_536 => Some(path.copy().map_err(|_| AllocError)?),
        _ => None,
    };
    *kept = Some(paths);
    Ok(found)
}

/// Adds the path to the list of a kind.
fn add(rt: &HostRuntime, kind: &str, kept: &mut Option<Vec<Fmri>>, path: &Fmri) -> io::Result<()> {
    let mut paths = take_list(rt, kind, kept)?;
    if let Err(at) = paths.binary_search(path) {
        paths.insert(at, path.copy().map_err(|_| AllocError)?)?;
        replace_list(rt, kind, &paths)?;
    }
    *kept = Some(paths);
    Ok(())
}

/// Takes the path from the list of a kind.
fn take(rt: &HostRuntime, kind: &str, kept: &mut Option<Vec<Fmri>>, path: &Fmri) -> io::Result<()> {
    let mut paths = take_list(rt, kind, kept)?;
    if let Ok(at) = paths.binary_search(path) {
        paths.remove(at);
        replace_list(rt, kind, &paths)?;
    }
    *kept = Some(paths);
    Ok(())
}

impl Actuator for Retired {
    ghost held = { λ _. None };

    ghost act_failures = { λ a. a.failures };

    ghost kind_text = { λ a. a.kind };

    ghost ascends = { λ _ paths told. nothing_told_ascends paths told };

    fn kind(&self) -> &str {
        self.kind.get()
    }

    fn listed(&mut self, at: u32) -> Result<Option<Fmri>, ActFault> {
        let answer = path_at(&self.rt, self.kind.get(), &mut self.paths, at);
        counted(&mut self.failures, &self.note, answer)
    }

    fn retire(&mut self, path: &Fmri) -> Result<(), ActFault> {
        let answer = add(&self.rt, self.kind.get(), &mut self.paths, path);
        counted(&mut self.failures, &self.note, answer)
    }

    fn unretire(&mut self, path: &Fmri) -> Result<(), ActFault> {
        let answer = take(&self.rt, self.kind.get(), &mut self.paths, path);
        counted(&mut self.failures, &self.note, answer)
    }
}
