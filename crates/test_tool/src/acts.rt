// Actuators of a machine.
use crate::disks::numbers;
use crate::shown::yes_or_no;
use crate::undone::Undone;
use fm_act::{ActKind, MemActuator};
use fm_name::Fmri;
use fm_top::Actuator;
use std::alloc::Global;

/// What an actuator is for, and the paths that it holds.
#[derive(Drop)]
pub struct ActPaths<'a> {
    kind: &'a str,
    paths: Vec<Fmri>,
}

/// Appends copies of the paths.
fn copy_paths(paths: &[Fmri], to: &mut Vec<Fmri>) -> Result<(), Undone> {
    for path in paths {
        to.push(path.copy()?)?;
    }
    Ok(())
}

/// Has an actuator take the paths out of use.
fn retire_all(paths: &[Fmri], act: &mut MemActuator) -> Result<(), Undone> {
    for path in paths {
        if act.retire(path).is_err() {
            return Err(Undone::NoMemory);
        }
    }
    Ok(())
}

impl<'a> ActPaths<'a> {
    /// Actuators of these kinds, a blank between two, that hold nothing.
    pub fn of_kinds(alloc: Global, kinds: &'a str) -> Result<Vec<ActPaths<'a>>, Undone> {
        let mut acts = Vec::new(alloc);
        if !kinds.is_empty() {
            for kind in kinds.split(' ') {
                let paths = Vec::new(alloc);
                acts.push(ActPaths { kind, paths })?;
            }
        }
        Ok(acts)
    }

    /// The same once more.
    pub fn copy(&self, alloc: Global) -> Result<ActPaths<'a>, Undone> {
        let mut paths = Vec::new(alloc);
        copy_paths(&self.paths, &mut paths)?;
        let kind = self.kind;
        Ok(ActPaths { kind, paths })
    }

    /// An actuator that holds nothing, of which this call fails, counted behind as many calls as
    /// there are paths.
    fn empty(&self, alloc: Global, fails: Option<u64>) -> Result<MemActuator, Undone> {
        let before = self.paths.len() as u64;
        let calls = numbers(alloc, fails.map(|call| call.saturating_add(before)))?;
        match ActKind::read(alloc, self.kind)? {
            Some(kind) => Ok(MemActuator::new(kind, calls)),
            None => Err(Undone::Unread),
        }
    }

    /// An actuator that holds the paths, of which this call fails, counted from here on.
    pub fn actuator(&self, alloc: Global, fails: Option<u64>) -> Result<MemActuator, Undone> {
        let mut act = self.empty(alloc, fails)?;
        retire_all(&self.paths, &mut act)?;
        Ok(act)
    }

    /// Takes over what an actuator holds now.
    pub fn take_over(
        &mut self,
        alloc: Global,
        act: &mut Box<dyn Actuator + Send>,
    ) -> Result<(), Undone> {
        self.paths = Vec::new(alloc);
        for place in 0..65_536 {
            match path_at(act, place)? {
                Some(path) => self.paths.push(path)?,
                None => break,
            }
        }
        Ok(())
    }

    /// Whether it holds just the paths of its kind that lines of a text retire.
    fn holds_just(&self, text: &str) -> bool {
        let mut count = 0_usize;
        for line in text.lines() {
            if let Some(path) = line.strip_prefix("retire ") {
                if is_of_kind(path, self.kind) {
                    if !self.paths.iter().any(|held| held.text() == path) {
                        return false;
                    }
                    count = count.saturating_add(1);
                }
            }
        }
        count == self.paths.len()
    }

    /// Appends whether it holds just the paths of its kind that lines of a text retire.
    pub fn show_retired(&self, text: &str, out: &mut String) -> Result<(), Undone> {
        let word = yes_or_no(self.holds_just(text));
        writeln!(out, "retired {}: {word}", self.kind)?;
        Ok(())
    }

    /// Appends what it holds, a path a line.
    pub fn show(&self, out: &mut String) -> Result<(), Undone> {
        out.push_str(self.kind)?;
        out.push('\n')?;
        for path in &self.paths {
            out.push_str("| ")?;
            out.push_str(path.text())?;
            out.push('\n')?;
        }
        Ok(())
    }
}

/// Whether a path is of this kind: that is the name in its last part.
fn is_of_kind(path: &str, kind: &str) -> bool {
    let mut is_so = false;
    for part in path.split('/') {
        is_so = part.split_once('=').unwrap_or((part, "")).0 == kind;
    }
    is_so
}

/// The path that an actuator holds at a place. It is asked once more where the call fails.
fn path_at(act: &mut Box<dyn Actuator + Send>, place: u32) -> Result<Option<Fmri>, Undone> {
    if let Ok(path) = act.listed(place) {
        return Ok(path);
    }
    match act.listed(place) {
        Ok(path) => Ok(path),
        Err(_) => Err(Undone::NoMemory),
    }
}
