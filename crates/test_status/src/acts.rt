// Actuators in memory, and one that counts, brought to hold what is wanted.
ghost use Rattle.std.specs.Prelude.{None, codes};
ghost use Rattle.fm_act.specs.ToldLaws.{nothing_told_ascends};

use crate::statuses::wanted_of;
use fm_act::{ActFault, ActKind, ActRefused, Actuator, MemActuator, reconcile};
use fm_entry::Spoken;
use fm_name::{Fmri, read_fmri};
use fm_status::Wanted;
use std::alloc::Global;
use test_words::{ScriptFault, first_word, number_in, path_in, show_count, small_in};

/// The kind of a text.
fn kind_in(alloc: Global, text: &str) -> Result<ActKind, ScriptFault> {
    ActKind::read(alloc, text)?.ok_or(ScriptFault::NoSpelling)
}

/// Appends the text of a kind.
pub fn show_kind(alloc: Global, text: &str, out: &mut String) -> Result<(), ScriptFault> {
    out.push_str(kind_in(alloc, text)?.text())?;
    Ok(())
}

/// An actuator of a kind that fails at one call, or at none: `KIND CALL`.
fn actuator_in(alloc: Global, kind: &str, call: &str) -> Result<MemActuator, ScriptFault> {
    let mut fails = Vec::new(alloc);
    if call != "-" {
        fails.push(number_in(call)?)?;
    }
    Ok(MemActuator::new(kind_in(alloc, kind)?, fails))
}

/// How a call ended.
fn ending(answer: Result<(), ActFault>) -> Result<&'static str, ScriptFault> {
    match answer {
        Ok(()) => Ok("done"),
        Err(ActFault::Failed) => Ok("failed"),
        Err(ActFault::NoMemory) => Err(ScriptFault::NoMemory),
    }
}

/// Has an actuator hold these paths, by a call each.
fn hold(alloc: Global, act: &mut MemActuator, paths: &str) -> Result<(), ScriptFault> {
    for path in paths.split_whitespace() {
        ending(act.retire(&path_in(alloc, path)?))?;
    }
    Ok(())
}

/// An actuator that holds paths: `KIND CALL PATH ..`.
fn holding(alloc: Global, text: &str) -> Result<MemActuator, ScriptFault> {
    let (kind, rest) = first_word(text);
    let (call, paths) = first_word(rest);
    let mut act = actuator_in(alloc, kind, call)?;
    hold(alloc, &mut act, paths)?;
    Ok(act)
}

/// Appends the path that an answer lists, and says whether there is one.
fn show_path(
    listed: Result<Option<Fmri>, ActFault>,
    out: &mut String,
) -> Result<bool, ScriptFault> {
    match listed {
        Ok(Some(path)) => {
            out.push_str(path.text())?;
            out.push_str(" ")?;
            Ok(true)
        }
        Ok(None) => Ok(false),
        Err(ActFault::Failed) => {
            out.push_str("failed ")?;
            Ok(true)
        }
        Err(ActFault::NoMemory) => Err(ScriptFault::NoMemory),
    }
}

/// Appends the paths that an actuator lists, of which the first is listed twice.
fn show_held(act: &mut Box<dyn Actuator + Send>, out: &mut String) -> Result<(), ScriptFault> {
    out.push_str("; ")?;
    out.push_str(act.kind())?;
    out.push_str(" ")?;
    show_path(act.listed(0), out)?;
    for at in 0..10 {
        if !show_path(act.listed(at), out)? {
            return Ok(());
        }
    }
    Ok(())
}

/// Appends how a reconciling ended.
fn show_ended(ended: Result<(), ActRefused>, out: &mut String) -> Result<(), ScriptFault> {
    match ended {
        Ok(()) => Ok(out.push_str("done")?),
        Err(ActRefused::Act { index }) => show_count("failed at", index as usize, out),
        Err(ActRefused::NoMemory) => Err(ScriptFault::NoMemory),
    }
}

/// Brings two actuators to hold what is wanted, and appends what each then holds.
fn bring(
    alloc: Global,
    first: MemActuator,
    second: MemActuator,
    wanted: &Wanted,
    out: &mut String,
) -> Result<(), ScriptFault> {
    let first = Box::new(alloc, first)?;
    let second = Box::new(alloc, second)?;
    let mut acts: [Box<dyn Actuator + Send>; 2] = [first, second];
    show_ended(reconcile(alloc, &mut acts, wanted), out)?;
    show_held(&mut acts[0], out)?;
    show_held(&mut acts[1], out)
}

/// Brings two actuators to hold what the records want: `KIND CALL PATH .., KIND CALL PATH ..`.
pub fn show_reconciled(
    alloc: Global,
    records: &[Spoken],
    text: &str,
    out: &mut String,
) -> Result<(), ScriptFault> {
    let (first, second) = text.split_once(", ").ok_or(ScriptFault::Words)?;
    let wanted = wanted_of(alloc, records)?;
    let first = holding(alloc, first)?;
    let second = holding(alloc, second)?;
    bring(alloc, first, second, &wanted, out)
}

/// Makes a step of an actuator, and appends how it ended.
fn step(
    alloc: Global,
    act: &mut MemActuator,
    text: &str,
    out: &mut String,
) -> Result<(), ScriptFault> {
    let (word, rest) = first_word(text);
    match word {
        "retire" => out.push_str(ending(act.retire(&path_in(alloc, rest)?))?)?,
        "unretire" => out.push_str(ending(act.unretire(&path_in(alloc, rest)?))?)?,
        "listed" => {
            if !show_path(act.listed(small_in(rest)?), out)? {
                out.push_str("none")?;
            }
        }
        _ => return Err(ScriptFault::Words),
    }
    Ok(())
}

/// Makes steps of an actuator: `KIND CALL, STEP, STEP ..`.
pub fn show_steps(alloc: Global, text: &str, out: &mut String) -> Result<(), ScriptFault> {
    let (first, steps) = text.split_once(", ").ok_or(ScriptFault::Words)?;
    let (kind, call) = first_word(first);
    let mut act = actuator_in(alloc, kind, call)?;
    out.push_str(act.kind())?;
    for text in steps.split(", ") {
        out.push_str(", ")?;
        step(alloc, &mut act, text, out)?;
    }
    Ok(())
}

/// An actuator that tells nothing to contracts, and holds as many processors as it counts.
#[derive(Drop)]
struct Counting {
    alloc: Global,
    held: u32,
}

impl Actuator for Counting {
    ghost held = { λ _. None };

    ghost act_failures = { λ _. 0 };

    ghost kind_text = { λ _. codes "cpu" };

    ghost ascends = { λ _ paths told. nothing_told_ascends paths told };

    fn kind(&self) -> &str {
        "cpu"
    }

    fn listed(&mut self, at: u32) -> Result<Option<Fmri>, ActFault> {
        if at >= self.held || at >= 65_536 {
            return Ok(None);
        }
        let text = format!(in self.alloc; "hc:///cpu={at}")?;
        Ok(read_fmri(self.alloc, text.as_str())?)
    }

    fn retire(&mut self, _path: &Fmri) -> Result<(), ActFault> {
        self.held = self.held.saturating_add(1);
        Ok(())
    }

    fn unretire(&mut self, _path: &Fmri) -> Result<(), ActFault> {
        self.held = self.held.saturating_sub(1);
        Ok(())
    }
}

/// Brings an actuator that counts so many paths to hold what the records want, and appends the
/// first two that are left.
pub fn show_counting(
    alloc: Global,
    records: &[Spoken],
    held: u32,
    out: &mut String,
) -> Result<(), ScriptFault> {
    let wanted = wanted_of(alloc, records)?;
    let boxed = Box::new(alloc, Counting { alloc, held })?;
    let mut acts: [Box<dyn Actuator + Send>; 1] = [boxed];
    show_ended(reconcile(alloc, &mut acts, &wanted), out)?;
    out.push_str(" ")?;
    show_path(acts[0].listed(0), out)?;
    show_path(acts[0].listed(1), out)?;
    Ok(())
}
