//! An actuator in memory.

ghost use Rattle.std.specs.Prelude.{◌≡◌, ℕ, List, [], is_ok, not, IfOk, IfSome, OnOk};
ghost use Rattle.std.specs.Prelude.{Option, slice_get, if◌then◌else◌};
ghost use Rattle.fm_outer.specs.FailPlan.{is_due, fresh_plan};
ghost use Rattle.fm_act.specs.HeldPaths.{listed_at, ActCallCause, AddsPath, TakesPath};
ghost use Rattle.fm_act.specs.MemActuator.{told_paths, has_failed, after_act_call};
ghost use Rattle.fm_act.specs.MemActuator.{with_path, without_path};
ghost use Rattle.fm_act.specs.ToldLaws.{told_ascends};

use crate::actuator::Actuator;
use crate::faults::ActFault;
use crate::kind::ActKind;
use fm_bytes::NoMemory;
use fm_name::Fmri;
use std::alloc::Global;
use std::collections::BTreeSet;
use std::marker::Model;

/// An actuator that keeps its paths in memory. Its calls of `listed`, `retire` and `unretire` are
/// numbered from 0; those with the numbers that it was told fail, change nothing, and are counted.
/// No other call fails.
#[derive(Drop)]
pub struct MemActuator {
    kind: ActKind,
    paths: BTreeSet<Fmri>,
    // The paths in their order, where they were listed since the last change: so that to list all
    // of them, place by place, takes one walk.
    list: Option<Vec<Fmri>>,
    fails: Vec<u64>,
    calls: u64,
    failures: u64,
}

impl Model for MemActuator {
    ghost use Rattle.std.specs.Prelude.{◌≡◌, None, IsTrue, IfSome};
    ghost use Rattle.fm_act.specs.MemActuator.{MemActuatorState, are_in_order};

    ghost Value = { MemActuatorState };

    ghost view = { λ a. record {
      kind = a.kind;
      held = a.paths.keys;
      plan = record { fails = a.fails.items; stop = None; calls = a.calls; failures = a.failures };
    } };

    ghost invariant = { λ a. IsTrue (are_in_order a.paths.keys)
        × IfSome a.list (λ list. list.items ≡ a.paths.keys) };
}

impl MemActuator {
    /// One that holds nothing, and fails at the calls with these numbers.
    pub fn new(kind: ActKind, fails: Vec<u64>) -> MemActuator
        ensures { result ≡ record { kind = kind; held = []; plan = fresh_plan fails.items } }
    {
        MemActuator {
            kind,
            paths: BTreeSet::new(*fails.allocator()),
            list: None,
            fails,
            calls: 0,
            failures: 0,
        }
    }

    /// Counts a call, and fails where that is due.
    fn answer(&mut self) -> Result<(), ActFault>
        ensures answer { is_ok result ≡ not (is_due self.old.plan) }
        ensures fails { has_failed result ≡ is_due self.old.plan }
        ensures cause { ActCallCause self.old.plan.failures self.new.plan.failures result }
        ensures state { self.new ≡ after_act_call self.old.held self.old }
    {
        let is_due = self.fails.contains(&self.calls);
        self.calls = self.calls.saturating_add(1);
        if is_due {
            self.failures = self.failures.saturating_add(1);
            return Err(ActFault::Failed);
        }
        Ok(())
    }

    /// The path at a place of path order, where there are so many.
    fn held_at(&mut self, at: usize) -> Result<Option<Fmri>, NoMemory>
        ensures found { IfOk result (λ path. path ≡ slice_get self.old.held at) }
        ensures same { self.new ≡ self.old }
    {
        let list = match self.list.take() {
            Some(list) => list,
            None => list_of(*self.fails.allocator(), &self.paths)?,
        };
        let path = copy_at(&list, at)?;
        self.list = Some(list);
        Ok(path)
    }
}

/// The paths of a set, in their order.
fn list_of(alloc: Global, paths: &BTreeSet<Fmri>) -> Result<Vec<Fmri>, NoMemory>
    ensures { IfOk result (λ list. list.items ≡ paths.now.keys) }
{
    let mut list = Vec::new(alloc);
    'paths: for path in paths {
        list.push(path.copy()?)?;
    }
    Ok(list)
}

/// A copy of the path at a place of a list.
fn copy_at(list: &[Fmri], at: usize) -> Result<Option<Fmri>, NoMemory>
    ensures { IfOk result (λ path. path ≡ slice_get list.now at) }
{
    match list.get(at) {
        Some(path) => Ok(Some(path.copy()?)),
        None => Ok(None),
    }
}

impl Actuator for MemActuator {
    ghost held = { told_paths };

    ghost act_failures = { λ a. a.plan.failures };

    ghost kind_text = { λ a. a.kind };

    ghost ascends = { told_ascends };

    fn kind(&self) -> &str {
        self.kind.text()
    }

    #[tactic(auto, using(crate::proofs::InMemory::found_told))]
    fn listed(&mut self, at: u32) -> Result<Option<Fmri>, ActFault>
        ensures found { IfOk result
            (λ path. IfSome (told_paths self.old) (λ paths. path ≡ listed_at paths at)) }
        ensures same { told_paths self.new ≡ told_paths self.old }
        ensures kind { self.new.kind ≡ self.old.kind }
        ensures cause { ActCallCause self.old.plan.failures self.new.plan.failures result }
        // It fails exactly where it is due to.
        ensures fails { has_failed result ≡ is_due self.old.plan }
        ensures state { self.new ≡ after_act_call self.old.held self.old }
    {
        self.answer()?;
        if at >= 65_536 {
            return Ok(None);
        }
        Ok(self.held_at(at as usize)?)
    }

    fn retire(&mut self, path: &Fmri) -> Result<(), ActFault>
        ensures ok { OnOk result (AddsPath path.now (told_paths self.old) (told_paths self.new)) }
        ensures kind { self.new.kind ≡ self.old.kind }
        ensures cause { ActCallCause self.old.plan.failures self.new.plan.failures result }
        ensures fails { has_failed result ≡ is_due self.old.plan }
        ensures state { self.new ≡ after_act_call
            (if is_ok result then with_path path.now self.old.held else self.old.held) self.old }
    {
        self.answer()?;
        self.list = None;
        self.paths.insert(path.copy()?)?;
        Ok(())
    }

    fn unretire(&mut self, path: &Fmri) -> Result<(), ActFault>
        ensures ok { OnOk result (TakesPath path.now (told_paths self.old) (told_paths self.new)) }
        ensures kind { self.new.kind ≡ self.old.kind }
        ensures cause { ActCallCause self.old.plan.failures self.new.plan.failures result }
        ensures fails { has_failed result ≡ is_due self.old.plan }
        ensures state { self.new ≡ after_act_call
            (if is_ok result then without_path path.now self.old.held else self.old.held) self.old }
    {
        self.answer()?;
        self.list = None;
        self.paths.remove(path);
        Ok(())
    }
}
