// A second opinion of a diagnosis module, over drawn rules: cases, an engine and repairs, from the
// definitions alone.
use crate::happenings::{Happening, Repair};
use crate::rules::{DrawnRules, FIRST_ROOT, RootKind, TRIP, bit_of};
use crate::spoken_of::{Blame, Said, put_said, put_unknown};
use crate::stories::{Cut, Observation, search};
use fm_entry::{ListKind, Mark};
use std::alloc::Global;
use std::mem;
use test_words::ScriptFault;

/// An open case.
#[derive(Drop)]
struct Pending {
    number: u64,
    opened: u64,
    reports: u64,
    observed: u32,
    cuts: Vec<Cut>,
}

/// How often each kind of word was said, how often the engine fired, and how many links were cut.
#[derive(Clone, Copy, Drop)]
pub struct Counts {
    pub counts: [u32; 7],
}

/// The state of the module, and what it said.
#[derive(Drop)]
pub struct Plain {
    alloc: Global,
    time: u64,
    next: u64,
    open: Vec<Pending>,
    solved: Vec<Said>,
    moments: Vec<u64>,
    fired: u32,
    pub text: String,
    pub counts: Counts,
}

impl Pending {
    /// What is said of it, with these suspects.
    fn said(self, suspects: Vec<Blame>) -> Said {
        Said {
            number: self.number,
            observed: self.observed,
            cuts: self.cuts,
            suspects,
        }
    }
}

impl Counts {
    /// Nothing was counted yet.
    pub fn new() -> Counts {
        Counts { counts: [0; 7] }
    }

    fn count(&mut self, place: usize) {
        if let Some(count) = self.counts.get_mut(place) {
            *count = count.saturating_add(1);
        }
    }

    /// The same with those of others.
    pub fn add(&mut self, others: &Counts) {
        for (own, more) in self.counts.iter_mut().zip(others.counts.iter()) {
            *own = own.saturating_add(*more);
        }
    }
}

fn place_of(kind: ListKind) -> usize {
    match kind {
        ListKind::Suspect => 0,
        ListKind::Undiagnosable => 1,
        ListKind::Upset => 2,
        ListKind::Updated => 3,
        ListKind::Repaired => 4,
    }
}

/// The bits of the roots that are upsets.
fn upsets_of(rules: &DrawnRules) -> u32 {
    let mut bits = 0;
    for number in FIRST_ROOT..10 {
        if rules.root(number).kind == RootKind::Upset {
            bits |= bit_of(number);
        }
    }
    bits
}

/// The rates of the roots of these bits, together.
fn rates_of(rules: &DrawnRules, bits: u32) -> u64 {
    let mut sum = 0u64;
    for number in FIRST_ROOT..10 {
        if bits & bit_of(number) != 0 {
            sum = sum.saturating_add(rules.root(number).fit);
        }
    }
    sum
}

/// The bits of the reports that are allowed at a time: those that were observed, and those of which
/// the window has not passed.
fn allowed(rules: &DrawnRules, case: &Pending, time: u64) -> u32 {
    let mut bits = case.observed;
    for number in 0..4 {
        if case.opened.saturating_add(rules.within(number)) >= time {
            bits |= bit_of(number);
        }
    }
    bits
}

fn observation_of<'a>(rules: &DrawnRules, case: &'a Pending, time: u64) -> Observation<'a> {
    Observation {
        observed: case.observed,
        allowed: allowed(rules, case, time),
        cuts: case.cuts.as_slice(),
    }
}

/// Whether a report joins the case: it was observed, or is pending.
fn takes(rules: &DrawnRules, case: &Pending, time: u64, report: u32) -> bool {
    let pending = search(rules, observation_of(rules, case, time)).pending;
    (case.observed | pending) & bit_of(report) != 0
}

/// The links to a report that a payload breaks: the guarded ones, unless it has b = 1.
fn cuts_of(
    alloc: Global,
    rules: &DrawnRules,
    report: u32,
    payload: Option<u32>,
) -> Result<Vec<Cut>, ScriptFault> {
    let mut cuts = Vec::new(alloc);
    let mut arrow = 0u32;
    for each in rules.arrows.as_slice() {
        if each.guarded & bit_of(report) != 0 && payload != Some(1) {
            cuts.push(Cut { arrow, report })?;
        }
        arrow = arrow.saturating_add(1);
    }
    Ok(cuts)
}

/// Puts those links among others that are not there yet, in order.
fn add_cuts(cuts: &mut Vec<Cut>, more: &[Cut]) -> Result<(), ScriptFault> {
    for cut in more {
        if !cuts.as_slice().contains(cut) {
            cuts.push(*cut)?;
        }
    }
    Ok(())
}

impl Plain {
    /// Nothing has happened yet.
    pub fn new(alloc: Global) -> Plain {
        Plain {
            alloc,
            time: 0,
            next: 0,
            open: Vec::new(alloc),
            solved: Vec::new(alloc),
            moments: Vec::new(alloc),
            fired: 0,
            text: String::new(alloc),
            counts: Counts::new(),
        }
    }

    fn say(&mut self, rules: &DrawnRules, kind: ListKind, said: &Said) -> Result<(), ScriptFault> {
        self.counts.count(place_of(kind));
        put_said(self.alloc, rules, kind, self.time, said, &mut self.text)?;
        Ok(())
    }

    /// The engine notes the time: it fires where enough moments since the last time that it fired
    /// are not longer ago than its time.
    fn note(&mut self, rules: &DrawnRules) -> Result<(), ScriptFault> {
        self.moments.push(self.time)?;
        let since = self.time.saturating_sub(rules.time);
        let near = self
            .moments
            .iter()
            .filter(|moment| **moment >= since)
            .count();
        if near as u64 >= rules.count {
            self.moments.clear();
            self.fired = self.fired.saturating_add(1);
            self.counts.count(5);
        }
        Ok(())
    }

    fn note_each(&mut self, rules: &DrawnRules, upsets: u32) -> Result<(), ScriptFault> {
        for number in FIRST_ROOT..10 {
            if upsets & bit_of(number) != 0 && rules.root(number).notes {
                self.note(rules)?;
            }
        }
        Ok(())
    }

    /// The roots of these bits as suspects. Each has its share of the rates in percent, rounded
    /// down, and the first what is left; upsets have none.
    fn blames(&self, rules: &DrawnRules, bits: u32) -> Result<Vec<Blame>, ScriptFault> {
        let mut blames = Vec::new(self.alloc);
        let sum = rates_of(rules, bits).max(1);
        let mut left = 100u64;
        for number in FIRST_ROOT..10 {
            if bits & bit_of(number) != 0 {
                let share = rules.root(number).fit.saturating_mul(100) / sum;
                left = left.saturating_sub(share);
                blames.push(Blame {
                    root: number,
                    certainty: share,
                    mark: Mark::Present,
                })?;
            }
        }
        if let Some(first) = blames.as_mut_slice().first_mut() {
            first.certainty = first.certainty.saturating_add(left);
        }
        Ok(blames)
    }

    /// Puts what was said of a solved case among the others, by number.
    fn keep(&mut self, said: Said) -> Result<(), ScriptFault> {
        let number = said.number;
        let place = self.solved.partition_point(|other| other.number < number);
        self.solved.insert(place, said)?;
        Ok(())
    }

    /// These faults explain a case.
    fn solve(&mut self, rules: &DrawnRules, case: Pending, faults: u32) -> Result<(), ScriptFault> {
        let suspects = self.blames(rules, faults)?;
        let said = case.said(suspects);
        self.say(rules, ListKind::Suspect, &said)?;
        self.keep(said)
    }

    /// No fault explains a case, and these upsets do, if there are some.
    fn give_up(
        &mut self,
        rules: &DrawnRules,
        case: Pending,
        upsets: u32,
    ) -> Result<(), ScriptFault> {
        let kind = if upsets == 0 {
            ListKind::Undiagnosable
        } else {
            ListKind::Upset
        };
        let suspects = self.blames(rules, upsets)?;
        let said = case.said(suspects);
        self.say(rules, kind, &said)
    }

    /// What a case comes to of which nothing is pending, and which these roots explain.
    fn end(
        &mut self,
        rules: &DrawnRules,
        case: Pending,
        explain: u32,
        notes: bool,
    ) -> Result<(), ScriptFault> {
        let upsets = explain & upsets_of(rules);
        let faults = explain & !upsets;
        if faults != 0 {
            return self.solve(rules, case, faults);
        }
        self.give_up(rules, case, upsets)?;
        if notes {
            self.note_each(rules, upsets)?;
        }
        Ok(())
    }

    /// Decides a case of which nothing is pending, and keeps each other one open.
    fn settle(
        &mut self,
        rules: &DrawnRules,
        case: Pending,
        notes: bool,
    ) -> Result<(), ScriptFault> {
        let found = search(rules, observation_of(rules, &case, self.time));
        if found.pending != 0 {
            self.open.push(case)?;
            return Ok(());
        }
        self.end(rules, case, found.explain, notes)
    }

    fn settle_all(&mut self, rules: &DrawnRules) -> Result<(), ScriptFault> {
        let cases = mem::replace(&mut self.open, Vec::new(self.alloc));
        for case in cases {
            self.settle(rules, case, true)?;
        }
        Ok(())
    }

    /// A new case with a report.
    fn begun(&mut self, report: u32, cuts: &[Cut]) -> Result<Pending, ScriptFault> {
        let number = self.next;
        self.next = number.saturating_add(1);
        Ok(Pending {
            number,
            opened: self.time,
            reports: 1,
            observed: bit_of(report),
            cuts: cuts.to_vec(self.alloc)?,
        })
    }

    /// A report joins a case.
    fn join_case(
        &mut self,
        rules: &DrawnRules,
        case: Pending,
        report: u32,
        cuts: &[Cut],
        notes: bool,
    ) -> Result<(), ScriptFault> {
        let mut case = case;
        case.reports = case.reports.saturating_add(1);
        case.observed |= bit_of(report);
        add_cuts(&mut case.cuts, cuts)?;
        self.settle(rules, case, notes)
    }

    /// A report joins the first case that has it or waits for it; whether there is one.
    fn join_first(
        &mut self,
        rules: &DrawnRules,
        report: u32,
        cuts: &[Cut],
        notes: bool,
    ) -> Result<bool, ScriptFault> {
        let cases = mem::replace(&mut self.open, Vec::new(self.alloc));
        let mut has_joined = false;
        for case in cases {
            if has_joined || !takes(rules, &case, self.time, report) {
                self.open.push(case)?;
            } else {
                has_joined = true;
                self.join_case(rules, case, report, cuts, notes)?;
            }
        }
        Ok(has_joined)
    }

    /// A report joins the first case that has it or waits for it, or opens one.
    fn join(
        &mut self,
        rules: &DrawnRules,
        report: u32,
        payload: Option<u32>,
        notes: bool,
    ) -> Result<(), ScriptFault> {
        let cuts = cuts_of(self.alloc, rules, report, payload)?;
        if !cuts.is_empty() {
            self.counts.count(6);
        }
        if !self.join_first(rules, report, cuts.as_slice(), notes)? {
            let case = self.begun(report, cuts.as_slice())?;
            self.settle(rules, case, notes)?;
        }
        Ok(())
    }

    /// A report of a declared class at a path that the graph does not have.
    fn open_unknown(&mut self, rules: &DrawnRules, report: u32) -> Result<(), ScriptFault> {
        let number = self.next;
        self.next = number.saturating_add(1);
        self.counts.count(1);
        put_unknown(rules, number, self.time, report, &mut self.text)?;
        Ok(())
    }

    /// Marks the present suspects of which a repair speaks, and says so of each case with a mark.
    fn repair(&mut self, rules: &DrawnRules, repair: Repair) -> Result<(), ScriptFault> {
        let before = mem::replace(&mut self.solved, Vec::new(self.alloc));
        for said in before {
            let mut said = said;
            if !repair.mark(&mut said) {
                self.solved.push(said)?;
            } else if said.is_any_present() {
                self.say(rules, ListKind::Updated, &said)?;
                self.solved.push(said)?;
            } else {
                self.say(rules, ListKind::Repaired, &said)?;
            }
        }
        Ok(())
    }

    fn act(&mut self, rules: &DrawnRules, happening: Happening) -> Result<(), ScriptFault> {
        match happening {
            Happening::Report { report, payload } => self.join(rules, report, payload, true),
            Happening::Unknown { report } => self.open_unknown(rules, report),
            Happening::Repair(repair) => self.repair(rules, repair),
            Happening::Undeclared => Ok(()),
            Happening::Tick => Ok(()),
        }
    }

    /// Takes what happens at a moment, part by part.
    pub fn take(
        &mut self,
        rules: &DrawnRules,
        moment: u64,
        happening: Happening,
    ) -> Result<(), ScriptFault> {
        self.time = self.time.max(moment);
        self.fired = 0;
        self.settle_all(rules)?;
        self.act(rules, happening)?;
        for _trip in 0..self.fired {
            self.join(rules, TRIP, None, false)?;
        }
        Ok(())
    }

    /// Puts the open cases, each with its number of reports.
    pub fn put_open(&mut self) -> Result<(), ScriptFault> {
        for case in self.open.as_slice() {
            let number = case.number;
            let reports = case.reports;
            write!(self.text, "; dx0/{number} open {reports}")?;
        }
        Ok(())
    }
}
