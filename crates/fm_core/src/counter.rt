ghost use Rattle.std.specs.Prelude.{◌≡◌, ◌<◌, ◌^◌, [], All, IsTrue, IfOk, OnOk, OnErr};
ghost use Rattle.fm_name.specs.Path.{is_path};
ghost use Rattle.fm_entry.specs.Words.{IsWordOf};
ghost use Rattle.fm_name.specs.Category.{is_ereport};
ghost use Rattle.fm_core.specs.Counts.{are_counts, report_words, report_counts};

use crate::class_count::ClassCount;
use crate::counting::{copied, count_at, count_in, find_class, third_word};
use crate::module::{LoadFault, Module};
use crate::saving::{MOST, cases, counted_total, put_counts, read_counts};
use crate::trail::Trail;
use fm_bytes::NoMemory;
use fm_entry::{CaseName, Entry, ListEvent};
use fm_name::{Class, Fmri};
use std::alloc::Global;
use std::marker::Model;

/// A small module that counts reports by class, and says an upset at every third report of one
/// class.
///
/// It counts no more than 2^46 reports in all.
#[derive(Drop)]
pub struct Counter {
    number: u32,
    counts: Vec<ClassCount>,
    total: u64,
    cases: u64,
    trail: Trail,
}

impl Model for Counter {
    ghost use Rattle.std.specs.Prelude.{◌≡◌, IsTrue};
    ghost use Rattle.fm_core.specs.Counter.{CounterOf};
    ghost use Rattle.fm_core.specs.Counts.{are_counts, total_of, cases_of};

    ghost Value = { CounterOf };

    ghost view = { λ c. record { number = c.number; counts = c.counts.items } };

    ghost invariant = { λ c. IsTrue (are_counts c.counts.items)
        × (c.total ≡ total_of c.counts.items) × (c.cases ≡ cases_of c.counts.items) };
}

impl Counter {
    /// A counter that has counted nothing, for the module with this number.
    pub fn new(alloc: Global, module: u32) -> Counter
        ensures { result ≡ record { number = «module»; counts = [] } }
    {
        Counter {
            number: module,
            counts: Vec::new(alloc),
            total: 0,
            cases: 0,
            trail: Trail::new(),
        }
    }

    /// An equal counter.
    pub fn copy(&self, alloc: Global) -> Result<Counter, NoMemory>
        ensures { IfOk result (λ counter. counter ≡ self.now) }
    {
        let counts = copied(alloc, &self.counts)?;
        Ok(Counter {
            number: self.number,
            counts,
            total: self.total,
            cases: self.cases,
            trail: self.trail,
        })
    }

    /// The counts, in byte order of classes.
    pub fn counts(&self) -> &[ClassCount]
        ensures counts { result.now ≡ self.now.counts }
        ensures lawful { IsTrue (are_counts self.now.counts) }
    {
        self.counts.as_slice()
    }

    // takes these counts in place of its own
    fn put(&mut self, counts: Vec<ClassCount>)
        requires { IsTrue (are_counts counts.items) }
        ensures { self.new ≡ record self.old { counts = counts.items } }
    {
        let cases = cases(&counts);
        let total = counted_total(&counts);
        self.counts = counts;
        self.total = total;
        self.cases = cases;
    }

    // takes a report of a class of category `ereport`
    fn report(
        &mut self,
        alloc: Global,
        class: &Class,
        path: &Fmri,
        moment: u64,
    ) -> Result<Vec<ListEvent>, NoMemory>
        requires ereport { IsTrue (is_ereport class.now) }
        requires path { IsTrue (is_path path.now) }
        requires moment { moment < 2 ^ 62 }
        ensures says { IfOk result
            (λ words. words.items ≡ report_words self.old.number self.old.counts class.now path.now
            moment) }
        ensures events { IfOk result (λ words. All (IsWordOf self.old.number) words.items) }
        ensures after { OnOk result
            (self.new ≡ record self.old { counts = report_counts self.old.counts class.now }) }
        ensures err { OnErr result (self.new ≡ self.old) }
    {
        if self.total >= MOST {
            return Ok(Vec::new(alloc));
        }
        let place = find_class(&self.counts, self.trail.guess(), class);
        let before = count_at(&self.counts, place);
        let case = CaseName {
            module: self.number,
            case: self.cases,
        };
        let words = third_word(alloc, case, before + 1, class, path, moment)?;
        count_in(&mut self.counts, place, class)?;
        self.trail.follow(place.unwrap_or_else(|at| at));
        self.total += 1;
        self.cases += (before + 1) / 3 - before / 3;
        Ok(words)
    }
}

impl Module for Counter {
    ghost use Rattle.fm_core.specs.Meaning.{Counting};
    ghost use Rattle.fm_core.specs.Counter.{counter_meaning};

    ghost meaning = { λ c. counter_meaning c.number };

    ghost state = { λ c. Counting c.counts };

    fn subscribes(&self, class: &Class) -> bool {
        let _ = class;
        true
    }

    fn conf(&self) -> Option<u32> {
        None
    }

    fn step(
        &mut self,
        alloc: Global,
        number: u64,
        entry: &Entry,
    ) -> Result<Vec<ListEvent>, NoMemory> {
        let _number = number;
        match entry {
            Entry::Report {
                class,
                path,
                moment,
                ..
            } => self.report(alloc, class, path, *moment),
            Entry::Tick { .. } => Ok(Vec::new(alloc)),
            Entry::Repaired { .. } => Ok(Vec::new(alloc)),
            Entry::Replaced { .. } => Ok(Vec::new(alloc)),
            Entry::Acquit { .. } => Ok(Vec::new(alloc)),
            Entry::Reload { .. } => Ok(Vec::new(alloc)),
        }
    }

    fn save(&self, out: &mut Vec<u8>) -> Result<(), NoMemory> {
        let mut bytes = Vec::new(*out.allocator());
        put_counts(&self.counts, &mut bytes)?;
        out.extend_from_slice(&bytes)?;
        Ok(())
    }

    fn load(&mut self, alloc: Global, bytes: &[u8]) -> Result<(), LoadFault> {
        let _own = self.counts();
        let counts = read_counts(alloc, bytes)?;
        self.put(counts);
        Ok(())
    }
}
