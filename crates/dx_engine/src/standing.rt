//! Standing states.

ghost use Rattle.std.specs.Prelude.{◌≡◌, ◌<◌, ◌^◌, IfOk, OnOk, OnErr, IsTrue};
ghost use Rattle.fm_entry.specs.Entries.{IsSpelled};
ghost use Rattle.dx_rules.specs.Rulebooks.{rules_in};
ghost use Rattle.dx_state.specs.Configured.{Rules, found_at};
ghost use Rattle.dx_step.specs.Lawful.{is_there};
ghost use Rattle.dx_step.specs.Step.{state_after, words_at};
ghost use Rattle.dx_engine.specs.Standing.{kept_parts, state_of, AreStanding, IsStanding};
ghost use Rattle.dx_engine.specs.Standing.{IsGroundOf};

use dx_case::Starts;
use dx_rules::Rulebook;
use dx_serd::Engine;
use dx_turn::{Ground, Told, Tracked, Work, turn};
use ev_graph::NoMemory;
use fm_entry::{Entry, ListEvent};
use std::alloc::Global;
use std::mem;

/// The state of a diagnosis module between two entries.
#[derive(Drop)]
pub struct StandingState {
    pub(crate) conf: u32,
    pub(crate) time: u64,
    pub(crate) next: u64,
    pub(crate) cases: Vec<Tracked>,
    /// What was found for nodes that opened cases since the configuration came into force.
    pub(crate) starts: Starts,
    pub(crate) solved: Vec<ListEvent>,
    pub(crate) engines: Vec<Engine>,
}

impl StandingState {
    /// What a turn at a time stands on.
    fn ground<'a>(&'a self, alloc: Global, rules: &'a Rulebook, time: u64) -> Ground<'a>
        requires { IsTrue (is_there (found_at (rules_in rules.now).configurations self.now.conf)) }
        ensures { IsGroundOf rules.now (kept_parts self.now) time result }
    {
        Ground {
            alloc,
            rules,
            conf: self.conf,
            graph: rules.graph(self.conf),
            time,
            engines: self.engines.as_slice(),
            last_words: self.solved.as_slice(),
        }
    }

    /// Takes the entry of a number, and answers the words that are said at it. After want of memory
    /// the state is as it was.
    pub fn turn(
        &mut self,
        alloc: Global,
        rules: &Rulebook,
        number: u64,
        entry: &Entry,
    ) -> Result<Vec<ListEvent>, NoMemory>
        requires standing { IsStanding (rules_in rules.now) self.old }
        requires number { number < 2 ^ 46 }
        requires spelled { IsSpelled entry.now }
        ensures says { IfOk result (λ words. words.items
            ≡ words_at (rules_in rules.now) (state_of self.old) number entry.now) }
        ensures after { OnOk result (state_of self.new
            ≡ state_after (rules_in rules.now) (state_of self.old) number entry.now) }
        ensures standing { IsStanding (rules_in rules.now) self.new }
        ensures err { OnErr result (kept_parts self.new ≡ kept_parts self.old) }
    {
        let time = self.time.max(entry.moment());
        let cases = mem::replace(&mut self.cases, Vec::new(alloc));
        let starts = mem::replace(&mut self.starts, Starts::new(alloc));
        let mut work = Work {
            cases,
            starts,
            next: self.next,
            told: Told::new(alloc),
        };
        let ground = self.ground(alloc, rules, time);
        match turn(&ground, &mut work, number, entry) {
            Ok(reloaded) => self.put(work, time, reloaded),
            Err(fault) => {
                self.put_back(work.cases, work.starts);
                Err(fault)
            }
        }
    }

    /// The state of these parts, which stands wherever they do.
    pub fn of_parts(
        conf: u32,
        time: u64,
        next: u64,
        cases: Vec<Tracked>,
        solved: Vec<ListEvent>,
        engines: Vec<Engine>,
    ) -> StandingState
        ensures parts { kept_parts result ≡ record {
          conf = conf;
          time = time;
          next = next;
          cases = cases.items;
          solved = solved.items;
          engines = engines.items;
        } }
        ensures stands { (r : Rules) → AreStanding r (kept_parts result) → IsStanding r result }
    {
        let alloc = *cases.allocator();
        StandingState {
            conf,
            time,
            next,
            cases,
            starts: Starts::new(alloc),
            solved,
            engines,
        }
    }

    /// The open cases, in order of number.
    pub fn cases(&self) -> &[Tracked]
        ensures { result.now ≡ (kept_parts self.now).cases }
    {
        self.cases.as_slice()
    }

    /// The engines, in event order.
    pub fn engines(&self) -> &[Engine]
        ensures { result.now ≡ (kept_parts self.now).engines }
    {
        self.engines.as_slice()
    }

    /// The number of the configuration in force.
    pub fn conf(&self) -> u32
        ensures { result ≡ (state_of self.now).conf }
    {
        self.conf
    }

    /// The time: the greatest moment of an entry so far.
    pub fn time(&self) -> u64
        ensures { result ≡ (state_of self.now).time }
    {
        self.time
    }

    /// The number of the next case.
    pub fn next(&self) -> u64
        ensures { result ≡ (state_of self.now).next }
    {
        self.next
    }

    /// The last word of each solved case, in order of number.
    pub fn solved(&self) -> &[ListEvent]
        ensures { result.now ≡ (state_of self.now).solved }
    {
        self.solved.as_slice()
    }
}
