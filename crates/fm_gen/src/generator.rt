//! The generator: what it still has to give.

ghost use Rattle.std.specs.Prelude.{◌≡◌, ◌<◌, ◌≤◌, ◌^◌, ◌++◌, [], length, IsTrue, IfOk, IfSome};
ghost use Rattle.std.specs.Prelude.{IfNone, OnErr, option_to_list, Some, false};
ghost use Rattle.fm_nv.specs.Data.{no_pairs};
ghost use Rattle.fm_entry.specs.Entries.{IsReport, IsSpelled, is_reload};
ghost use Rattle.fm_gen.specs.Generated.{generated, are_ereports, picked};

use crate::draws::TurnDraws;
use fm_bytes::NoMemory;
use fm_entry::Entry;
use fm_name::EventName;
use fm_nv::Nv;
use std::alloc::Global;
use std::marker::Model;

/// How many reports are made.
const TURNS: u32 = 1200;

/// A report comes less than so many nanoseconds after the one before it.
const LONGEST: u64 = 2_000_000_000;

/// So many nanoseconds after the last report comes the tick.
const REST: u64 = 1 << 50;

/// Gives the entries that a number generates, which contracts see as the list of those that it
/// still gives.
#[derive(Drop)]
pub struct Gen {
    alloc: Global,
    reports: Vec<EventName>,
    state: u64,
    moment: u64,
    // how many reports are still to come
    turns: u32,
    // the tick was given
    ended: bool,
}

impl Model for Gen {
    ghost use Rattle.std.specs.Prelude.{◌≤◌, ◌<◌, ◌+◌, ◌*◌, ◌^◌, IsTrue, List, [], length, cond};
    ghost use Rattle.std.specs.Coded.{codes};
    ghost use Rattle.fm_entry.specs.contracts.entry.Entry as entry;
    ghost use Rattle.fm_entry.specs.declared.entry.Entry.{Entry};
    ghost use Rattle.fm_gen.specs.Generated.{entries_from, are_ereports};

    ghost Value = { List Entry };

    ghost coded = { Prim.hlevel (codes, entry.the_row.coded) };

    ghost view = { λ g. cond g.ended [] (entries_from g.reports.items g.turns g.state g.moment) };

    ghost invariant = { λ g. IsTrue (are_ereports g.reports.items)
        × (g.moment + g.turns * 2000000000 < 2 ^ 61 + 1200 * 2000000000)
        × (1 ≤ g.turns → 1 ≤ length g.reports.items) };
}

impl Gen {
    /// The entries that `seed` generates of these reports, of category `ereport`, from the moment
    /// `start` on, which is below 2^61.
    pub fn new(alloc: Global, seed: u64, start: u64, reports: Vec<EventName>) -> Gen
        requires early { start < 2 ^ 61 }
        requires reports { IsTrue (are_ereports reports.items) }
        ensures { result ≡ generated seed start reports.items }
    {
        let turns = if reports.is_empty() { 0 } else { TURNS };
        Gen {
            alloc,
            reports,
            state: seed,
            moment: start,
            turns,
            ended: false,
        }
    }

    /// The next entry; None where the tick was given. After `NoMemory` the same entry is next.
    pub fn next(&mut self) -> Result<Option<Entry>, NoMemory>
        ensures ok { IfOk result (λ entry. self.old ≡ option_to_list entry ++ self.new) }
        ensures end { IfOk result (λ entry. IfNone entry (self.old ≡ [])) }
        ensures spelled { IfOk result (λ entry. IfSome entry IsSpelled) }
        ensures no_reload { IfOk result (λ entry. IfSome entry (λ e. is_reload e ≡ false)) }
        ensures err { OnErr result (self.new ≡ self.old) }
    {
        if self.ended {
            return Ok(None);
        }
        let Some(turns) = self.turns.checked_sub(1) else {
            self.ended = true;
            return Ok(Some(Entry::Tick {
                moment: self.moment + REST,
            }));
        };
        let draws = TurnDraws::from_state(self.state);
        let moment = self.moment + draws.delay % LONGEST;
        let event = pick(&self.reports, draws.event)?;
        let EventName { class, path } = event;
        self.state = draws.state;
        self.moment = moment;
        self.turns = turns;
        Ok(Some(Entry::Report {
            class,
            path,
            moment,
            payload: Nv::new(self.alloc),
        }))
    }
}

/// The event that a number picks.
fn pick(reports: &[EventName], number: u64) -> Result<EventName, NoMemory>
    requires some { 1 ≤ length reports.now }
    requires reports { IsTrue (are_ereports reports.now) }
    ensures picked { IfOk result (λ event. picked reports.now number ≡ Some event) }
    ensures report { IfOk result (λ event. IsReport event.class event.path no_pairs) }
{
    let event = &reports[(number % reports.len() as u64) as usize];
    // for the proof alone: that both texts are in their grammars
    let _class = event.class.text();
    let _path = event.path.text();
    event.copy()
}
