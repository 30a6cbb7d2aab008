//! What a turn has come to, put in place or undone.

ghost use Rattle.std.specs.Prelude.{◌≡◌, IfOk, OnOk, OnErr, IsTrue};
ghost use Rattle.ev_incidence.specs.Sets.{ascends};
ghost use Rattle.dx_said.specs.Making.{with_words};
ghost use Rattle.dx_state.specs.LawfulState.{solved_numbers};
ghost use Rattle.dx_turn.specs.Turning.{made_or};
ghost use Rattle.dx_engine.specs.Standing.{kept_parts, put_parts, undone_parts, with_engines};

use crate::standing::StandingState;
use dx_case::Starts;
use dx_said::put_words;
use dx_serd::Engine;
use dx_turn::{Reloaded, Told, Tracked, Work, end_turn, undo_turn};
use ev_graph::NoMemory;
use fm_bytes::Items;
use fm_entry::{ListEvent, ListEvents};

/// Puts the words that solve cases among the last words of others, as marks left them where some
/// suspect got one. Without memory for it they stay as they were.
fn put_solved(
    solved: &mut Vec<ListEvent>,
    marked: Option<ListEvents>,
    more: ListEvents,
) -> Result<(), NoMemory>
    requires { IsTrue (ascends (solved_numbers (made_or marked solved.old.items))) }
    ensures ok { OnOk result
        (solved.new.items ≡ with_words more (made_or marked solved.old.items)) }
    ensures err { OnErr result (solved.new.items ≡ solved.old.items) }
{
    match marked {
        Some(words) => {
            let mut words = words.into_vec();
            put_words(&mut words, more)?;
            *solved = words;
            Ok(())
        }
        None => put_words(solved, more),
    }
}

impl StandingState {
    /// Undoes a turn: the open cases are again those from before it. What was found for nodes stays
    /// found.
    pub(crate) fn put_back(&mut self, cases: Vec<Tracked>, starts: Starts)
        ensures parts { kept_parts self.new ≡ undone_parts (kept_parts self.old) cases.items }
        ensures starts { self.new.starts ≡ starts }
    {
        let mut cases = cases;
        undo_turn(&mut cases);
        self.cases = cases;
        self.starts = starts;
    }

    /// Puts the engines in place that noted something, or those of another configuration.
    fn put_engines(&mut self, engines: Option<Items<Engine>>, reloaded: Option<Reloaded>)
        ensures parts { kept_parts self.new ≡ with_engines (kept_parts self.old) engines reloaded }
        ensures starts { self.new.starts ≡ self.old.starts }
    {
        match reloaded {
            Some(reloaded) => {
                self.conf = reloaded.conf;
                self.engines = reloaded.engines;
            }
            None => {
                if let Some(engines) = engines {
                    self.engines = engines.into_vec();
                }
            }
        }
    }

    /// Puts in place what a turn at a time has come to, and answers the words that were said.
    /// Without memory for it the open cases are again those from before the turn, and all else is
    /// as it was.
    pub(crate) fn put(
        &mut self,
        work: Work,
        time: u64,
        reloaded: Option<Reloaded>,
    ) -> Result<Vec<ListEvent>, NoMemory>
        requires { IsTrue
            (ascends (solved_numbers (made_or work.told.marked self.old.solved.items))) }
        ensures parts { OnOk result
            (kept_parts self.new ≡ put_parts (kept_parts self.old) time work reloaded) }
        ensures words { IfOk result (λ words. words.items ≡ work.told.words) }
        ensures err { OnErr result
            (kept_parts self.new ≡ undone_parts (kept_parts self.old) work.cases.items) }
        ensures starts { self.new.starts ≡ work.starts }
    {
        let Work {
            cases,
            starts,
            next,
            told,
        } = work;
        let Told {
            marked,
            solved,
            engines,
            words,
            fired: _,
        } = told;
        match put_solved(&mut self.solved, marked, solved) {
            Ok(()) => {
                let mut cases = cases;
                end_turn(&mut cases);
                self.cases = cases;
                self.starts = starts;
                self.next = next;
                self.time = time;
                self.put_engines(engines, reloaded);
                Ok(words.into_vec())
            }
            Err(fault) => {
                self.put_back(cases, starts);
                Err(fault)
            }
        }
    }
}
