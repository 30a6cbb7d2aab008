// The entries of a replay, which two counters take in memory that does not grow with them.
ghost use Rattle.std.specs.Prelude.{◌≡◌, ◌+◌, ◌<◌, ◌^◌, List, [], ◌∷◌, length, slice_get, map};
ghost use Rattle.std.specs.Prelude.{Some, None, OnOk, IfOk, IfErr, string_bytes};
ghost use Rattle.fm_core.specs.Counter.{CounterOf};
ghost use Rattle.fm_core.specs.Hands.{HandOf};
ghost use Rattle.fm_entry.specs.declared.entry.Entry.{Entry};
ghost use Rattle.fm_answers.specs.Draining.{core_book, hand_at, moved_to, IsInOrder, IsNext};
ghost use Rattle.fm_answers.specs.Replaying.{fresh_book, replayed, replay_text, summary_text};
ghost use Rattle.fm_answers.specs.Tallied.{sum_of, sum_with, Tallied, IsTally};

use crate::counts::push_counts;
use crate::stops::Stop;
use crate::takers::Taker;
use fm_core::{Core, Counter, Hand};
use fm_entry::Entry;
use fm_journal::FullKind;
use std::alloc::{AllocError, Global};

/// The most entries that have numbers.
const MAX_ENTRIES: u64 = 1 << 46;

/// How many entries a core takes at the least, before the next one begins.
const TURN_LEN: usize = 1024;

/// Entries that two counters take. Their core is worked to its end from time to time, and the next
/// core begins there, so that memory is taken for the counts, and not for each entry.
#[derive(Drop)]
pub(crate) struct Tally {
    core: Core<Counter>,
    /// How many records earlier cores spoke.
    spoken: u64,
    /// How many entries the core takes yet, before the next one begins.
    room: usize,
}

/// A hand of each of the two counters, at a place.
fn two_hands(
    alloc: Global,
    place: u64,
    first: Counter,
    second: Counter,
) -> Result<Vec<Hand<Counter>>, Stop>
    requires first { first.number ≡ 0 }
    requires second { second.number ≡ 1 }
    ensures ok { IfOk result
        (λ hands. hands.items ≡ hand_at place first ∷ hand_at place second ∷ []) }
    ensures err { IfErr result (λ stop. stop ≡ Stop.Memory) }
{
    let mut hands = Vec::new(alloc);
    hands.push(Hand::new(0, place, first))?;
    hands.push(Hand::new(1, place, second))?;
    Ok(hands)
}

/// A core of two counters that have counted nothing, before any entry.
fn first_core(alloc: Global) -> Result<Core<Counter>, Stop>
    ensures book { IfOk result (λ core. core_book core ≡ fresh_book) }
    ensures ready { IfOk result IsInOrder }
    ensures two { IfOk result (λ core. length core.hands ≡ 2) }
    ensures err { IfErr result (λ stop. stop ≡ Stop.Memory) }
{
    let hands = two_hands(alloc, 0, Counter::new(alloc, 0), Counter::new(alloc, 1))?;
    let kept = two_hands(alloc, 0, Counter::new(alloc, 0), Counter::new(alloc, 1))?;
    Ok(Core::new(alloc, 0, hands, kept)?)
}

/// The hands of a core, as they are after all its entries.
fn last_hands(alloc: Global, core: &Core<Counter>) -> Result<Vec<Hand<Counter>>, Stop>
    requires ready { IsInOrder core.now }
    requires two { length core.now.hands ≡ 2 }
    ensures ok { IfOk result
        (λ hands. hands.items ≡ map (moved_to (core.now.base + length core.now.entries))
        core.now.hands) }
    ensures err { IfErr result (λ stop. stop ≡ Stop.Memory) }
{
    let first = core.hand(0).state().copy(alloc)?;
    let second = core.hand(1).state().copy(alloc)?;
    two_hands(alloc, core.len(), first, second)
}

/// The core that begins where a core has come to its end.
fn next_core(alloc: Global, core: &Core<Counter>) -> Result<Core<Counter>, Stop>
    requires ready { IsInOrder core.now }
    requires two { length core.now.hands ≡ 2 }
    ensures next { IfOk result (IsNext core.now) }
    ensures ready { IfOk result IsInOrder }
    ensures err { IfErr result (λ stop. stop ≡ Stop.Memory) }
{
    let hands = last_hands(alloc, core)?;
    let kept = last_hands(alloc, core)?;
    Ok(Core::new(alloc, core.len(), hands, kept)?)
}

/// The numbers of entries and of records, of which some were spoken before the core, and the counts
/// of the first module.
fn summary(alloc: Global, core: &Core<Counter>, before: u64) -> Result<String, AllocError>
    requires some { 0 < length core.now.hands }
    requires fits { before + length core.now.records < 2 ^ 64 }
    ensures { IfOk result (λ text. (hand : HandOf CounterOf)
        → slice_get core.now.hands 0 ≡ Some hand
        → string_bytes text ≡ summary_text (core.now.base + length core.now.entries)
        (before + length core.now.records) hand.object.counts) }
{
    let entries = core.len();
    let spoken = before + core.spoken().len() as u64;
    let mut text = format!(in alloc; "entries {entries} spoken {spoken}\n")?;
    push_counts(&mut text, core.hand(0).state().counts())?;
    Ok(text)
}

impl Tally {
    /// Two counters, before any entry.
    pub(crate) fn new(alloc: Global) -> Result<Tally, Stop>
        ensures fresh { IfOk result (λ tally. (core_book tally.core ≡ fresh_book)
            × (tally.spoken ≡ 0)) }
        ensures ready { IfOk result IsTally }
        ensures err { IfErr result (λ stop. stop ≡ Stop.Memory) }
    {
        let core = first_core(alloc)?;
        Ok(Tally {
            core,
            spoken: 0,
            room: TURN_LEN,
        })
    }

    /// Works the core to its end, and goes on with the next. The counts are copied then, so a core
    /// takes at least as many entries as there are counts.
    fn turn(&mut self, alloc: Global) -> Result<(), Stop>
        requires { IsTally self.old }
        ensures same { Tallied self.old self.new [] None }
        ensures ready { OnOk result (IsTally self.new) }
        ensures err { IfErr result (λ stop. stop ≡ Stop.Memory) }
    {
        self.core.drain(alloc)?;
        let next = next_core(alloc, &self.core)?;
        self.room = self.core.hand(0).state().counts().len().max(TURN_LEN);
        self.spoken += self.core.spoken().len() as u64;
        self.core = next;
        Ok(())
    }

    /// Goes on with the next core, where this one has taken all that it is to take.
    fn make_room(&mut self, alloc: Global) -> Result<(), Stop>
        requires { IsTally self.old }
        ensures same { Tallied self.old self.new [] None }
        ensures ready { OnOk result (IsTally self.new) }
        ensures err { IfErr result (λ stop. stop ≡ Stop.Memory) }
    {
        if self.room > 0 {
            return Ok(());
        }
        self.turn(alloc)
    }

    /// Works both modules to the end of the entries, and gives what is to be put.
    pub(crate) fn text(&mut self, alloc: Global) -> Result<String, Stop>
        requires ready { IsTally self.old }
        ensures text { IfOk result (λ text. (entries : List Entry)
            → sum_with self.old [] ≡ sum_of 0 (replayed entries)
            → string_bytes text ≡ replay_text entries) }
        ensures err { IfErr result (λ stop. stop ≡ Stop.Memory) }
    {
        self.core.drain(alloc)?;
        Ok(summary(alloc, &self.core, self.spoken)?)
    }
}

impl Taker for Tally {
    ghost use Rattle.std.specs.Prelude.{false};
    ghost use Rattle.fm_answers.specs.Tallied.{Tallied, IsTally, entry_count};
    ghost use Rattle.fm_answers.specs.TallyLaws.{tallied_none, tallied_on, tallied_numbers};

    ghost TELLS_NUMBERS = { false };

    const TELLS_NUMBERS: bool = false;

    ghost went = { λ a b es last. Tallied a b es last };

    ghost ready = { λ a. IsTally a };

    ghost name = { λ a. 0 };

    ghost next = { λ a. entry_count a };

    ghost stays = { λ a. tallied_none a };

    ghost goes_on = { λ a b c es fs last first then. tallied_on a b c es fs last first then };

    ghost numbers = { λ a b es went. tallied_numbers a b es went };

    fn take(&mut self, alloc: Global, entry: Entry) -> Result<u64, Stop> {
        if self.core.len() >= MAX_ENTRIES {
            return Err(Stop::Full(FullKind::Numbers));
        }
        self.make_room(alloc)?;
        let number = self.core.accept(entry)?;
        self.room = self.room.saturating_sub(1);
        Ok(number)
    }
}
