// A core: entries in memory, and modules that take them in whatever order.
ghost use Rattle.std.specs.Prelude.{◌≡◌, ◌+◌, ◌-◌, ◌<◌, ◌≤◌, ◌^◌, [], ◌∷◌, ◌++◌, map, length};
ghost use Rattle.std.specs.Prelude.{slice_get, slice_set, vec_len, vec_capacity, Some};
ghost use Rattle.std.specs.Prelude.{IsTrue, IfOk, OnOk, OnErr};
ghost use Rattle.std.specs.Option.{ForSome};
ghost use Rattle.fm_entry.specs.Entries.{IsSpelled};
ghost use Rattle.fm_core.specs.Hands.{shown, stepped, spoken_at};
ghost use Rattle.fm_core.specs.Book.{IsAdmitted, accepted, worked, fallen, is_done};
ghost use Rattle.fm_core.specs.Seen.{AreFew, seen, stands_for, modules_now, MayFall, IsCore};
ghost use Rattle.fm_core.specs.Seen.{AreFresh, OnlyWorked, HasComeTo, HavePassed, ComeOn};
ghost use Rattle.fm_core.specs.Drained.{drained};
ghost use Rattle.fm_core.specs.Outcome.{outcome, after_step, kept_record};

use crate::hand::Hand;
use crate::module::Module;
use crate::worked::Worked;
use fm_bytes::NoMemory;
use fm_entry::{Entry, Spoken};
use std::alloc::Global;
use std::marker::Model;
use std::mem;

/// Entries in memory, and the modules that take them, each at its own place.
#[derive(Drop)]
pub struct Core<M> {
    base: u64,
    kept: Vec<Hand<M>>,
    entries: Vec<Entry>,
    hands: Vec<Hand<M>>,
    records: Vec<Spoken>,
}

impl<M> Model for Core<M> {
    ghost use Rattle.fm_core.specs.Seen.{CoreOf, AreFew};

    ghost Value = { CoreOf M };

    ghost use Rattle.std.specs.Coded.{codes};
    ghost use Rattle.fm_entry.specs.contracts.entry.Entry as entry_row;
    ghost use Rattle.fm_core.specs.Hands.{hand_code};

    ghost coded = { Prim.hlevel (codes, entry_row.the_row.coded, hand_code M.code) };

    ghost view = { λ c. record {
      base = c.base;
      kept = c.kept.items;
      entries = c.entries.items;
      hands = c.hands.items;
      records = c.records.items;
    } };

    ghost invariant = { λ c. AreFew c.base c.entries.items };
}

impl<M: Module> Core<M> {
    /// A core without entries, of these hands.
    pub fn new(
        alloc: Global,
        base: u64,
        hands: Vec<Hand<M>>,
        kept: Vec<Hand<M>>,
    ) -> Result<Core<M>, NoMemory>
        requires fresh { AreFresh base (map (shown M.Module) hands.items) }
        requires equal { map (shown M.Module) hands.items ≡ map (shown M.Module) kept.items }
        ensures made { IfOk result (λ core. core ≡ record {
          base = base;
          kept = kept.items;
          entries = [];
          hands = hands.items;
          records = [];
        }) }
        ensures lawful { IfOk result (λ core. IsCore (seen M.Module core)) }
    {
        Ok(Core {
            base,
            kept,
            entries: Vec::new(alloc),
            hands,
            records: Vec::new(alloc),
        })
    }

    /// Takes the entry in, and answers its number.
    pub fn accept(&mut self, entry: Entry) -> Result<u64, NoMemory>
        requires admitted { IsAdmitted entry }
        requires fits { self.old.base + length self.old.entries < 2 ^ 46 }
        requires lawful { IsCore (seen M.Module self.old) }
        ensures number { IfOk result (λ number. number ≡ self.old.base + length self.old.entries) }
        ensures accepted { OnOk result (
            stands_for M.Module self.new ≡ accepted (stands_for M.Module self.old) entry) }
        ensures ok { OnOk result (
            self.new ≡ record self.old { entries = self.old.entries ++ entry ∷ [] }) }
        ensures lawful { IsCore (seen M.Module self.new) }
        ensures err { OnErr result (self.new ≡ self.old) }
    {
        let number = self.base + self.entries.len() as u64;
        self.entries.push(entry)?;
        Ok(number)
    }

    /// The number of entries ever: those before the core, and those that it accepted.
    pub fn len(&self) -> u64
        ensures { result ≡ self.now.base + length self.now.entries }
    {
        self.base + self.entries.len() as u64
    }

    /// What was spoken, in the order in which it was spoken.
    pub fn spoken(&self) -> &[Spoken]
        ensures { result.now ≡ self.now.records }
    {
        self.records.as_slice()
    }

    /// The entries that it accepted.
    pub fn entries(&self) -> &[Entry]
        ensures entries { result.now ≡ self.now.entries }
        ensures few { AreFew self.now.base result.now }
    {
        self.entries.as_slice()
    }

    /// The hand of a module.
    pub fn hand(&self, module: u32) -> &Hand<M>
        requires { «module» < length self.now.hands }
        ensures { slice_get self.now.hands «module» ≡ Some result.now }
    {
        &self.hands[module as usize]
    }

    /// Puts the hand, which may have taken fewer entries, in place of the module's own, and gives
    /// that back. What it has not taken is behind all that the module spoke.
    pub fn fall(&mut self, module: u32, hand: Hand<M>) -> Hand<M>
        requires known { «module» < length self.old.hands }
        requires lawful { IsCore (seen M.Module self.old) }
        requires may { MayFall (seen M.Module self.old) «module» (shown M.Module hand) }
        ensures fallen { stands_for M.Module self.new
            ≡ fallen (stands_for M.Module self.old) «module» hand.cursor }
        ensures put { self.new
            ≡ record self.old { hands = slice_set self.old.hands «module» hand } }
        ensures back { slice_get self.old.hands «module» ≡ Some result }
        ensures lawful { IsCore (seen M.Module self.new) }
    {
        let own = &mut self.hands[module as usize];
        mem::replace(own, hand)
    }

    /// Lets the module take its next entry. After want of memory nothing has changed.
    pub fn work(&mut self, alloc: Global, module: u32) -> Result<Worked, NoMemory>
        requires known { «module» < length self.old.hands }
        requires lawful { IsCore (seen M.Module self.old) }
        ensures answer { IfOk result (λ answer.
            answer ≡ outcome (stands_for M.Module self.old) «module») }
        ensures worked { OnOk result (
            stands_for M.Module self.new ≡ worked (stands_for M.Module self.old) «module») }
        ensures lawful { IsCore (seen M.Module self.new) }
        ensures modules { length self.new.hands ≡ length self.old.hands }
        ensures only { OnlyWorked (seen M.Module self.old) (seen M.Module self.new) }
        ensures err { OnErr result (seen M.Module self.new ≡ seen M.Module self.old) }
    {
        self.work_at(alloc, module as usize)
    }

    /// Lets every module take every entry that it has not taken: its state and its records are then
    /// those of the drained book. After want of memory some of them may have taken only some.
    pub fn drain(&mut self, alloc: Global) -> Result<(), NoMemory>
        requires { IsCore (seen M.Module self.old) }
        ensures worked { OnlyWorked (seen M.Module self.old) (seen M.Module self.new) }
        ensures done { OnOk result (IsTrue (is_done (stands_for M.Module self.new))) }
        ensures modules { OnOk result (modules_now (seen M.Module self.new)
            ≡ (drained (stands_for M.Module self.old)).modules) }
    {
        let first = self.least_place();
        'turns: for _turn in first..self.entries.len() {
            self.work_each(alloc)?;
        }
        Ok(())
    }

    // lets each module take its next entry, so that an entry is in the processor's cache for them
    // all
    fn work_each(&mut self, alloc: Global) -> Result<(), NoMemory>
        requires { IsCore (seen M.Module self.old) }
        ensures worked { OnlyWorked (seen M.Module self.old) (seen M.Module self.new) }
        ensures on { OnOk result (ComeOn (seen M.Module self.old) (seen M.Module self.new)) }
    {
        'modules: for at in 0..self.hands.len() {
            self.work_at(alloc, at)?;
        }
        Ok(())
    }

    // the place, among the entries, before which each module has taken all
    fn least_place(&self) -> usize
        requires { IsCore (seen M.Module self.now) }
        ensures { HavePassed (seen M.Module self.now) result }
    {
        let mut least = self.entries.len();
        'modules: for at in 0..self.hands.len() {
            least = least.min(self.next_place(at));
        }
        least
    }

    // lets the module at a place take its next entry
    fn work_at(&mut self, alloc: Global, at: usize) -> Result<Worked, NoMemory>
        requires inside { at < length self.old.hands }
        requires lawful { IsCore (seen M.Module self.old) }
        ensures answer { IfOk result (λ answer.
            answer ≡ outcome (stands_for M.Module self.old) at) }
        ensures worked { OnOk result (
            stands_for M.Module self.new ≡ worked (stands_for M.Module self.old) at) }
        ensures lawful { IsCore (seen M.Module self.new) }
        ensures modules { length self.new.hands ≡ length self.old.hands }
        ensures err { OnErr result (seen M.Module self.new ≡ seen M.Module self.old) }
    {
        let place = self.next_place(at);
        if place >= self.entries.len() {
            return Ok(Worked::Idle);
        }
        self.records.reserve(1)?;
        let spoken = advance_at(&mut self.hands, at, alloc, &self.entries[place])?;
        Ok(settle(&mut self.records, spoken))
    }

    // the place, among the entries, of the next one that the module at a place takes
    fn next_place(&self, at: usize) -> usize
        requires inside { at < length self.now.hands }
        requires lawful { IsCore (seen M.Module self.now) }
        ensures hand { ForSome (slice_get self.now.hands at) (λ hand.
            (self.now.base ≤ hand.cursor) × (result ≡ hand.cursor - self.now.base)) }
        ensures cursor { HasComeTo (seen M.Module self.now) at (self.now.base + result) }
    {
        let hand = &self.hands[at];
        (hand.cursor() - self.base) as usize
    }
}

// one step of the hand at a place
fn advance_at<M: Module>(
    hands: &mut Vec<Hand<M>>,
    at: usize,
    alloc: Global,
    entry: &Entry,
) -> Result<Spoken, NoMemory>
    requires inside { at < length hands.old.items }
    requires number { ForSome (slice_get hands.old.items at) (λ hand. hand.cursor < 2 ^ 46) }
    requires spelled { IsSpelled entry.now }
    ensures hand { OnOk result (ForSome (slice_get hands.old.items at) (λ hand.
        map (shown M.Module) hands.new.items
        ≡ slice_set (map (shown M.Module) hands.old.items) at
        (stepped (shown M.Module hand) entry.now))) }
    ensures words { IfOk result (λ spoken. ForSome (slice_get hands.old.items at) (λ hand.
        spoken ≡ spoken_at (shown M.Module hand) entry.now)) }
    ensures many { length hands.new.items ≡ length hands.old.items }
    ensures err { OnErr result (
        map (shown M.Module) hands.new.items ≡ map (shown M.Module) hands.old.items) }
{
    let hand = &mut hands[at];
    hand.advance(alloc, entry)
}

// keeps what was spoken, for which there is room, unless nothing was
fn settle(records: &mut Vec<Spoken>, spoken: Spoken) -> Worked
    requires { vec_len records.old < vec_capacity records.old }
    ensures answer { result ≡ after_step spoken.events }
    ensures records { records.new.items ≡ records.old.items ++ kept_record spoken }
{
    if spoken.events.as_slice().is_empty() {
        return Worked::Silent;
    }
    records.push_reserved(spoken);
    Worked::Spoke
}
