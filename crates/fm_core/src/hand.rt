// A hand: an object of a module with the place that it has come to.
ghost use Rattle.std.specs.Prelude.{◌≡◌, ◌<◌, ◌^◌, All, IfOk, IfErr, OnOk, OnErr};
ghost use Rattle.fm_entry.specs.Entries.{IsSpelled};
ghost use Rattle.fm_entry.specs.Words.{IsWordOf};
ghost use Rattle.fm_core.specs.Hands.{shown, stepped, spoken_at};

use crate::module::Module;
use fm_bytes::NoMemory;
use fm_entry::{Entry, ListEvents, Spoken};
use std::alloc::Global;
use std::marker::Model;

/// An object of a module, with the number of the module and of the next entry that it takes.
#[derive(Drop)]
pub struct Hand<M> {
    module: u32,
    cursor: u64,
    object: M,
}

impl<M> Model for Hand<M> {
    ghost use Rattle.fm_core.specs.Hands.{HandOf, hand_code};

    ghost Value = { HandOf M };

    ghost coded = { hand_code M.code };

    ghost view = { λ h. record { number = h.module; cursor = h.cursor; object = h.object } };
}

impl<M: Module> Hand<M> {
    /// A hand of the module with this number, whose next entry has the number `cursor`.
    pub fn new(module: u32, cursor: u64, state: M) -> Hand<M>
        requires { (M.meaning state).own ≡ «module» }
        ensures { result ≡ record { number = «module»; cursor = cursor; object = state } }
    {
        Hand {
            module,
            cursor,
            object: state,
        }
    }

    /// Takes the entry at its cursor, and answers itself one entry further and the words that it
    /// said, which may be none. After want of memory it comes back as it was.
    pub fn step(
        self,
        alloc: Global,
        entry: &Entry,
    ) -> Result<(Hand<M>, Spoken), (Hand<M>, NoMemory)>
        requires number { self.cursor < 2 ^ 46 }
        requires spelled { IsSpelled entry.now }
        ensures hand { IfOk result (λ (hand, _).
            shown M.Module hand ≡ stepped (shown M.Module self) entry.now) }
        ensures words { IfOk result (λ (_, spoken).
            spoken ≡ spoken_at (shown M.Module self) entry.now) }
        ensures events { IfOk result (λ (_, spoken).
            All (IsWordOf (M.meaning self.object).own) spoken.events) }
        ensures err { IfErr result (λ (hand, _). shown M.Module hand ≡ shown M.Module self) }
    {
        let mut hand = self;
        match hand.advance(alloc, entry) {
            Ok(spoken) => Ok((hand, spoken)),
            Err(error) => Err((hand, error)),
        }
    }

    /// The number of the next entry that it takes.
    pub fn cursor(&self) -> u64
        ensures { result ≡ self.now.cursor }
    {
        self.cursor
    }

    /// The number of its module.
    pub fn module(&self) -> u32
        ensures { result ≡ self.now.number }
    {
        self.module
    }

    /// The object, in the state after the entries below the cursor.
    pub fn state(&self) -> &M
        ensures { result.now ≡ self.now.object }
    {
        &self.object
    }

    // the step in place
    pub(crate) fn advance(&mut self, alloc: Global, entry: &Entry) -> Result<Spoken, NoMemory>
        requires number { self.old.cursor < 2 ^ 46 }
        requires spelled { IsSpelled entry.now }
        ensures hand { OnOk result (
            shown M.Module self.new ≡ stepped (shown M.Module self.old) entry.now) }
        ensures words { IfOk result (λ spoken.
            spoken ≡ spoken_at (shown M.Module self.old) entry.now) }
        ensures events { IfOk result (λ spoken.
            All (IsWordOf (M.meaning self.old.object).own) spoken.events) }
        ensures err { OnErr result (shown M.Module self.new ≡ shown M.Module self.old) }
    {
        let number = self.cursor;
        let words = self.object.step(alloc, number, entry)?;
        self.cursor = number + 1;
        Ok(Spoken {
            module: self.module,
            number,
            events: ListEvents::new(words),
        })
    }
}
