// What a module is: the calls that each kind of module has, and what they promise.
ghost use Rattle.std.specs.Prelude.{◌≡◌, ◌<◌, ◌^◌, ◌++◌, All, IfOk, OnOk, OnErr, IsTrue};
ghost use Rattle.fm_entry.specs.Entries.{IsSpelled};
ghost use Rattle.fm_entry.specs.Words.{IsWordOf};
ghost use Rattle.fm_core.specs.declared.module.LoadFault.TheVariants.{NoMemory as OutOfMemory};
ghost use Rattle.fm_core.specs.Faults.{load_fault};
ghost use Rattle.fm_core.specs.Meaning.{Meaning, State, IsNoSave};
ghost use Rattle.fm_core.specs.Meaning.{conf_of, takes_of, after_of, says_of, saved_of, holds_of};

use fm_bytes::{NoMemory, ReadFault};
use fm_entry::{Entry, ListEvent};
use fm_name::Class;
use std::alloc::{AllocError, AllocFailed, Global};

/// Why a state could not be loaded.
#[derive(Clone, Copy, PartialEq, Eq, Debug)]
pub enum LoadFault {
    /// The bytes are the save of no state of the module.
    Bad,
    /// Want of memory.
    NoMemory,
}

impl From<AllocError> for LoadFault {
    ghost from_gives = { λ _ fault. fault ≡ OutOfMemory };

    fn from(_error: AllocError) -> LoadFault {
        LoadFault::NoMemory
    }
}

impl<T: Drop> From<AllocFailed<T>> for LoadFault {
    ghost from_gives = { λ _ fault. fault ≡ OutOfMemory };

    fn from(_failed: AllocFailed<T>) -> LoadFault {
        LoadFault::NoMemory
    }
}

impl From<NoMemory> for LoadFault {
    ghost from_gives = { λ _ fault. fault ≡ OutOfMemory };

    fn from(_error: NoMemory) -> LoadFault {
        LoadFault::NoMemory
    }
}

impl From<ReadFault> for LoadFault {
    ghost from_gives = { λ read fault. fault ≡ load_fault read };

    fn from(fault: ReadFault) -> LoadFault {
        match fault {
            ReadFault::NoSpelling => LoadFault::Bad,
            ReadFault::NoMemory => LoadFault::NoMemory,
        }
    }
}

/// One diagnosis module: a state that takes every entry once, in order of number, and says words
/// about cases.
///
/// Contracts see an object by two ghost members. `meaning` is what it was made with and never
/// changes: its own number, how many configurations it knows, what it subscribes to, and its steps,
/// words and saves as functions of states. `state` is the state that it has now. Two objects are
/// made alike where their meanings are equal.
pub trait Module: Send + Drop {
    ghost meaning: { Self → Meaning };

    ghost state: { Self → State };

    /// Whether a report of the class does more than pass the time.
    fn subscribes(&self, class: &Class) -> bool
        ensures { result ≡ takes_of (meaning self.now) (state self.now) class.now };

    /// The number of the configuration of its state, if it has one.
    fn conf(&self) -> Option<u32>
        ensures { result ≡ conf_of (meaning self.now) (state self.now) };

    /// Takes the entry with this number, and answers the words that it says at it. After want of
    /// memory its state is as it was.
    fn step(
        &mut self,
        alloc: Global,
        number: u64,
        entry: &Entry,
    ) -> Result<Vec<ListEvent>, NoMemory>
        requires number { number < 2 ^ 46 }
        requires spelled { IsSpelled entry.now }
        ensures says { IfOk result (λ words.
            words.items ≡ says_of (meaning self.old) (state self.old) number entry.now) }
        ensures after { OnOk result (
            state self.new ≡ after_of (meaning self.old) (state self.old) number entry.now) }
        ensures events { IfOk result (λ words. All (IsWordOf (meaning self.old).own) words.items) }
        ensures err { OnErr result (state self.new ≡ state self.old) }
        ensures kept { meaning self.new ≡ meaning self.old };

    /// Appends the bytes that the state is kept as.
    fn save(&self, out: &mut Vec<u8>) -> Result<(), NoMemory>
        ensures ok { OnOk result (
            out.new.items ≡ out.old.items ++ saved_of (meaning self.now) (state self.now)) }
        ensures err { OnErr result (out.new.items ≡ out.old.items) }
        ensures holds { IsTrue (holds_of (meaning self.now) (state self.now)) };

    /// Takes the state of which the bytes are the save, in place of its own.
    fn load(&mut self, alloc: Global, bytes: &[u8]) -> Result<(), LoadFault>
        ensures ok { OnOk result (saved_of (meaning self.old) (state self.new) ≡ bytes.now) }
        ensures holds { IsTrue (holds_of (meaning self.old) (state self.new)) }
        ensures bad { result ≡ Err LoadFault.Bad → IsNoSave (meaning self.old) bytes.now }
        ensures err { OnErr result (state self.new ≡ state self.old) }
        ensures kept { meaning self.new ≡ meaning self.old };
}
