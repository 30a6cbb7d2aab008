// What takes the entries of the input.
ghost use Rattle.std.specs.Prelude.{◌≡◌, ◌+◌, ◌++◌, ℕ, Bool, List, [], ◌∷◌, length, Option, Some};
ghost use Rattle.std.specs.Prelude.{None, OnOk, IfOk, IfErr};
ghost use Rattle.fm_entry.specs.declared.entry.Entry.{Entry};
ghost use Rattle.fm_core.specs.Book.{IsAdmitted};
ghost use Rattle.fm_answers.specs.declared.stops.Stop.{Stop};
ghost use Rattle.fm_answers.specs.Refusing.{TakeStops};

use crate::stops::Stop;
use fm_entry::Entry;
use std::alloc::Global;

/// What takes the entries of the input, one after another, and numbers them.
pub trait Taker {
    ghost TELLS_NUMBERS: { Bool };

    /// Whether the input is told the number of each entry that was taken.
    const TELLS_NUMBERS: bool;

    /// From the first to the second these entries were taken, in order, and after them perhaps one
    /// more was refused, for this cause.
    ghost went: { Self → Self → List Entry → Option (Stop × Entry) → Type 0 };

    /// It can take one more, or tell why not.
    ghost ready: { Self → Type 0 };

    /// Which one it is. Each call keeps it, so that who lends one knows what came back.
    ghost name: { Self → ℕ };

    /// The number that the next entry gets.
    ghost next: { Self → ℕ };

    /// Takes the entry, and answers its number.
    fn take(&mut self, alloc: Global, entry: Entry) -> Result<u64, Stop>
        requires ready { ready self.old }
        requires admitted { IsAdmitted entry }
        ensures number { IfOk result (λ number. number ≡ next self.old) }
        ensures ok { OnOk result (went self.old self.new (entry ∷ []) None) }
        ensures ready { OnOk result (ready self.new) }
        ensures same_taker { name self.new ≡ name self.old }
        ensures err { IfErr result (TakeStops (went self.old self.new) entry) };

    /// Nothing was taken where nothing was done.
    ghost stays: { (a : Self) → went a a [] None };

    /// What was taken first, and what was taken then.
    ghost goes_on: { (a b c : Self) (es fs : List Entry) (last : Option (Stop × Entry))
        → went a b es None → went b c fs last → went a c (es ++ fs) last };

    /// Entries are numbered one after another.
    ghost numbers: { (a b : Self) (es : List Entry) → went a b es None
        → next b ≡ next a + length es };
}
