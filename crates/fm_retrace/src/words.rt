//! What a module says, held against a record.

ghost use Rattle.std.specs.Prelude.{◌≡◌, ◌+◌, ◌<◌, ◌≤◌, ◌^◌, [], ◌∷◌, length, All, IfOk, OnOk};
ghost use Rattle.std.specs.Prelude.{true, false};
ghost use Rattle.fm_core.specs.Folds.{records_at, state_along, words_along};
ghost use Rattle.fm_entry.specs.Entries.{IsSpelled};
ghost use Rattle.fm_entry.specs.Words.{IsSpelledSpoken, IsWordOf};
ghost use Rattle.fm_retrace.specs.Logged.{said_below};

use fm_bytes::NoMemory;
use fm_core::Module;
use fm_entry::{Entry, ListEvent, ListEvents, Spoken, write_spoken};
use std::alloc::Global;

/// Whether words are those of a record. They are compared as they are written.
fn are_words_of(alloc: Global, words: Vec<ListEvent>, record: &Spoken) -> Result<bool, NoMemory>
    requires spelled { IsSpelledSpoken record.now }
    requires words { All (IsWordOf record.now.module) words.items }
    ensures yes { IfOk result (λ are. are ≡ true → words.items ≡ record.now.events) }
    ensures no { IfOk result (λ are. are ≡ false → words.items ≡ record.now.events → ⊥) }
{
    if words.is_empty() || words.len() >= 1 << 32 {
        return Ok(false);
    }
    let said = Spoken {
        module: record.module,
        number: record.number,
        events: ListEvents::new(words),
    };
    let mut one = Vec::new(alloc);
    write_spoken(&said, &mut one)?;
    let mut other = Vec::new(alloc);
    write_spoken(record, &mut other)?;
    Ok(one == other)
}

/// Whether the words that the record's module says at a number, which is not past the record's, are
/// what the record has of that number.
fn says_at(
    alloc: Global,
    words: Vec<ListEvent>,
    number: u64,
    record: &Spoken,
) -> Result<bool, NoMemory>
    requires spelled { IsSpelledSpoken record.now }
    requires words { All (IsWordOf record.now.module) words.items }
    requires before { number ≤ record.now.number }
    ensures yes { IfOk result (λ says. says ≡ true
        → records_at record.now.module number words.items ≡ said_below (number + 1) record.now) }
    ensures no { IfOk result (λ says. says ≡ false
        → records_at record.now.module number words.items ≡ said_below (number + 1) record.now
        → ⊥) }
{
    if number < record.number {
        return Ok(words.is_empty());
    }
    are_words_of(alloc, words, record)
}

/// Whether the module says just the record along the entries, which are numbered from `first`, and
/// of which the last has the record's number. Then it has taken them.
pub(crate) fn says_just<M: Module>(
    alloc: Global,
    object: &mut M,
    first: u64,
    entries: &[Entry],
    record: &Spoken,
) -> Result<bool, NoMemory>
    requires few { first + length entries.now ≤ 2 ^ 46 }
    requires entries { All IsSpelled entries.now }
    requires spelled { IsSpelledSpoken record.now }
    requires own { (M.meaning object.old).own ≡ record.now.module }
    requires some { first ≤ record.now.number }
    requires last { record.now.number + 1 ≡ first + length entries.now }
    ensures yes { IfOk result (λ says. says ≡ true
        → words_along (M.meaning object.old) (M.state object.old) first entries.now
        ≡ record.now ∷ []) }
    ensures no { IfOk result (λ says. says ≡ false
        → words_along (M.meaning object.old) (M.state object.old) first entries.now
        ≡ record.now ∷ [] → ⊥) }
    ensures taken { IfOk result (λ says. says ≡ true → M.state object.new
        ≡ state_along (M.meaning object.old) (M.state object.old) first entries.now) }
    ensures kept { M.meaning object.new ≡ M.meaning object.old }
{
    let mut number = first;
    'entries: for entry in entries {
        let words = object.step(alloc, number, entry)?;
        if !says_at(alloc, words, number, record)? {
            return Ok(false);
        }
        number += 1;
    }
    Ok(true)
}
