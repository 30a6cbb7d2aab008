//! The place of a word among those of other cases.

ghost use Rattle.std.specs.Prelude.{◌≡◌, ◌+◌, ◌<◌, ◌≤◌, OnOk, OnErr, IsTrue};
ghost use Rattle.std.specs.Prelude.{vec_len, vec_capacity};
ghost use Rattle.ev_incidence.specs.Sets.{ascends};
ghost use Rattle.dx_state.specs.LawfulState.{solved_numbers};
ghost use Rattle.dx_step.specs.Said.{with_last_word};
ghost use Rattle.dx_said.specs.Making.{IsWordPlace, with_words};

use fm_bytes::NoMemory;
use fm_entry::{ListEvent, ListEvents};

/// How many words are of cases before the number.
fn place_of(words: &[ListEvent], number: u64) -> usize
    requires { IsTrue (ascends (solved_numbers words.now)) }
    ensures { IsWordPlace number words.now result }
{
    words.partition_point(|word| word.case.case < number)
}

/// Puts a word among those of other cases, unless one of its case is there. There is room for it.
fn put_into(words: &mut Vec<ListEvent>, word: ListEvent)
    requires ascend { IsTrue (ascends (solved_numbers words.old.items)) }
    requires room { vec_len words.old < vec_capacity words.old }
    ensures put { words.new.items ≡ with_last_word word words.old.items }
    ensures ascend { IsTrue (ascends (solved_numbers words.new.items)) }
    ensures few { vec_len words.new ≤ vec_len words.old + 1 }
    ensures capacity { vec_capacity words.old ≤ vec_capacity words.new }
{
    let at = place_of(words, word.case.case);
    if at < words.len() && words[at].case.case == word.case.case {
        return;
    }
    match words.insert(at, word) {
        Ok(()) => {}
        Err(_) => unreachable!(),
    }
}

/// Puts words among those of other cases, each unless one of its case is there. Without memory for
/// all of them they stay as they were.
pub fn put_words(words: &mut Vec<ListEvent>, more: ListEvents) -> Result<(), NoMemory>
    requires { IsTrue (ascends (solved_numbers words.old.items)) }
    ensures ok { OnOk result (words.new.items ≡ with_words more words.old.items) }
    ensures ascend { IsTrue (ascends (solved_numbers words.new.items)) }
    ensures err { OnErr result (words.new.items ≡ words.old.items) }
{
    words.reserve(more.len())?;
    for word in more.into_vec() {
        put_into(words, word);
    }
    Ok(())
}
