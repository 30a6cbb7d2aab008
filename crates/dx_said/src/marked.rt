//! Marks in the last words of solved cases.

ghost use Rattle.std.specs.Prelude.{◌≡◌, ◌++◌, ◌∷◌, [], IfOk, OnOk};
ghost use Rattle.std.specs.List.{list_any};
ghost use Rattle.dx_step.specs.Repairs.{is_marked_by, kept_if, last_words, mark_words};

use crate::marking::{Choice, has_present, is_marked, mark_word};
use fm_bytes::{Copies, Items, NoMemory};
use fm_entry::{ListEvent, ListEvents, Mark};
use std::alloc::Global;

/// What marks leave of the last words of solved cases, and what is said of it.
#[derive(Drop)]
pub struct AfterMarks {
    pub left: ListEvents,
    pub said: ListEvents,
}

/// Whether some suspect of these words gets a mark.
pub fn marks_any<C: Choice>(choice: &C, words: &[ListEvent]) -> bool
    ensures { result ≡ list_any (is_marked_by (C.chosen choice.now)) words.now }
{
    words.iter().any(|word| is_marked(choice, word))
}

/// Keeps a copy of the word, or not.
fn keep_if(
    alloc: Global,
    there: bool,
    word: &ListEvent,
    words: &mut ListEvents,
) -> Result<(), NoMemory>
    ensures { OnOk result (words.new ≡ words.old ++ kept_if there word.now) }
{
    if there {
        words.push(word.copy(alloc)?)
    } else {
        Ok(())
    }
}

/// The word with the marks that its suspects get.
fn mark_one<C: Choice>(
    alloc: Global,
    choice: &C,
    mark: Mark,
    time: u64,
    word: &ListEvent,
    marked: &mut AfterMarks,
) -> Result<(), NoMemory>
    ensures left { OnOk result (marked.new.left
        ≡ marked.old.left ++ last_words time (C.chosen choice.now) mark (word.now ∷ [])) }
    ensures said { OnOk result (marked.new.said
        ≡ marked.old.said ++ mark_words time (C.chosen choice.now) mark (word.now ∷ [])) }
{
    match mark_word(alloc, choice, mark, time, word)? {
        Some(new) => {
            let there = has_present(new.suspects.as_slice());
            keep_if(alloc, there, &new, &mut marked.left)?;
            marked.said.push(new)
        }
        None => keep_if(alloc, true, word, &mut marked.left),
    }
}

/// The words with the marks that their suspects get at this moment, and what is said of it.
pub fn mark_words<C: Choice>(
    alloc: Global,
    choice: &C,
    mark: Mark,
    time: u64,
    words: &[ListEvent],
) -> Result<AfterMarks, NoMemory>
    ensures left { IfOk result
        (λ m. m.left ≡ last_words time (C.chosen choice.now) mark words.now) }
    ensures said { IfOk result
        (λ m. m.said ≡ mark_words time (C.chosen choice.now) mark words.now) }
{
    let mut marked = AfterMarks {
        left: Items::new(Vec::new(alloc)),
        said: Items::new(Vec::new(alloc)),
    };
    for word in words {
        mark_one(alloc, choice, mark, time, word, &mut marked)?;
    }
    Ok(marked)
}
