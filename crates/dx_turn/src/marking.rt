//! Marks that suspects of solved cases get.

ghost use Rattle.std.specs.Prelude.{◌≡◌, ◌++◌, ◌||◌, IfOk, OnOk, IsTrue};
ghost use Rattle.std.specs.List.{list_any};
ghost use Rattle.ev_incidence.specs.Sets.{ascends};
ghost use Rattle.dx_state.specs.LawfulState.{solved_numbers};
ghost use Rattle.dx_step.specs.Repairs.{is_marked_by, mark};
ghost use Rattle.dx_turn.specs.Turning.{made_or, solved_by, IsTold, HasTurned};

use crate::ground::Ground;
use crate::told::Told;
use dx_said::{Choice, mark_words, marks_any, put_words};
use ev_graph::NoMemory;
use fm_bytes::{Copies, Items};
use fm_entry::{ListEvent, ListEvents, Mark};
use std::alloc::Global;

/// Equal words.
fn words_like(alloc: Global, words: &[ListEvent]) -> Result<Vec<ListEvent>, NoMemory>
    ensures { IfOk result (λ v. v.items ≡ words.now) }
{
    let mut copies = Vec::with_capacity(alloc, words.len())?;
    for word in words {
        copies.push(word.copy(alloc)?)?;
    }
    Ok(copies)
}

/// The last words of solved cases, without those that this turn solved since the last marks.
fn words_before<'a>(ground: &'a Ground<'_>, told: &'a Told) -> &'a [ListEvent]
    ensures { result.now ≡ made_or told.now.marked ground.now.last_words.now }
{
    match &told.marked {
        Some(words) => words.as_slice(),
        None => ground.last_words,
    }
}

/// The last words of solved cases, as they are now.
fn words_now(ground: &Ground<'_>, told: &Told) -> Result<Vec<ListEvent>, NoMemory>
    requires { IsTrue (ascends (solved_numbers (solved_by ground.now told.now))) }
    ensures { IfOk result (λ v. v.items ≡ solved_by ground.now told.now) }
{
    let mut words = words_like(ground.alloc, words_before(ground, told))?;
    put_words(&mut words, told.solved.copy(ground.alloc)?)?;
    Ok(words)
}

/// Whether some suspect of one of these words gets a mark.
fn may_mark<C: Choice>(ground: &Ground<'_>, told: &Told, choice: &C) -> bool
    ensures { result ≡ (list_any (is_marked_by (C.chosen choice.now))
        (made_or told.now.marked ground.now.last_words.now)
        || list_any (is_marked_by (C.chosen choice.now)) told.now.solved) }
{
    marks_any(choice, words_before(ground, told)) || marks_any(choice, told.solved.as_slice())
}

/// Puts words at the end of others.
fn append(words: &mut ListEvents, more: &[ListEvent], alloc: Global) -> Result<(), NoMemory>
    ensures { OnOk result (words.new ≡ words.old ++ more.now) }
{
    for word in more {
        words.push(word.copy(alloc)?)?;
    }
    Ok(())
}

/// The suspects that are chosen and present get the mark.
pub(crate) fn mark<C: Choice>(
    ground: &Ground<'_>,
    told: &mut Told,
    choice: &C,
    with: Mark,
) -> Result<(), NoMemory>
    requires told { IsTold ground.now told.old }
    requires ascend { IsTrue (ascends (solved_numbers (solved_by ground.now told.old))) }
    ensures { OnOk result
        (HasTurned ground.now (mark (C.chosen choice.now) with) told.old told.new) }
{
    if !may_mark(ground, told, choice) {
        return Ok(());
    }
    let words = words_now(ground, told)?;
    let marked = mark_words(ground.alloc, choice, with, ground.time, &words)?;
    append(&mut told.words, marked.said.as_slice(), ground.alloc)?;
    told.marked = Some(marked.left);
    told.solved = Items::new(Vec::new(ground.alloc));
    Ok(())
}
