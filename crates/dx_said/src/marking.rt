//! Marks of suspects.

ghost use Rattle.std.specs.Prelude.{◌≡◌, ◌++◌, ◌&&◌, ◌==◌, Some, None, IfOk, OnOk};
ghost use Rattle.std.specs.List.{list_any};
ghost use Rattle.std.specs.Prelude.{if◌then◌else◌};
ghost use Rattle.dx_state.specs.LawfulState.{is_present_mark, is_present_suspect};
ghost use Rattle.dx_step.specs.Repairs.{Chosen, is_at, is_at_or_under, is_of_case, gets_mark};
ghost use Rattle.dx_step.specs.Repairs.{with_mark, mark_all, has_present, kind_after, is_marked_by};
ghost use Rattle.dx_step.specs.Repairs.{marked_word, mark_words};

use fm_bytes::{Copies, Items, NoMemory};
use fm_entry::{CaseName, ListEvent, ListKind, Mark, Suspect};
use fm_name::Fmri;
use std::alloc::Global;

/// Which suspects a repair, a replacement or an acquittal speaks of.
pub trait Choice {
    ghost chosen: { Self → Chosen };

    /// Whether it speaks of the suspect of the word.
    fn chooses(&self, word: &ListEvent, suspect: &Suspect) -> bool
        ensures { result ≡ chosen self.now word.now suspect.now };
}

/// Those whose resource is at the path.
#[derive(Drop)]
pub struct AtPath<'a> {
    pub path: &'a Fmri,
}

impl Choice for AtPath<'_> {
    ghost chosen = { λ c. is_at c.path.now };

    fn chooses(&self, _word: &ListEvent, suspect: &Suspect) -> bool {
        suspect.path == *self.path
    }
}

/// Those whose resource is at the path or under it.
#[derive(Drop)]
pub struct UnderPath<'a> {
    pub path: &'a Fmri,
}

impl Choice for UnderPath<'_> {
    ghost chosen = { λ c. is_at_or_under c.path.now };

    fn chooses(&self, _word: &ListEvent, suspect: &Suspect) -> bool {
        suspect.path.is_under(self.path)
    }
}

/// Those of a case.
#[derive(Drop)]
pub struct OfCase {
    pub case: CaseName,
}

impl Choice for OfCase {
    ghost chosen = { λ c. is_of_case c.case };

    fn chooses(&self, word: &ListEvent, _suspect: &Suspect) -> bool {
        word.case.module == self.case.module && word.case.case == self.case.case
    }
}

/// The word on a case of which some suspects get a mark at this moment, or none where none does.
pub fn mark_word<C: Choice>(
    alloc: Global,
    choice: &C,
    mark: Mark,
    time: u64,
    word: &ListEvent,
) -> Result<Option<ListEvent>, NoMemory>
    ensures { IfOk result (λ found. found
        ≡ (if is_marked_by (C.chosen choice.now) word.now
        then Some (marked_word time (C.chosen choice.now) mark word.now) else None)) }
{
    if !is_marked(choice, word) {
        return Ok(None);
    }
    let suspects = mark_all(alloc, choice, mark, word)?;
    let kind = kind_after(&suspects);
    Ok(Some(ListEvent {
        kind,
        case: word.case,
        moment: time,
        conf: word.conf,
        observed: word.observed.copy(alloc)?,
        suspects: Items::new(suspects),
        broken: word.broken.copy(alloc)?,
    }))
}

/// Whether some suspect of the word gets the mark.
pub(crate) fn is_marked<C: Choice>(choice: &C, word: &ListEvent) -> bool
    ensures { result ≡ is_marked_by (C.chosen choice.now) word.now }
{
    word.suspects
        .as_slice()
        .iter()
        .any(|suspect| gets_mark(choice, word, suspect))
}

/// Whether the suspect gets the mark: it is chosen, and still present.
fn gets_mark<C: Choice>(choice: &C, word: &ListEvent, suspect: &Suspect) -> bool
    ensures { result ≡ gets_mark (C.chosen choice.now word.now) suspect.now }
{
    is_present(suspect.mark) && choice.chooses(word, suspect)
}

/// Whether the mark says that the suspect still counts as faulty.
fn is_present(mark: Mark) -> bool
    ensures { result ≡ is_present_mark mark }
{
    match mark {
        Mark::Present => true,
        _ => false,
    }
}

/// The suspects of the word, those that are chosen and present with the mark.
fn mark_all<C: Choice>(
    alloc: Global,
    choice: &C,
    mark: Mark,
    word: &ListEvent,
) -> Result<Vec<Suspect>, NoMemory>
    ensures { IfOk result
        (λ v. v.items ≡ mark_all (C.chosen choice.now word.now) mark word.now.suspects) }
{
    let suspects = word.suspects.as_slice();
    let mut marked = Vec::with_capacity(alloc, suspects.len())?;
    for suspect in suspects {
        marked.push(with_mark(alloc, choice, mark, word, suspect)?)?;
    }
    Ok(marked)
}

/// The suspect, with the mark where it gets it.
fn with_mark<C: Choice>(
    alloc: Global,
    choice: &C,
    mark: Mark,
    word: &ListEvent,
    suspect: &Suspect,
) -> Result<Suspect, NoMemory>
    ensures { IfOk result
        (λ s. s ≡ with_mark (C.chosen choice.now word.now) mark suspect.now) }
{
    let marked = gets_mark(choice, word, suspect);
    Ok(Suspect {
        class: suspect.class.copy()?,
        path: suspect.path.copy()?,
        certainty: suspect.certainty,
        retire: suspect.retire,
        mark: mark_if(marked, mark, suspect.mark),
    })
}

/// One mark or the other.
fn mark_if(marked: bool, mark: Mark, before: Mark) -> Mark
    ensures { result ≡ (if marked then mark else before) }
{
    if marked { mark } else { before }
}

/// Whether some suspect is present.
pub(crate) fn has_present(suspects: &[Suspect]) -> bool
    ensures { result ≡ has_present suspects.now }
{
    suspects.iter().any(|suspect| is_present(suspect.mark))
}

/// What a word says of a case with these suspects, of which some got a mark.
fn kind_after(suspects: &[Suspect]) -> ListKind
    ensures { result ≡ kind_after suspects.now }
{
    if has_present(suspects) {
        ListKind::Updated
    } else {
        ListKind::Repaired
    }
}
