//! Last words of solved cases, one by one.

ghost use Rattle.std.specs.Prelude.{◌≡◌, ◌&&◌, not, map};
ghost use Rattle.std.specs.List.{list_all, list_any};
ghost use Rattle.std.specs.Ordering.{is_lt};
ghost use Rattle.fm_name.specs.Events.{event_cmp};
ghost use Rattle.dx_state.specs.LawfulState.{events_ascend, suspect_name, is_present_suspect};
ghost use Rattle.dx_state.specs.LawfulState.{has_marks};
ghost use Rattle.dx_lawful.specs.Trials.{could_be_last};

use fm_entry::{EventName, ListEvent, ListKind, Mark, Suspect};

/// Whether events are in event order, none twice.
fn events_ascend(events: &[EventName]) -> bool
    ensures { result ≡ events_ascend events.now }
{
    events.is_sorted_by(|a, b| a.cmp(b).is_lt())
}

/// Whether the event of a suspect stands before that of another.
#[tactic(auto, unfolding(fm_name::specs::Events::event_cmp))]
fn is_before_suspect(a: &Suspect, b: &Suspect) -> bool
    ensures { result ≡ is_lt (event_cmp (suspect_name a.now) (suspect_name b.now)) }
{
    a.path.cmp(&b.path).then(a.class.cmp(&b.class)).is_lt()
}

/// Whether suspects are in event order, none twice.
fn suspects_ascend(suspects: &[Suspect]) -> bool
    ensures { result ≡ events_ascend (map suspect_name suspects.now) }
{
    suspects.is_sorted_by(|a, b| is_before_suspect(a, b))
}

/// Whether a suspect still counts as faulty.
fn is_present(suspect: &Suspect) -> bool
    ensures { result ≡ is_present_suspect suspect.now }
{
    match suspect.mark {
        Mark::Present => true,
        Mark::Repaired | Mark::Replaced | Mark::Acquitted => false,
    }
}

/// Whether each of some suspects does.
fn are_present(suspects: &[Suspect]) -> bool
    ensures { result ≡ list_all is_present_suspect suspects.now }
{
    suspects.iter().all(|suspect| is_present(suspect))
}

/// Whether some suspect does.
fn is_any_present(suspects: &[Suspect]) -> bool
    ensures { result ≡ list_any is_present_suspect suspects.now }
{
    suspects.iter().any(|suspect| is_present(suspect))
}

/// Whether some suspect does not.
fn is_any_absent(suspects: &[Suspect]) -> bool
    ensures { result ≡ list_any (λ s. not (is_present_suspect s)) suspects.now }
{
    suspects.iter().any(|suspect| !is_present(suspect))
}

/// Whether the suspects of a word of this kind have marks that they can have.
fn has_marks(kind: ListKind, suspects: &[Suspect]) -> bool
    ensures { result ≡ has_marks kind suspects.now }
{
    match kind {
        ListKind::Suspect => are_present(suspects),
        ListKind::Updated => is_any_present(suspects) && is_any_absent(suspects),
        ListKind::Undiagnosable | ListKind::Upset | ListKind::Repaired => false,
    }
}

/// Whether a word of the module is the last one of a solved case, where the next case gets a
/// number.
fn could_be_last(next: u64, word: &ListEvent) -> bool
    ensures { result ≡ could_be_last next word.now }
{
    word.case.case < next
        && (word.observed.len() > 0
            && (events_ascend(word.observed.as_slice())
                && (suspects_ascend(word.suspects.as_slice())
                    && has_marks(word.kind, word.suspects.as_slice()))))
}

/// Whether each of some words is.
pub(crate) fn could_each_be_last(next: u64, words: &[ListEvent]) -> bool
    ensures { result ≡ list_all (could_be_last next) words.now }
{
    words.iter().all(|word| could_be_last(next, word))
}
