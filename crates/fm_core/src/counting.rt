ghost use Rattle.std.specs.Prelude.{◌≡◌, ◌<◌, ◌≤◌, ◌+◌, ◌%◌, ◌^◌, ◌==◌, [], ◌∷◌, length, slice_get};
ghost use Rattle.std.specs.Prelude.{IsTrue, IfOk, OnOk, OnErr, if◌then◌else◌};
ghost use Rattle.fm_core.specs.Counts.{is_ordered, total_of, plus_one, third};
ghost use Rattle.fm_core.specs.Places.{class_place, is_standing, place_in, count_found};

use crate::class_count::ClassCount;
use fm_bytes::NoMemory;
use fm_entry::{BrokenLinks, CaseName, EventNames, ListEvent, ListKind, Suspects};
use fm_name::{Class, EventName, Fmri};
use std::alloc::Global;

// where the class stands, or else would stand; it is looked for at the guess first
pub(crate) fn find_class(counts: &[ClassCount], guess: usize, class: &Class) -> Result<usize, usize>
    requires { IsTrue (is_ordered counts.now) }
    ensures { result ≡ place_in class.now counts.now }
{
    if stands(counts, guess, class) {
        return Ok(guess);
    }
    let at = find_place(counts, class);
    if stands(counts, at, class) {
        Ok(at)
    } else {
        Err(at)
    }
}

// how many counts are of classes before the class
fn find_place(counts: &[ClassCount], class: &Class) -> usize
    requires { IsTrue (is_ordered counts.now) }
    ensures { result ≡ class_place class.now counts.now }
{
    counts.partition_point(|x| x.class < *class)
}

// whether the class stands at the place
fn stands(counts: &[ClassCount], at: usize, class: &Class) -> bool
    ensures { result ≡ is_standing class.now (slice_get counts.now at) }
{
    match counts.get(at) {
        Some(x) => x.class == *class,
        None => false,
    }
}

// the count that stands at the place, or none
pub(crate) fn count_at(counts: &[ClassCount], place: Result<usize, usize>) -> u64
    requires { IfOk place (λ at. at < length counts.now) }
    ensures { result ≡ count_found place counts.now }
{
    match place {
        Ok(at) => counts[at].count,
        Err(_) => 0,
    }
}

// counts one report more of the class
pub(crate) fn count_in(
    counts: &mut Vec<ClassCount>,
    place: Result<usize, usize>,
    class: &Class,
) -> Result<(), NoMemory>
    requires place { place ≡ place_in class.now counts.old.items }
    requires fits { total_of counts.old.items < 2 ^ 46 }
    ensures ok { OnOk result (counts.new.items ≡ plus_one class.now counts.old.items) }
    ensures err { OnErr result (counts.new.items ≡ counts.old.items) }
{
    match place {
        Ok(at) => {
            let own = &mut counts[at];
            own.count += 1;
            Ok(())
        }
        Err(at) => {
            let class = class.copy()?;
            counts.insert(at, ClassCount { class, count: 1 })?;
            Ok(())
        }
    }
}

// equal counts
pub(crate) fn copied(alloc: Global, counts: &[ClassCount]) -> Result<Vec<ClassCount>, NoMemory>
    ensures { IfOk result (λ copied. copied.items ≡ counts.now) }
{
    let mut copied = Vec::with_capacity(alloc, counts.len())?;
    for x in counts {
        let class = x.class.copy()?;
        let count = x.count;
        copied.push(ClassCount { class, count })?;
    }
    Ok(copied)
}

// the upset that is said where the count is a multiple of three
pub(crate) fn third_word(
    alloc: Global,
    case: CaseName,
    count: u64,
    class: &Class,
    path: &Fmri,
    moment: u64,
) -> Result<Vec<ListEvent>, NoMemory>
    ensures { IfOk result
        (λ words. words.items
        ≡ (if count % 3 == 0 then third case.module case.case class.now path.now moment ∷ []
        else [])) }
{
    if count % 3 != 0 {
        return Ok(Vec::new(alloc));
    }
    let name = EventName {
        class: class.copy()?,
        path: path.copy()?,
    };
    let observed = Vec::from_array(alloc, [name])?;
    let upset = ListEvent {
        kind: ListKind::Upset,
        case,
        moment,
        conf: 0,
        observed: EventNames::new(observed),
        suspects: Suspects::new(Vec::new(alloc)),
        broken: BrokenLinks::new(Vec::new(alloc)),
    };
    Ok(Vec::from_array(alloc, [upset])?)
}
