//! The numbers of cases.

ghost use Rattle.std.specs.Prelude.{◌≡◌, ◌&&◌, true, IfOk};
ghost use Rattle.ev_incidence.specs.Sets.{ascends, is_member};
ghost use Rattle.dx_state.specs.LawfulState.{open_numbers, solved_numbers, are_apart};
ghost use Rattle.dx_lawful.specs.Trials.{are_numbered};

use dx_kept::KeptCase;
use ev_graph::NoMemory;
use fm_entry::ListEvent;
use std::alloc::Global;

fn open_number(case: &KeptCase) -> u64
    ensures { result ≡ case.now.number }
{
    case.number()
}

/// The numbers of open cases.
fn open_numbers(alloc: Global, cases: &[KeptCase]) -> Result<Vec<u64>, NoMemory>
    ensures { IfOk result (λ v. v.items ≡ open_numbers cases.now) }
{
    let numbers = cases.iter().map(open_number).collect(alloc)?;
    Ok(numbers)
}

/// The numbers of solved cases, by their words.
fn solved_numbers(alloc: Global, words: &[ListEvent]) -> Result<Vec<u64>, NoMemory>
    ensures { IfOk result (λ v. v.items ≡ solved_numbers words.now) }
{
    let mut numbers = Vec::with_capacity(alloc, words.len())?;
    for word in words {
        numbers.push(word.case.case)?;
    }
    Ok(numbers)
}

/// Whether the numbers ascend strictly.
fn ascends(numbers: &[u64]) -> bool
    ensures { result ≡ ascends numbers.now }
{
    numbers.is_sorted_by(|a, b| *a < *b)
}

/// Whether a number is one of these, which ascend. It takes the time of one search.
fn contains(numbers: &[u64], number: u64) -> bool
    requires { ascends numbers.now ≡ true }
    ensures { result ≡ is_member numbers.now number }
{
    numbers.binary_search(&number).is_ok()
}

/// Whether no number is one of some others, which ascend.
fn are_apart(numbers: &[u64], others: &[u64]) -> bool
    requires { ascends others.now ≡ true }
    ensures { result ≡ are_apart numbers.now others.now }
{
    for number in numbers {
        if contains(others, *number) {
            return false;
        }
    }
    true
}

/// Whether open and solved cases are in order of number, and none is both.
pub(crate) fn are_numbered(
    alloc: Global,
    cases: &[KeptCase],
    words: &[ListEvent],
) -> Result<bool, NoMemory>
    ensures { IfOk result (λ lawful. lawful ≡ are_numbered cases.now words.now) }
{
    let solved = solved_numbers(alloc, words)?;
    if !ascends(solved.as_slice()) {
        return Ok(false);
    }
    let open = open_numbers(alloc, cases)?;
    Ok(ascends(open.as_slice()) && are_apart(open.as_slice(), solved.as_slice()))
}
