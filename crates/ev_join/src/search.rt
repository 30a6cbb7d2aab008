//! The search for the first candidate from a list of numbers on.

ghost use Rattle.std.specs.Prelude.{◌≡◌, ◌≤◌, ◌∷◌, [], ◌++◌, IfOk, MatchBool};
ghost use Rattle.ev_join.specs.Candidates.{HasRows};
ghost use Rattle.ev_join.specs.Search.{GoesOn, HasNoCandidate, IsFirstCandidate, IsLeastFrom};
ghost use Rattle.ev_join.specs.Search.{IsOpen, IsRound};

use crate::table::Table;
use fm_bytes::NoMemory;

/// Asks each table in turn for the least number with which it goes on, from that of the table
/// before on.
fn round(tables: &[Table], front: &[u32], value: u64) -> Option<u64>
    requires { HasRows tables.now front.now }
    ensures { IsRound tables.now front.now value result }
{
    let mut least = value;
    'tables: for table in tables {
        least = table.seek(front, least)?;
    }
    Some(least)
}

/// The least number from a value on with which all tables go on.
fn agree(tables: &[Table], front: &[u32], value: u64) -> Option<u32>
    requires { HasRows tables.now front.now }
    ensures { IsLeastFrom (GoesOn tables.now front.now) value result }
{
    let mut least = value;
    'rounds: while least < 4294967296 {
        let next = round(tables, front, least)?;
        if next == least {
            return Some(least as u32);
        }
        least = next;
    }
    None
}

/// Goes on from the beginning of a binding that fits, with a number, to the first candidate from
/// there on, or finds that there is none.
pub(crate) fn next(
    tables: &[Table],
    count: usize,
    front: &mut Vec<u32>,
    value: u64,
) -> Result<bool, NoMemory>
    requires { IsOpen tables.now count front.old.items value }
    ensures { let old = front.old.items ++ value ∷ [] in
        IfOk result (λ found. MatchBool found
        (IsFirstCandidate tables.now count old front.new.items)
        (HasNoCandidate tables.now count old)) }
{
    let mut from = value;
    'turns: loop {
        match agree(tables, front.as_slice(), from) {
            Some(found) => {
                front.push(found)?;
                if front.len() == count {
                    return Ok(true);
                }
                from = 0;
            }
            None => match front.pop() {
                Some(last) => from = u64::from(last) + 1,
                None => return Ok(false),
            },
        }
    }
}
