//! The operands in a condition, in order.
ghost use Rattle.std.specs.Prelude.{◌≡◌, ◌++◌, IfOk, OnOk, map};
ghost use Rattle.ev_tree.specs.Condition.{conditions, view_cond};
ghost use Rattle.ev_words.specs.Operands.{operands_in, operands_of, operands_at};

use ev_tree::{Cond, Operand, SidePattern};
use fm_bytes::{Copies, NoMemory};
use std::alloc::Global;

/// Puts a copy of each operand at the end.
fn gather_sum(alloc: Global, sum: &[Operand], found: &mut Vec<Operand>) -> Result<(), NoMemory>
    ensures { OnOk result (found.new.items ≡ found.old.items ++ sum.now) }
{
    for operand in sum {
        found.push(operand.copy(alloc)?)?;
    }
    Ok(())
}

/// Puts a copy of each operand of the conditions at the end, in order.
#[cycle(gather)]
fn gather_each(alloc: Global, conds: &[Cond], found: &mut Vec<Operand>) -> Result<(), NoMemory>
    ensures { let added = operands_in (conditions (map view_cond conds.now)) in
        OnOk result (found.new.items ≡ found.old.items ++ added) }
{
    for cond in conds {
        gather(alloc, cond, found)?;
    }
    Ok(())
}

/// Puts a copy of each operand of the condition at the end, in order.
#[cycle(gather)]
fn gather(alloc: Global, cond: &Cond, found: &mut Vec<Operand>) -> Result<(), NoMemory>
    ensures { OnOk result (found.new.items ≡ found.old.items ++ operands_of (view_cond cond.now)) }
{
    match cond {
        Cond::Any(members) => gather_each(alloc, members.as_slice(), found),
        Cond::All(members) => gather_each(alloc, members.as_slice(), found),
        Cond::Not(inner) => gather(alloc, inner, found),
        Cond::Defined(_) => Ok(()),
        Cond::Compares { left, right, .. } => {
            gather_sum(alloc, left.as_slice(), found)?;
            gather_sum(alloc, right.as_slice(), found)
        }
    }
}

/// The operands in the condition of a pattern, in order; none where it has no condition.
pub(crate) fn operands_at(alloc: Global, pattern: &SidePattern) -> Result<Vec<Operand>, NoMemory>
    ensures { IfOk result (λ found. found.items ≡ operands_at pattern.now) }
{
    let mut found = Vec::new(alloc);
    match &pattern.cond {
        Some(cond) => {
            gather(alloc, cond, &mut found)?;
            Ok(found)
        }
        None => Ok(found),
    }
}
