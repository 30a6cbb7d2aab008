//! What the condition of a pattern is asked with.

ghost use Rattle.std.specs.Prelude.{◌≡◌, ◌++◌, ◌∷◌, [], map, slice_get, IfOk, OnOk};
ghost use Rattle.std.specs.List.{list_any};
ghost use Rattle.ev_tree.specs.Condition.{conditions, view_cond};
ghost use Rattle.ev_words.specs.Operands.{operands_in};
ghost use Rattle.ev_words.specs.Words.{is_payload};
ghost use Rattle.fm_name.specs.Path.{instances_of};
ghost use Rattle.ev_events.specs.Asking as asking;

use crate::names::Iterators;
use ev_expr::Bound;
use ev_tree::{At, Cond, Operand, Part};
use fm_bytes::{Copies, NoMemory, Text};
use fm_name::Fmri;
use std::alloc::Global;

/// Whether an operand is of the payload.
fn is_payload(operand: &Operand) -> bool
    ensures { result ≡ is_payload operand.now }
{
    match operand {
        Operand::Payloadprop(_) => true,
        _ => false,
    }
}

/// Whether an operand of a sum is of the payload.
fn sum_asks(sum: &[Operand]) -> bool
    ensures { result ≡ list_any is_payload sum.now }
{
    sum.iter().any(|operand| is_payload(operand))
}

/// Whether one of the conditions asks the payload.
#[cycle(asks)]
fn any_asks(conds: &[Cond]) -> bool
    ensures { result ≡ list_any is_payload (operands_in (conditions (map view_cond conds.now))) }
{
    for cond in conds {
        if asks_payload(cond) {
            return true;
        }
    }
    false
}

/// Whether a condition asks the payload. It takes no memory.
#[cycle(asks)]
pub fn asks_payload(cond: &Cond) -> bool
    ensures { result ≡ asking.asks_payload (view_cond cond.now) }
{
    match cond {
        Cond::Any(members) => any_asks(members.as_slice()),
        Cond::All(members) => any_asks(members.as_slice()),
        Cond::Not(inner) => asks_payload(inner),
        Cond::Defined(_) => false,
        Cond::Compares { left, right, .. } => {
            let first = sum_asks(left.as_slice());
            let second = sum_asks(right.as_slice());
            if first { true } else { second }
        }
    }
}

/// Adds a name with the instance bound to it.
fn add_bound(
    alloc: Global,
    name: &Text,
    instance: u32,
    found: &mut Vec<Bound>,
) -> Result<(), NoMemory>
    ensures { OnOk result (found.new.items
        ≡ found.old.items ++ record { name = name.now; instance = instance } ∷ []) }
{
    let name = name.copy(alloc)?;
    found.push(Bound { name, instance })?;
    Ok(())
}

/// Adds what a binding gives to the vertical iterators.
fn add_down(
    alloc: Global,
    names: &Iterators,
    binding: &[u32],
    found: &mut Vec<Bound>,
) -> Result<(), NoMemory>
    ensures { OnOk result (found.new.items
        ≡ found.old.items ++ asking.names_down names.now binding.now) }
{
    'names: for at in 0..binding.len() {
        match names.name(at) {
            Some(name) => add_bound(alloc, name, binding[at], found)?,
            None => return Ok(()),
        }
    }
    Ok(())
}

/// Adds the horizontal iterators of parts with the instances there.
fn add_across(
    alloc: Global,
    parts: &[Part],
    instances: &[u32],
    found: &mut Vec<Bound>,
) -> Result<(), NoMemory>
    ensures { OnOk result (found.new.items
        ≡ found.old.items ++ asking.names_across parts.now instances.now) }
{
    let mut rest = parts;
    let mut left = instances;
    'parts: while let [part, more @ ..] = rest {
        let [instance, others @ ..] = left else {
            return Ok(());
        };
        match &part.at {
            At::Across(name) => add_bound(alloc, name, *instance, found)?,
            _ => (),
        }
        rest = more;
        left = others;
    }
    Ok(())
}

/// The names that the condition of a pattern may ask for at a path.
pub fn condition_names(
    alloc: Global,
    names: &Iterators,
    binding: &[u32],
    parts: &[Part],
    path: &Fmri,
) -> Result<Vec<Bound>, NoMemory>
    ensures { IfOk result (λ found. found.items
        ≡ asking.condition_names names.now binding.now parts.now path.now) }
{
    let mut found = Vec::new(alloc);
    add_down(alloc, names, binding, &mut found)?;
    let instances = path.instances();
    add_across(alloc, parts, instances.as_slice(), &mut found)?;
    Ok(found)
}
