//! One actuator, brought to hold what is wanted of its kind.

ghost use Rattle.std.specs.Prelude.{◌≡◌, ◌≤◌, map, length, IfOk, IfSome, OnOk};
ghost use Rattle.std.specs.List.{filter};
ghost use Rattle.std.specs.BTreeSet.{difference, IsFromIterResult};
ghost use Rattle.fm_name.specs.Order.{path_cmp};
ghost use Rattle.fm_act.specs.HeldPaths.{ActCallCause};
ghost use Rattle.fm_act.specs.Changes.{AddsPaths, TakesPaths};
ghost use Rattle.fm_act.specs.Reconciled.{is_of_kind, BecomesWanted};

use crate::act_calls::ActCalls;
use crate::faults::ActFault;
use fm_bytes::NoMemory;
use fm_name::Fmri;
use std::alloc::Global;
use std::collections::BTreeSet;

/// How many paths an actuator lists.
const MOST_LISTED: u32 = 65_536;

/// Whether the last part of a path has the name.
#[tactic(auto, unfolding(crate::specs::Reconciled::is_of_kind))]
fn is_of_kind(kind: &str, path: &Fmri) -> bool
    ensures { result ≡ is_of_kind kind.now path.now }
{
    path.name(path.depth() - 1) == kind
}

/// The paths of a kind, in their order.
fn paths_of_kind(alloc: Global, kind: &str, paths: &[Fmri]) -> Result<Vec<Fmri>, NoMemory>
    ensures { IfOk result (λ found. found.items ≡ filter (is_of_kind kind.now) paths.now) }
{
    let mut found = Vec::new(alloc);
    'paths: for path in paths {
        if is_of_kind(kind, path) {
            found.push(path.copy()?)?;
        }
    }
    Ok(found)
}

/// The paths that an actuator lists.
fn listed_paths<A: ActCalls>(alloc: Global, act: &mut A) -> Result<Vec<Fmri>, ActFault>
    ensures found { IfOk result (λ paths. IfSome (A.held act.old)
        (λ xs. length xs ≤ 65536 → paths.items ≡ xs)) }
    ensures same { A.held act.new ≡ A.held act.old }
    ensures kind { A.kind_text act.new ≡ A.kind_text act.old }
    ensures cause { ActCallCause (A.act_failures act.old) (A.act_failures act.new) result }
{
    let mut paths = Vec::new(alloc);
    'places: for at in 0..MOST_LISTED {
        match act.listed(at)? {
            Some(path) => paths.push(path)?,
            None => return Ok(paths),
        }
    }
    Ok(paths)
}

/// Takes paths back into use, up to the first call that fails.
#[tactic(auto, using(crate::proofs::Growing::takes_none, crate::proofs::Growing::takes_more))]
fn unretire_all<A: ActCalls>(act: &mut A, paths: &[&Fmri]) -> Result<(), ActFault>
    ensures ok { OnOk result
        (TakesPaths (map (λ p. p.now) paths.now) (A.held act.old) (A.held act.new)) }
    ensures kind { A.kind_text act.new ≡ A.kind_text act.old }
    ensures cause { ActCallCause (A.act_failures act.old) (A.act_failures act.new) result }
{
    'paths: for path in paths {
        act.unretire(path)?;
    }
    Ok(())
}

/// Takes paths out of use, up to the first call that fails.
#[tactic(auto, using(crate::proofs::Growing::adds_none, crate::proofs::Growing::adds_more))]
fn retire_all<A: ActCalls>(act: &mut A, paths: &[&Fmri]) -> Result<(), ActFault>
    ensures ok { OnOk result
        (AddsPaths (map (λ p. p.now) paths.now) (A.held act.old) (A.held act.new)) }
    ensures kind { A.kind_text act.new ≡ A.kind_text act.old }
    ensures cause { ActCallCause (A.act_failures act.old) (A.act_failures act.new) result }
{
    'paths: for path in paths {
        act.retire(path)?;
    }
    Ok(())
}

/// The set of paths.
fn set_of(alloc: Global, paths: Vec<Fmri>) -> Result<BTreeSet<Fmri>, NoMemory>
    ensures { IfOk result (IsFromIterResult path_cmp paths.items) }
{
    let set = paths.into_iter().collect(alloc)?;
    Ok(set)
}

/// The paths of the first set that the second lacks.
fn paths_without<'a>(
    alloc: Global,
    paths: &'a BTreeSet<Fmri>,
    others: &'a BTreeSet<Fmri>,
) -> Result<Vec<&'a Fmri>, NoMemory>
    ensures { IfOk result
        (λ left. map (λ p. p.now) left.items ≡ difference path_cmp paths.now others.now) }
{
    let left = paths.difference(others).collect(alloc)?;
    Ok(left)
}

/// Brings an actuator to hold what is wanted of its kind, up to the first call that fails.
pub(crate) fn settle_actuator<A: ActCalls>(
    alloc: Global,
    act: &mut A,
    wanted: &[Fmri],
) -> Result<(), ActFault>
    ensures ok { OnOk result
        (BecomesWanted (A.kind_text act.old) wanted.now (A.held act.old) (A.held act.new)) }
    ensures kind { A.kind_text act.new ≡ A.kind_text act.old }
    ensures cause { ActCallCause (A.act_failures act.old) (A.act_failures act.new) result }
{
    let wants = set_of(alloc, paths_of_kind(alloc, act.kind(), wanted)?)?;
    let holds = set_of(alloc, listed_paths(alloc, act)?)?;
    let others = paths_without(alloc, &holds, &wants)?;
    let missing = paths_without(alloc, &wants, &holds)?;
    unretire_all(act, &others)?;
    retire_all(act, &missing)
}
