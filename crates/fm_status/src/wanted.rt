//! The resources that are wanted out of use.

ghost use Rattle.std.specs.Prelude.{◌≡◌, List, [], flat_map, IfOk, OnOk, nat_eq};
ghost use Rattle.std.specs.List.Sorted.{IsStrictlySortedBy};
ghost use Rattle.std.specs.Cmp.Lexicographic.{pointwise};
ghost use Rattle.indexmap.specs.IndexSet.{insert_all, insert_key};
ghost use Rattle.fm_name.specs.Order.{path_cmp};
ghost use Rattle.fm_entry.specs.declared.list_event.ListEvent.{ListEvent};
ghost use Rattle.fm_status.specs.Wanted.{is_solved, is_present, is_out, out_paths, row_paths};
ghost use Rattle.fm_status.specs.Wanted.{IsWantedOf};

use fm_bytes::NoMemory;
use fm_entry::{ListEvent, ListKind, Mark, Suspect};
use fm_name::Fmri;
use indexmap::IndexSet;
use std::alloc::Global;
use std::marker::Model;

/// Paths of resources that are wanted out of use. Contracts see the list of the paths, which
/// ascends strictly: none stands there twice.
#[derive(Debug, Drop)]
pub struct Wanted {
    paths: Vec<Fmri>,
}

impl Model for Wanted {
    ghost use Rattle.std.specs.Prelude.{ℕ, List};
    ghost use Rattle.std.specs.List.Sorted.{IsStrictlySortedBy};
    ghost use Rattle.fm_name.specs.Order.{path_cmp};

    ghost Value = { List (List ℕ) };

    ghost view = { λ w. w.paths.items };

    ghost invariant = { λ w. IsStrictlySortedBy path_cmp w.paths.items };
}

impl Wanted {
    /// The paths in path order.
    pub fn paths(&self) -> &[Fmri]
        ensures same { result.now ≡ self.now }
        ensures ascend { IsStrictlySortedBy path_cmp self.now }
    {
        self.paths.as_slice()
    }

    /// The paths that rows want, which were met row by row.
    pub(crate) fn of(alloc: Global, met: IndexSet<Fmri>) -> Result<Wanted, NoMemory>
        ensures { (rows : List ListEvent)
            → met.keys ≡ insert_all (pointwise nat_eq) [] (flat_map row_paths rows)
            → IfOk result (IsWantedOf rows) }
    {
        let paths = sorted_paths(alloc, met)?;
        Ok(Wanted { paths })
    }
}

/// The paths of a set in path order. They are sorted when each stands there once, so that many
/// suspects of few resources take few comparisons.
fn sorted_paths(alloc: Global, met: IndexSet<Fmri>) -> Result<Vec<Fmri>, NoMemory>
    ensures ascend { IfOk result (λ paths. IsStrictlySortedBy path_cmp paths.items) }
    ensures wanted { (rows : List ListEvent)
        → met.keys ≡ insert_all (pointwise nat_eq) [] (flat_map row_paths rows)
        → IfOk result (λ paths. IsWantedOf rows paths.items) }
{
    let mut paths: Vec<Fmri> = Vec::from_iter(alloc, met)?;
    paths.sort_unstable();
    // drops none, since a set holds no path twice; the proof takes the strict order from it
    paths.dedup();
    Ok(paths)
}

/// Whether a row of this kind is of a case that is solved and not yet repaired.
pub fn is_solved(kind: &ListKind) -> bool
    ensures { result ≡ is_solved kind.now }
{
    match kind {
        ListKind::Suspect => true,
        ListKind::Updated => true,
        _ => false,
    }
}

/// Whether the resource of a suspect is to be out of use.
fn is_out(suspect: &Suspect) -> bool
    ensures { result ≡ is_out suspect.now }
{
    match suspect.mark {
        Mark::Present => suspect.retire,
        _ => false,
    }
}

/// Puts a path, unless it stands there.
fn put_path(path: &Fmri, met: &mut IndexSet<Fmri>) -> Result<(), NoMemory>
    ensures { OnOk result
        (met.new.keys ≡ insert_key (pointwise nat_eq) met.old.keys path.now) }
{
    if !met.contains(path) {
        met.insert(path.copy()?)?;
    }
    Ok(())
}

/// Puts the paths of the suspects of a row whose resources are to be out of use.
pub(crate) fn put_paths(row: &ListEvent, met: &mut IndexSet<Fmri>) -> Result<(), NoMemory>
    ensures { OnOk result (met.new.keys
        ≡ insert_all (pointwise nat_eq) met.old.keys (row_paths row.now)) }
{
    if !is_solved(&row.kind) {
        return Ok(());
    }
    'suspects: for suspect in row.suspects.as_slice() {
        if is_out(suspect) {
            put_path(&suspect.path, met)?;
        }
    }
    Ok(())
}
