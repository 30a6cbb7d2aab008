//! The paths at which a pattern gives its event.

ghost use Rattle.std.specs.Prelude.{◌≡◌, filter, length, map, IfOk};
ghost use Rattle.ev_tree.specs.Pattern.{view_pattern, view_option};
ghost use Rattle.ev_events.specs.Sheets.{IsTableOf};
ghost use Rattle.ev_events.specs.Giving as giving;

use crate::asking::{asks_payload, condition_names};
use crate::names::Iterators;
use ev_expr::holds_near;
use ev_join::{Row, Table};
use ev_tree::SidePattern;
use fm_bytes::NoMemory;
use fm_name::Fmri;
use fm_topo::Topo;
use std::alloc::Global;

/// A binding of iterators over a topology.
#[derive(Drop)]
pub struct Binding<'a> {
    pub topo: &'a Topo,
    pub names: &'a Iterators,
    pub instances: &'a [u32],
}

/// Whether the condition of a pattern passes at a path, which is sought at a number first.
fn passes(
    alloc: Global,
    binding: &Binding,
    pattern: &SidePattern,
    near: usize,
    path: &Fmri,
) -> Result<bool, NoMemory>
    ensures { IfOk result (λ passes. passes ≡ giving.passes binding.now.topo.now
        binding.now.names.now binding.now.instances.now (view_pattern pattern.now) path.now
        (view_option pattern.now.cond)) }
{
    let Some(cond) = &pattern.cond else {
        return Ok(true);
    };
    if asks_payload(cond) {
        return Ok(true);
    }
    let names = condition_names(
        alloc,
        binding.names,
        binding.instances,
        pattern.parts.as_slice(),
        path,
    )?;
    Ok(holds_near(cond, &names, binding.topo, near, path))
}

/// Whether there is a path of this number, at which the condition of a pattern passes.
fn passes_at(
    alloc: Global,
    binding: &Binding,
    pattern: &SidePattern,
    at: u32,
) -> Result<bool, NoMemory>
    ensures { IfOk result (λ passes. passes ≡ giving.passes_at binding.now.topo.now
        binding.now.names.now binding.now.instances.now (view_pattern pattern.now) at) }
{
    if (at as usize) < binding.topo.len() {
        let path = binding.topo.path(at as usize);
        passes(alloc, binding, pattern, at as usize, path)
    } else {
        Ok(false)
    }
}

/// The numbers of the rows at whose paths the condition of a pattern passes.
fn passing(
    alloc: Global,
    binding: &Binding,
    pattern: &SidePattern,
    rows: &[Row],
) -> Result<Vec<u32>, NoMemory>
    ensures { IfOk result (λ places. places.items ≡ filter (giving.passes_at binding.now.topo.now
        binding.now.names.now binding.now.instances.now (view_pattern pattern.now))
        (map (λ r. r.path) rows.now)) }
{
    let mut places = Vec::new(alloc);
    'rows: for row in rows {
        if passes_at(alloc, binding, pattern, row.path)? {
            places.push(row.path)?;
        }
    }
    Ok(places)
}

/// The numbers of the paths at which a pattern gives its event under a binding, ascending. The
/// table is that of the pattern.
pub fn places_of(
    alloc: Global,
    binding: &Binding,
    pattern: &SidePattern,
    table: &Table,
) -> Result<Vec<u32>, NoMemory>
    requires table { IsTableOf binding.now.topo.now binding.now.names.now pattern.now.parts
        table.now }
    requires full { length binding.now.instances.now ≡ length binding.now.names.now }
    ensures { IfOk result (λ places. places.items ≡ giving.giving binding.now.topo.now
        binding.now.names.now binding.now.instances.now (view_pattern pattern.now)) }
{
    let mut places = passing(alloc, binding, pattern, table.rows_at(binding.instances))?;
    places.sort_unstable();
    Ok(places)
}
