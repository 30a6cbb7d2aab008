//! The iterators of a propagation statement, and the names that are none.
ghost use Rattle.std.specs.Prelude.{◌≡◌, ◌||◌, OnOk, IfOk, nat_eq};
ghost use Rattle.std.specs.List.{list_any};
ghost use Rattle.indexmap.specs.IndexSet.{contains_text};
ghost use Rattle.ev_words.specs.Iterators.{Adds, same_name, goes_down, goes_across, is_down};
ghost use Rattle.ev_words.specs.Iterators.{is_vertical, is_horizontal, is_long, is_free, is_mixed};
ghost use Rattle.ev_words.specs.Iterators.{has_odd_name};

use crate::attributes::either;
use crate::operands::operands_at;
use ev_tree::{At, Operand, Part, SidePattern, TreeText};
use fm_bytes::NoMemory;
use indexmap::IndexSet;
use std::alloc::Global;

/// Whether the two names are the same.
pub fn is_same(name: &TreeText, other: &TreeText) -> bool
    ensures { result ≡ same_name name.now other.now }
{
    name.get().as_bytes() == other.get().as_bytes()
}

/// Puts a name into a set.
fn add_name(alloc: Global, name: &TreeText, names: &mut IndexSet<String>) -> Result<(), NoMemory>
    ensures { OnOk result
        (Adds (contains_text names.old) (contains_text names.new) (λ v. same_name v name.now)) }
{
    let name = String::from_str(alloc, name.get())?;
    names.insert(name)?;
    Ok(())
}

/// Puts the vertical iterator of a part into a set, if it has one.
fn add_down(alloc: Global, part: &Part, names: &mut IndexSet<String>) -> Result<(), NoMemory>
    ensures { OnOk result
        (Adds (contains_text names.old) (contains_text names.new) (λ v. goes_down v part.now)) }
{
    match &part.at {
        At::Bare => add_name(alloc, &part.name, names),
        At::Down(name) => add_name(alloc, name, names),
        _ => Ok(()),
    }
}

/// Puts the horizontal iterator of a part into a set, if it has one.
fn add_across(alloc: Global, part: &Part, names: &mut IndexSet<String>) -> Result<(), NoMemory>
    ensures { OnOk result
        (Adds (contains_text names.old) (contains_text names.new) (λ v. goes_across v part.now)) }
{
    match &part.at {
        At::Across(name) => add_name(alloc, name, names),
        _ => Ok(()),
    }
}

/// Puts the vertical iterators of the parts into a set.
fn add_downs(alloc: Global, parts: &[Part], names: &mut IndexSet<String>) -> Result<(), NoMemory>
    ensures { OnOk result
        (Adds (contains_text names.old) (contains_text names.new)
        (λ v. list_any (goes_down v) parts.now)) }
{
    for part in parts {
        add_down(alloc, part, names)?;
    }
    Ok(())
}

/// Puts the horizontal iterators of the parts into a set.
fn add_acrosses(alloc: Global, parts: &[Part], names: &mut IndexSet<String>) -> Result<(), NoMemory>
    ensures { OnOk result
        (Adds (contains_text names.old) (contains_text names.new)
        (λ v. list_any (goes_across v) parts.now)) }
{
    for part in parts {
        add_across(alloc, part, names)?;
    }
    Ok(())
}

/// Puts the vertical iterators of a side into a set.
fn add_side(
    alloc: Global,
    side: &[SidePattern],
    names: &mut IndexSet<String>,
) -> Result<(), NoMemory>
    ensures { OnOk result
        (Adds (contains_text names.old) (contains_text names.new)
        (λ v. list_any (is_down v) side.now)) }
{
    for pattern in side {
        add_downs(alloc, pattern.parts.as_slice(), names)?;
    }
    Ok(())
}

/// The vertical iterators of a statement, in order of first appearance.
pub(crate) fn verticals(
    alloc: Global,
    left: &[SidePattern],
    right: &[SidePattern],
) -> Result<IndexSet<String>, NoMemory>
    ensures { IfOk result (λ names. contains_text names ≡ is_vertical left.now right.now) }
{
    let mut names = IndexSet::new(alloc);
    add_side(alloc, left, &mut names)?;
    add_side(alloc, right, &mut names)?;
    Ok(names)
}

/// The horizontal iterators of a pattern, in order of first appearance.
fn horizontals(alloc: Global, pattern: &SidePattern) -> Result<IndexSet<String>, NoMemory>
    ensures { IfOk result (λ names. contains_text names ≡ is_horizontal pattern.now) }
{
    let mut names = IndexSet::new(alloc);
    add_acrosses(alloc, pattern.parts.as_slice(), &mut names)?;
    Ok(names)
}

/// Whether the name is in the set.
fn has_name(names: &IndexSet<String>, name: &TreeText) -> bool
    ensures { result ≡ contains_text names.now name.now }
{
    names.contains(name.get())
}

/// Whether the name has over 32 bytes.
fn is_long(name: &TreeText) -> bool
    ensures { result ≡ is_long name.now }
{
    name.get().len() > 32
}

/// Whether one of the names has.
pub(crate) fn any_long(names: &[TreeText]) -> bool
    ensures { result ≡ list_any is_long names.now }
{
    for name in names {
        if is_long(name) {
            return true;
        }
    }
    false
}

/// Whether the operand is a name that is too long, or in neither of the sets of iterators.
fn is_free(down: &IndexSet<String>, across: &IndexSet<String>, operand: &Operand) -> bool
    ensures { result ≡ is_free (contains_text down.now) (contains_text across.now) operand.now }
{
    match operand {
        Operand::Name(name) => {
            let bound = either(has_name(down, name), has_name(across, name));
            either(is_long(name), !bound)
        }
        _ => false,
    }
}

/// Whether a name of the part is too long, or a horizontal iterator that is a vertical one too.
fn is_mixed(down: &IndexSet<String>, part: &Part) -> bool
    ensures { result ≡ is_mixed (contains_text down.now) part.now }
{
    let behind = match &part.at {
        At::Down(name) => is_long(name),
        At::Across(name) => either(is_long(name), has_name(down, name)),
        _ => false,
    };
    either(is_long(&part.name), behind)
}

/// Whether one of the operands is such a name.
fn any_free(down: &IndexSet<String>, across: &IndexSet<String>, operands: &[Operand]) -> bool
    ensures { result ≡ list_any (is_free (contains_text down.now) (contains_text across.now))
        operands.now }
{
    for operand in operands {
        if is_free(down, across, operand) {
            return true;
        }
    }
    false
}

/// Whether one of the parts has such a name.
fn any_mixed(down: &IndexSet<String>, parts: &[Part]) -> bool
    ensures { result ≡ list_any (is_mixed (contains_text down.now)) parts.now }
{
    for part in parts {
        if is_mixed(down, part) {
            return true;
        }
    }
    false
}

/// Whether some name of the pattern is too long, no iterator, or an iterator of both kinds, where
/// those are the vertical iterators of its statement.
fn has_odd_name(
    alloc: Global,
    down: &IndexSet<String>,
    pattern: &SidePattern,
) -> Result<bool, NoMemory>
    ensures { IfOk result (λ odd. odd ≡ has_odd_name (contains_text down.now) pattern.now) }
{
    let across = horizontals(alloc, pattern)?;
    let operands = operands_at(alloc, pattern)?;
    let free = any_free(down, &across, operands.as_slice());
    let mixed = any_mixed(down, pattern.parts.as_slice());
    Ok(either(free, mixed))
}

/// Whether some pattern of a side has such a name.
pub(crate) fn any_odd_name(
    alloc: Global,
    down: &IndexSet<String>,
    side: &[SidePattern],
) -> Result<bool, NoMemory>
    ensures { IfOk result (λ odd. odd ≡ list_any (has_odd_name (contains_text down.now)) side.now) }
{
    for pattern in side {
        if has_odd_name(alloc, down, pattern)? {
            return Ok(true);
        }
    }
    Ok(false)
}
