ghost use Rattle.std.specs.Prelude.{◌≡◌, ◌∷◌, [], ◌++◌, OnOk, map, codes};
ghost use Rattle.ev_tree.specs.Condition.{conditions, view_cond, any, all, Negated, Defined};
ghost use Rattle.ev_tree.specs.Condition.{Compares};
ghost use Rattle.ev_tree.specs.Pattern.{view_option};
ghost use Rattle.ev_tree.specs.Printing as show;
ghost use Rattle.ev_tree.specs.Text.{gap, text_of};
ghost use Rattle.ev_tree.specs.Tok as tok;

use crate::lists::{Operands, TreeText};
use crate::print_sums::{print_compare, print_sum};
use crate::print_words::{print_call, put};
use crate::tree::{Compare, Cond};
use fm_bytes::NoMemory;

/// What a condition stands in: nothing, an `||`, or an `&&` or a negation.
#[derive(Clone, Copy, PartialEq, Eq)]
pub enum Level {
    Whole,
    InAny,
    InAll,
}

fn wraps_any(level: Level) -> bool
    ensures { result ≡ show.wraps_any level }
{
    match level {
        Level::Whole => false,
        Level::InAny => true,
        Level::InAll => true,
    }
}

fn wraps_all(level: Level) -> bool
    ensures { result ≡ show.wraps_all level }
{
    match level {
        Level::Whole => false,
        Level::InAny => false,
        Level::InAll => true,
    }
}

/// Adds the members of an `Any` or an `All`, the sign between two.
#[cycle(print)]
fn print_row(out: &mut Vec<u8>, sign: &[u8], level: Level, conds: &[Cond]) -> Result<(), NoMemory>
    requires { gap (tok.Sign sign.now) ≡ 32 }
    ensures { OnOk result
        (out.new.items ≡ out.old.items
        ++ text_of (show.row sign.now level (conditions (map view_cond conds.now)))) }
{
    let Some((first, others)) = conds.split_first() else {
        return Ok(());
    };
    print_cond(out, level, first)?;
    for other in others {
        put(out, sign)?;
        print_cond(out, level, other)?;
    }
    Ok(())
}

#[cycle(print)]
fn print_any(out: &mut Vec<u8>, level: Level, members: &[Cond]) -> Result<(), NoMemory>
    ensures { OnOk result
        (out.new.items ≡ out.old.items
        ++ text_of (show.show level (any (map view_cond members.now)))) }
{
    if wraps_any(level) {
        put(out, b"(")?;
        print_row(out, b"||", Level::InAny, members)?;
        put(out, b")")
    } else {
        print_row(out, b"||", Level::InAny, members)
    }
}

#[cycle(print)]
fn print_all(out: &mut Vec<u8>, level: Level, members: &[Cond]) -> Result<(), NoMemory>
    ensures { OnOk result
        (out.new.items ≡ out.old.items
        ++ text_of (show.show level (all (map view_cond members.now)))) }
{
    if wraps_all(level) {
        put(out, b"(")?;
        print_row(out, b"&&", Level::InAll, members)?;
        put(out, b")")
    } else {
        print_row(out, b"&&", Level::InAll, members)
    }
}

#[cycle(print)]
fn print_negated(out: &mut Vec<u8>, inner: &Cond) -> Result<(), NoMemory>
    ensures { OnOk result
        (out.new.items ≡ out.old.items
        ++ text_of (show.show Level.Whole (Negated (view_cond inner.now)))) }
{
    put(out, b"!")?;
    print_cond(out, Level::InAll, inner)
}

fn print_compares(
    out: &mut Vec<u8>,
    left: &Operands,
    how: Compare,
    right: &Operands,
) -> Result<(), NoMemory>
    ensures { OnOk result
        (out.new.items ≡ out.old.items
        ++ text_of (show.show Level.Whole (Compares left.now how right.now))) }
{
    print_sum(out, left.as_slice())?;
    print_compare(out, how)?;
    print_sum(out, right.as_slice())
}

fn print_defined(out: &mut Vec<u8>, name: &TreeText) -> Result<(), NoMemory>
    ensures { OnOk result
        (out.new.items ≡ out.old.items ++ text_of (show.show Level.Whole (Defined name.now))) }
{
    print_call(out, b"confprop_defined", name)
}

/// Adds a condition, in parentheses where it would not stand for itself at this level.
#[cycle(print)]
fn print_cond(out: &mut Vec<u8>, level: Level, cond: &Cond) -> Result<(), NoMemory>
    ensures { OnOk result
        (out.new.items ≡ out.old.items ++ text_of (show.show level (view_cond cond.now))) }
{
    match cond {
        Cond::Any(members) => print_any(out, level, members.as_slice()),
        Cond::All(members) => print_all(out, level, members.as_slice()),
        Cond::Not(inner) => print_negated(out, inner),
        Cond::Defined(name) => print_defined(out, name),
        Cond::Compares { left, how, right } => print_compares(out, left, *how, right),
    }
}

pub(crate) fn print_guard(out: &mut Vec<u8>, cond: &Option<Cond>) -> Result<(), NoMemory>
    ensures { OnOk result
        (out.new.items ≡ out.old.items ++ text_of (show.guard_tokens (view_option cond.now))) }
{
    match cond {
        None => Ok(()),
        Some(cond) => {
            put(out, b"{")?;
            print_cond(out, Level::Whole, cond)?;
            put(out, b"}")
        }
    }
}
