//! The first three phases: each statement in itself, what is declared twice, what is not declared.
ghost use Rattle.std.specs.Prelude.{◌≡◌, ◌++◌, [], false, OnOk, IfErr, option_to_list, map};
ghost use Rattle.ev_check.specs.Declarations.{engine_in, engines_in, event_in, events_in};
ghost use Rattle.ev_check.specs.Declarations.{is_again, twice_after};
ghost use Rattle.ev_check.specs.Faults.{IsAnswer, IsFirst, Passes, in_itself, finds_undeclared};

use crate::declared_set::DeclaredSet;
use crate::kinds::CheckFault;
use crate::undeclared::{is_again, known, names_undeclared};
use ev_tree::Statement;
use ev_words::{CheckKind, word_of};
use fm_bytes::NoMemory;
use std::alloc::Global;

/// The first phase: each statement in itself.
pub(crate) fn check_words(alloc: Global, statements: &[Statement]) -> Result<(), CheckFault>
    ensures ok { OnOk result (Passes in_itself statements.now) }
    ensures err { IfErr result (IsAnswer (IsFirst in_itself statements.now)) }
{
    for statement in statements {
        if let Some(kind) = word_of(alloc, statement)? {
            return Err(CheckFault::At {
                place: statement.place(),
                kind,
            });
        }
    }
    Ok(())
}

/// Puts what the statement declares into its set.
fn note(
    alloc: Global,
    statement: &Statement,
    events: &mut DeclaredSet,
    engines: &mut DeclaredSet,
) -> Result<(), NoMemory>
    requires { is_again events.old engines.old statement.now ≡ false }
    ensures events { OnOk result
        (events.new ≡ events.old ++ option_to_list (event_in statement.now)) }
    ensures engines { OnOk result
        (engines.new ≡ engines.old ++ option_to_list (engine_in statement.now)) }
{
    match statement {
        Statement::Event { event, .. } => events.push(known(alloc, event)?),
        Statement::Engine { engine, .. } => engines.push(known(alloc, engine)?),
        Statement::Prop { .. } => Ok(()),
    }
}

/// The second phase: nothing is declared twice. What is declared comes into the two lists, which
/// are empty.
pub(crate) fn check_twice(
    alloc: Global,
    statements: &[Statement],
    events: &mut DeclaredSet,
    engines: &mut DeclaredSet,
) -> Result<(), CheckFault>
    requires events { events.old ≡ [] }
    requires engines { engines.old ≡ [] }
    ensures ok { OnOk result (Passes twice_after statements.now) }
    ensures events { OnOk result (events.new ≡ events_in statements.now) }
    ensures engines { OnOk result (engines.new ≡ engines_in statements.now) }
    ensures err { IfErr result (IsAnswer (IsFirst twice_after statements.now)) }
{
    for statement in statements {
        let again = is_again(alloc, events, engines, statement)?;
        if again {
            return Err(CheckFault::At {
                place: statement.place(),
                kind: CheckKind::Twice,
            });
        }
        note(alloc, statement, events, engines)?;
    }
    Ok(())
}

/// The third phase: each event and engine that is named is declared.
pub(crate) fn check_undeclared(
    alloc: Global,
    statements: &[Statement],
    events: &DeclaredSet,
    engines: &DeclaredSet,
) -> Result<(), CheckFault>
    requires events { events.now ≡ events_in statements.now }
    requires engines { engines.now ≡ engines_in statements.now }
    ensures ok { OnOk result (Passes (finds_undeclared statements.now) statements.now) }
    ensures err { IfErr result
        (IsAnswer (IsFirst (finds_undeclared statements.now) statements.now)) }
{
    for statement in statements {
        let undeclared = names_undeclared(alloc, events, engines, statement)?;
        if undeclared {
            return Err(CheckFault::At {
                place: statement.place(),
                kind: CheckKind::Undeclared,
            });
        }
    }
    Ok(())
}
