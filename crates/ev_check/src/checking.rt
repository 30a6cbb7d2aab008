//! The call that checks a rule file, phase by phase.
ghost use Rattle.std.specs.Prelude.{◌≡◌, IfOk, IfErr, OnOk, MatchResult};
ghost use Rattle.ev_check.specs.CheckedFile.{IsFileOf};
ghost use Rattle.ev_check.specs.Declarations.{engines_in, events_in};
ghost use Rattle.ev_check.specs.Drawn.{causes_in, effects_in};
ghost use Rattle.ev_check.specs.Faults.{IsAcyclic, IsAnswer, IsArrowAnswer, IsChecked};
ghost use Rattle.ev_check.specs.Faults.{IsCheckFault, IsTripFree};

use crate::arrows::draw;
use crate::build::build;
use crate::checked::Checked;
use crate::cycles::check_cycle;
use crate::declared_set::DeclaredSet;
use crate::kinds::CheckFault;
use crate::phases::{check_twice, check_undeclared, check_words};
use crate::trips::check_trips;
use ev_tree::{Statement, Tree};
use std::alloc::Global;

/// The fourth and the fifth phase, along the arrows between the events.
fn check_arrows(
    alloc: Global,
    statements: &[Statement],
    events: &DeclaredSet,
) -> Result<(), CheckFault>
    requires { events.now ≡ events_in statements.now }
    ensures trips { OnOk result (IsTripFree statements.now) }
    ensures acyclic { OnOk result (IsAcyclic statements.now) }
    ensures err { IfErr result (IsAnswer (IsArrowAnswer statements.now)) }
{
    let arrows = draw(alloc, events, statements)?;
    check_trips(alloc, statements, events, &arrows)?;
    check_cycle(alloc, statements, events, &arrows)?;
    Ok(())
}

/// Checks a list of statements.
fn check_statements(alloc: Global, statements: &[Statement]) -> Result<Checked, CheckFault>
    ensures ok { OnOk result (IsChecked statements.now) }
    ensures file { IfOk result (IsFileOf statements.now) }
    ensures err { IfErr result (IsAnswer (IsCheckFault statements.now)) }
{
    check_words(alloc, statements)?;
    let mut events = DeclaredSet::new(alloc);
    let mut engines = DeclaredSet::new(alloc);
    check_twice(alloc, statements, &mut events, &mut engines)?;
    check_undeclared(alloc, statements, &events, &engines)?;
    check_arrows(alloc, statements, &events)?;
    let checked = build(alloc, statements, &events, &engines)?;
    Ok(checked)
}

/// Checks a rule file: a checked one, or its first fault. A fault is the first of its phase, and a
/// phase is looked at only where the ones before it found nothing.
pub fn check(alloc: Global, tree: &Tree) -> Result<Checked, CheckFault>
    ensures ok { OnOk result (IsChecked tree.now.statements) }
    ensures file { IfOk result (IsFileOf tree.now.statements) }
    ensures only { IsChecked tree.now.statements
        → MatchResult result (λ _. Unit {0}) (λ e. e ≡ CheckFault.NoMemory) }
    ensures err { IfErr result (IsAnswer (IsCheckFault tree.now.statements)) }
{
    check_statements(alloc, tree.statements.as_slice())
}
