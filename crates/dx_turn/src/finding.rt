//! Reports by their names.

ghost use Rattle.std.specs.Prelude.{◌≡◌};
ghost use Rattle.dx_step.specs.Reports.{declares, report_named};
ghost use Rattle.dx_rules.specs.ReportIndex.{event_by};
ghost use Rattle.dx_turn.specs.Finding.{IsDeclared};
ghost use Rattle.dx_turn.specs.Grounds.{IsGround};

use crate::ground::Ground;
use fm_name::{Class, Fmri};

/// Whether some report of the graph has the class.
pub(crate) fn declares(ground: &Ground<'_>, class: &Class) -> bool
    requires { IsGround ground.now }
    ensures { result ≡ declares ground.now.graph.now class.now }
{
    ground.rules.declares(ground.conf, class)
}

/// The report of a path and a class.
pub(crate) fn report_named(ground: &Ground<'_>, name: &(Fmri, Class)) -> Option<u32>
    requires { IsGround ground.now }
    ensures named { result ≡ report_named ground.now.graph.now (event_by name.now) }
    ensures declared { IsDeclared ground.now.graph.now (event_by name.now) result }
{
    ground.rules.report_named(ground.conf, name)
}
