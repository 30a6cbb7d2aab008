//! Laws of what is possible.

ghost use Rattle.dx_explain.specs.Laws.{PossibleShrinks, SameGreatest, Decided};

/// While more is seen, less is allowed and more links are cut, what is possible only shrinks.
pub fn possible_shrinks()
    ensures { PossibleShrinks }
{}

/// The greatest stories within two allowed sets that agree on reports have the same members.
pub fn same_greatest()
    ensures { SameGreatest }
{}

/// Where nothing is pending, the roots that are possible are those that explain.
pub fn decided()
    ensures { Decided }
{}
