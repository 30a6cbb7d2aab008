//! Laws of generated entries, each as the contract of a function without a body.

ghost use Rattle.std.specs.Prelude.{ℕ, List};
ghost use Rattle.fm_name.specs.declared.events.EventName.{EventName};
ghost use Rattle.fm_gen.specs.Generated.{IsGenerated};

/// There is a report in each turn and the tick behind them, and their moments do not fall.
pub fn entries_are_generated()
    ensures { (seed start : ℕ) (reports : List EventName) → IsGenerated seed start reports }
{}
