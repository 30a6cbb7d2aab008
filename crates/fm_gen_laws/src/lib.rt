//! A value of the definition of what a number generates.
//!
//! `fm_gen` promises the entries of a number by a recurrence (`specs/Generated` there). What the
//! recurrence gives is stated here once in plain numbers, worked out apart from it.
#![tactic(auto)]

ghost use Rattle.std.specs.Prelude.{◌≡◌};
ghost use Rattle.fm_gen.specs.Generated.{drawn, draw_of};

/// The state after the first draw from 7, and what that draw gives.
#[tactic(auto, unfolding(fm_gen::specs::Generated::drawn))]
pub fn first_draw_of_seven()
    ensures state { drawn 7 ≡ 9098160460397411210 }
    ensures draw { draw_of (drawn 7) ≡ 1059165278 }
{}
