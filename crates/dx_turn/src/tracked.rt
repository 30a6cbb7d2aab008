//! Open cases as a turn changes them.

ghost use Rattle.std.specs.Prelude.{◌≡◌, ◌∷◌, ℕ, [], Some, None, true, false, option_copied};
ghost use Rattle.std.specs.List.{list_any};
ghost use Rattle.ev_graph.specs.Lawful.{GraphValue};
ghost use Rattle.dx_explain.specs.Cases.{takes_report};
ghost use Rattle.dx_turn.specs.Tracking.{now_of, opens_of, IsTrackedAt, HasOpen};
ghost use Rattle.dx_turn.specs.Standing.{after_turn, before_turn, has_kept, is_still};

use dx_case::Case;

/// An open case, as it is before the turn and as the turn has changed it. Nothing that was there
/// before is changed, so that it can be left as it was.
#[derive(Drop)]
pub struct Tracked {
    /// As it was before the turn; none where the turn opened it.
    pub(crate) kept: Option<Case>,
    /// As the turn has changed it.
    changed: Option<Case>,
    /// Whether the turn has decided it.
    decided: bool,
}

impl Tracked {
    /// An open case, before any turn.
    pub fn new(case: Case) -> Tracked
        ensures { result ≡ record { kept = Some case; changed = None; decided = false } }
    {
        Tracked {
            kept: Some(case),
            changed: None,
            decided: false,
        }
    }

    /// The case as it was before the turn; none where the turn opened it.
    pub fn kept(&self) -> Option<&Case>
        ensures { option_copied result ≡ self.now.kept }
    {
        self.kept.as_ref()
    }

    /// No case: one that the turn is about to open.
    pub(crate) fn blank() -> Tracked
        ensures { result ≡ record { kept = None; changed = None; decided = false } }
    {
        Tracked {
            kept: None,
            changed: None,
            decided: false,
        }
    }

    /// The turn has changed the case to this one.
    pub(crate) fn change(&mut self, case: Case)
        ensures { self.new ≡ record self.old { changed = Some case } }
    {
        self.changed = Some(case);
    }

    /// The turn has decided the case.
    pub(crate) fn decide(&mut self)
        ensures { self.new ≡ record self.old { decided = true } }
    {
        self.decided = true;
    }

    /// The case, as it is now.
    pub(crate) fn current(&self) -> &Case
        requires { HasOpen self.now }
        ensures { now_of self.now ≡ result.now ∷ [] }
    {
        match (&self.changed, &self.kept) {
            (Some(case), _) => case,
            (None, Some(case)) => case,
            (None, None) => unreachable!(),
        }
    }

    /// Whether a report of the node joins it.
    pub(crate) fn takes(&self, node: u32) -> bool
        ensures { (g : GraphValue) (time : ℕ) → IsTrackedAt g time self.now
            → result ≡ list_any (takes_report g time node) (opens_of self.now) }
    {
        if self.decided {
            return false;
        }
        match (&self.changed, &self.kept) {
            (Some(case), _) => case.fits(node),
            (None, Some(case)) => case.fits(node),
            (None, None) => false,
        }
    }

    /// Whether it is open: whether there is a case, which the turn has not decided.
    pub(crate) fn is_open(&self) -> bool
        ensures open { result ≡ true → HasOpen self.now }
        ensures none { result ≡ false → now_of self.now ≡ [] }
    {
        if self.decided {
            return false;
        }
        match (&self.changed, &self.kept) {
            (Some(_), _) => true,
            (None, Some(_)) => true,
            (None, None) => false,
        }
    }

    /// The turn is over: the case is from now on as the turn has left it.
    pub(crate) fn end_turn(&mut self)
        ensures { self.new ≡ after_turn self.old }
    {
        // Nothing is written where nothing was changed, since most cases are.
        if self.decided {
            self.kept = None;
            self.changed = None;
            self.decided = false;
        } else if self.changed.is_some() {
            self.kept = self.changed.take();
        }
    }

    /// The turn is undone: the case is as it was before it.
    pub(crate) fn undo_turn(&mut self)
        ensures { self.new ≡ before_turn self.old }
    {
        self.changed = None;
        self.decided = false;
    }

    /// Whether it is a case that the turn has not changed.
    pub(crate) fn is_still(&self) -> bool
        ensures { result ≡ is_still self.now }
    {
        self.kept.is_some() && self.changed.is_none() && !self.decided
    }

    /// Whether there was a case before the turn.
    pub(crate) fn has_kept(&self) -> bool
        ensures { result ≡ has_kept self.now }
    {
        self.kept.is_some()
    }
}
