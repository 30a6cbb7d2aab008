ghost use Rattle.std.specs.Prelude.{◌≡◌, ℕ, List, refl, IfOk, Some, nat_eq};
ghost use Rattle.std.specs.Ordering.{on, eq_of_both};
ghost use Rattle.std.specs.Cmp.{partial_order_from_agreeing_total};
ghost use Rattle.std.specs.Cmp.Lexicographic.{pointwise};
ghost use Rattle.std.specs.Cmp.Rules.{comparing};
ghost use Rattle.std.proofs.Common.{rules};
ghost use Rattle.fm_name.specs.Events.{event_eq, event_cmp, event_cmp_total, event_cmp_partial};
ghost use Rattle.fm_name.specs.Events.{event_cmp_ties};

use crate::classes::Class;
use crate::paths::Fmri;
use fm_bytes::{Copies, NoMemory};
use std::alloc::Global;
use std::cmp::Ordering;

/// An event: a class at a path.
#[derive(Debug, Drop)]
pub struct EventName {
    pub class: Class,
    pub path: Fmri,
}

impl EventName {
    /// An equal event.
    pub fn copy(&self) -> Result<EventName, NoMemory>
        ensures { IfOk result (λ event. event ≡ self.now) }
    {
        let class = self.class.copy()?;
        let path = self.path.copy()?;
        Ok(EventName { class, path })
    }
}

impl Copies for EventName {
    fn copy(&self, _alloc: Global) -> Result<EventName, NoMemory> {
        self.copy()
    }
}

impl PartialEq for EventName {
    ghost eq = { event_eq };

    ghost laws = { Prim.search (comparing, rules) };

    fn eq(&self, other: &EventName) -> bool {
        self.path == other.path && self.class == other.class
    }
}

impl Eq for EventName {
    ghost laws = { Prim.search (comparing, rules) };
}

impl PartialOrd for EventName {
    ghost partial_cmp = { λ x y. Some (event_cmp x y) };

    ghost laws = { event_cmp_partial };

    fn partial_cmp(&self, other: &EventName) -> Option<Ordering> {
        Some(self.cmp(other))
    }
}

impl Ord for EventName {
    ghost cmp = { event_cmp };

    ghost total = { event_cmp_total };

    ghost matches_partial_cmp = { λ x y. refl };

    ghost matches_eq = { event_cmp_ties };

    #[tactic(auto, unfolding(crate::specs::Events::event_cmp))]
    fn cmp(&self, other: &EventName) -> Ordering {
        self.path
            .cmp(&other.path)
            .then(self.class.cmp(&other.class))
    }
}
