// What bytes are as slots, in one way at most.
ghost use Rattle.std.specs.Prelude.{◌≡◌, ℕ, List, Bool};
ghost use Rattle.std.specs.declared.option.Option.{Option};
ghost use Rattle.fm_slots.specs.Format.{SlotOf, IsSlot, IsDamagedSlot};
ghost use Rattle.fm_slots.specs.InForce.{InForce};

/// Bytes are one slot at most, and a damaged slot is none. So of a pair one slot is in force at
/// most.
pub fn slots_are_one()
    ensures one { (bytes : List ℕ) (s t : Option SlotOf) → IsSlot bytes s → IsSlot bytes t → s ≡ t }
    ensures damaged { (bytes : List ℕ) (s : Option SlotOf) → IsDamagedSlot bytes → IsSlot bytes s
        → ⊥ }
    ensures in_force { (a b : List ℕ) (found other : Option (Bool × SlotOf)) → InForce a b found
        → InForce a b other → found ≡ other }
{}
