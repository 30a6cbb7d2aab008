//! What takes the payloads of a journal.

ghost use Rattle.std.specs.Prelude.{◌≡◌, ◌++◌, ◌∷◌, [], ℕ, List, IfOk, true, false};

use fm_bytes::NoMemory;
use std::alloc::Global;

/// What takes payloads one after another, up to the first that it refuses.
pub trait PayloadReader {
    /// It has taken just these payloads.
    ghost took: { Self → List (List ℕ) → Type 0 };

    /// The payload does not follow those that it has taken.
    ghost refuses: { Self → List ℕ → Type 0 };

    /// Both take payloads by the same rule.
    ghost same_rule: { Self → Self → Type 0 };

    /// Takes the payload, and answers whether it did.
    fn take(&mut self, alloc: Global, payload: &[u8]) -> Result<bool, NoMemory>
        ensures taken { IfOk result (λ taken. taken ≡ true → (payloads : List (List ℕ))
            → took self.old payloads → took self.new (payloads ++ payload.now ∷ [])) }
        ensures refused { IfOk result (λ taken. taken ≡ false → (payloads : List (List ℕ))
            → took self.old payloads → took self.new payloads × refuses self.new payload.now) }
        ensures rule { same_rule self.old self.new };

    ghost same_rule_self: { (reader : Self) → same_rule reader reader };

    ghost same_rule_then: { (a b c : Self) → same_rule a b → same_rule b c → same_rule a c };
}
