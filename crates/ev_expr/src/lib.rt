//! Whether a condition of a rule holds at a path.
//!
//! **Model.** A condition is asked in a setting: the names that are bound, the topology and a path
//! of it, and the pairs of a payload (`specs/Operands.antt`). There an operand is worth a number, a
//! text, or nothing: a name that is not bound, a property that the path lacks and a pair that the
//! payload lacks are absent. A sum of two or more operands is the exact sum of their numbers, and
//! absent where one of them is no number. Two numbers compare as usual, two texts are equal or
//! unequal by their bytes, and every other comparison is false, `!=` too
//! (`specs/Conditions.antt`).
//!
//! **Promises.** [`holds`], [`holds_for`] and [`holds_near`] answer just what
//! `specs/Conditions.antt` says of the condition that the tree stands for, whatever names are
//! bound: nothing is required. They take no memory.
#![tactic(auto)]

mod conditions;
mod operands;
mod settings;

pub use conditions::{holds, holds_for, holds_near};
pub use settings::{Bound, Prop};
