//! The values of properties.

ghost use Rattle.std.specs.Prelude.{◌≡◌, IfOk};

use fm_bytes::{Copies, NoMemory, Text};
use std::alloc::Global;

/// A text of a topology: a name, or what stands between the quotes of a value. Contracts see its
/// bytes.
pub type TopoText = Text;

/// The value of a property.
#[derive(Debug, PartialEq, Eq, Drop)]
pub enum TopoValue {
    Number(u64),
    Text(TopoText),
}

impl Copies for TopoValue {
    fn copy(&self, alloc: Global) -> Result<TopoValue, NoMemory> {
        match self {
            TopoValue::Number(number) => Ok(TopoValue::Number(*number)),
            TopoValue::Text(text) => Ok(TopoValue::Text(text.copy(alloc)?)),
        }
    }
}
