//! The lists of a tree. Contracts see each as the list of its items.

use crate::tree::{EngineAttr, EventAttr, Operand, Part, SidePattern, Statement};
use fm_bytes::{Items, Text};

/// A name or a quoted text of a rule file, without its quotes. Contracts see its bytes.
pub type TreeText = Text;

/// The names of a path, from the root on: one at least in a tree that the grammar spells.
pub type Names = Items<TreeText>;

/// The attributes of an event statement, in order.
pub type EventAttrs = Items<EventAttr>;

/// The attributes of an engine statement, in order.
pub type EngineAttrs = Items<EngineAttr>;

/// The parts of a pattern, from the root on.
pub type Parts = Items<Part>;

/// The operands of a sum, in order: one at least in a tree that the grammar spells.
pub type Operands = Items<Operand>;

/// The patterns of one side of a propagation statement, in order.
pub type Patterns = Items<SidePattern>;

/// The statements of a rule file, in order.
pub type Statements = Items<Statement>;
