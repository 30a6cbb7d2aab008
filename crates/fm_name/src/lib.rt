//! Names: classes, patterns of classes, paths, and events, which are a class at a path.
//!
//! A `Class` such as `ereport.cpu.ue` says what happened; its first component is its `Category`. A
//! `Pattern` stands for classes: for all, for one, or for those that go on after some components.
//! An `Fmri` such as `hc:///chassis=0/cpu=1` is the path from the root of a machine to one of its
//! parts. An `EventName` is a class at a path.
//!
//! Contracts see each of them as the bytes of its text. The grammars (`specs/Class`,
//! `specs/Pattern`, `specs/Path`) are tests of a whole text, which is split at dots, hyphens and
//! slashes; that the text passes its test is the type's invariant, so who holds a name need not ask
//! again. `read_class`, `read_pattern` and `read_fmri` answer one exactly where the grammar has the
//! text. Components and parts are read byte by byte, with a small state: at each byte, what the
//! state and the bytes that are left come to is what the grammar says of the whole
//! (`proofs/Scanning`, `proofs/PartScans`). Two paths are compared from the last slash on at which
//! both are still the same (`tail_order`, `proofs/Alike`).
//!
//! Classes are in the order of their bytes, paths in that of their parts: by name, then by the
//! value of the instance, a path before those under it (`specs/Order`). `Ord` of each type is that
//! order, total, and ties only equal texts (`specs/OrderLaws`). Events are ordered by path, then by
//! class (`specs/Events`).
//!
//! A class or a path of at most 24 bytes stands in the value itself and takes no memory, and nor
//! does its copy (`inline_text`).
#![tactic(auto)]

mod classes;
mod events;
mod grammar;
mod inline_text;
mod parts;
mod paths;
mod patterns;
mod tail_order;
mod tails;

pub use classes::{Category, Class, read_class};
pub use events::EventName;
pub use fm_bytes::NoMemory;
pub use parts::is_name;
pub use paths::{Fmri, read_fmri};
pub use patterns::{Pattern, read_pattern};
