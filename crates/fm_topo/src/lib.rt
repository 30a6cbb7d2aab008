//! The topology: the set of parts that rules are instantiated over, read from a text.
//!
//! A topology is seen by contracts as the list of its paths in path order, each with its
//! properties, which are the list of their names and values in byte order of the names
//! (specs/Topology.antt, specs/Property.antt). It is kept in one sorted `Vec`; the properties of a
//! path are another. What each `Topo` is, as its invariant says, stands in specs/Lawful.antt: paths
//! in order, each with its parent, properties that have texts, and all of it within the limits of a
//! text.
//!
//! `read_topo` goes over the lines with a map of what the earlier lines said. What a line may be,
//! and which fault it has first, is said of the text alone (specs/Line.antt, specs/Fault.antt);
//! `read_topo` answers the topology of the text exactly where no line has a fault, and the first
//! fault of the first such line otherwise. The map's keys are paths with a code each
//! (specs/Code.antt), numbers whose lexicographic order is path order, so that no path is parted
//! when two are compared. `print_topo` writes the paths in their order; what it writes reads as the
//! topology, and is the shortest text that does. `has`, `children` and `property` search the sorted
//! lists, and say what they find by the list. `groups` goes over the paths once, and keeps for the
//! names of each path, joined by slashes, the numbers of the paths that have them
//! (specs/Groups.antt).
#![tactic(auto)]

mod bytes;
mod entries;
mod faults;
mod groups;
mod keys;
mod printer;
mod properties;
mod reader;
mod topo;
mod values;
mod words;

pub use faults::{TopoFault, TopoKind};
pub use fm_bytes::NoMemory;
pub use groups::{Groups, names_text};
pub use printer::print_topo;
pub use reader::read_topo;
pub use topo::Topo;
pub use values::{TopoText, TopoValue};
