//! What a kept configuration comes to: how large it is, and the events that may be reported.
//!
//! **Model.** A configuration is a namespace, the texts of rule files, and that of a topology. Each
//! rule file comes to a graph over the topology (`specs/Comes.antt`); how large these are, and the
//! namespace, are its text (`specs/Sizes.antt`), and the events of category `ereport` in them are
//! its reports (`specs/Reports.antt`).
//!
//! **Promises.** [`tell_conf`] reads the texts again, and answers the text; [`conf_reports`] does
//! so too, and answers the reports. `Refused` only where a text is none, or comes to more than a
//! limit, which a store that was opened doesn't keep.
#![tactic(auto)]

mod fault;
mod made;
mod reports;
mod sizes;

pub use fault::ConfFault;
pub use fm_bytes::NoMemory;
pub use reports::conf_reports;
pub use sizes::tell_conf;
