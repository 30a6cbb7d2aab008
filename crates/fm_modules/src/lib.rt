//! The diagnosis modules of the texts that a store keeps, and a store that is opened with them.
//!
//! A store keeps configurations: rule files and a topology, as bytes. Here these are read again:
//! for each rule file number a module is made, which knows the graph of that file in each
//! configuration, and the store adopts the modules.
//!
//! **Model.** What a configuration makes is a row, for each of its rule files a configuration of a
//! module (`ConfMakes`, specs/KeptTexts); the modules are a function of the rows (`first_modules`,
//! specs/Modules). An opening is a list of looks, those of fm_looks at the disks and between them
//! one at the modules (`opening_looks`, specs/Opening), each of which passes or finds damage.
//!
//! **Order.** The configurations make their rows in turn, and the first that is refused ends it. Of
//! one the topology is read first, then each rule file, and its graph made. No graph is made twice:
//! both lists of modules that a store adopts have copies.
//!
//! **Promises.** [`make_modules`] answers two equal lists of modules to which nothing has happened,
//! or the first configuration of which a text is refused. [`open_store`] answers the store with its
//! modules, a hand of each, and the configuration in force; or the disks, which were only read,
//! with the first damage in the order of the looks.
#![tactic(auto)]

mod fault;
mod kept;
mod modules;
mod opening;
mod places;

pub use fault::ModulesFault;
pub use fm_bytes::NoMemory;
pub use modules::make_modules;
pub use opening::{OpenStore, open_store};
