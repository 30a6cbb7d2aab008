//! Name-value lists: values of eight kinds under distinct names, kept in order, and their spelling.
//!
//! An `Nv` is a list of pairs, each a name and a `Value`. Contracts see it as `Pairs`, data of
//! `specs/Data.antt`, and a value as `Data` through `datum`: a text is its bytes, an array is a
//! list. `specs/Spelled.antt` says which lists have a spelling (`IsSpelledList`: names that are
//! distinct and of 1 to 255 bytes, at most 65,535 pairs, texts of at most 65,536 bytes, arrays of
//! at most 65,535 items, no list deeper than 8) and what the spelling is (`pairs_bytes`).
//!
//! The invariant of `Nv` is that its pairs have a spelling. So `write_nv` asks for nothing, and
//! `push` refuses what would break it: `refusal` is the first fault of a pair, in the order of
//! `NvFault`.
//!
//! A list without pairs keeps nothing, and any other keeps a `Content`: the depth, the bytes of the
//! names one behind the other in one piece, and a `Cell` for each pair, with its value and the
//! place where its name ends (`IsContent` of `specs/View.antt`). So a list takes three blocks
//! beside those of its values, however many names it has. It keeps too whether its last name is
//! known to be the greatest: a greater one need not be looked for.
//!
//! `read_nv` answers a list exactly where the bytes begin with the spelling of one. It reads over
//! an `Input`, the bytes that are left; each reader ensures what the front of them reads as
//! (`specs/Reading.antt`), and `proofs/ListReader.antt` shows that this is the spelling both ways:
//! what is read is spelled so, what is spelled is read again whatever follows it, and no spelling
//! is a proper prefix of another. A list in a list is read by recursion, at most eight deep; a
//! count that promises more than is there takes no memory, since the items are pushed one by one as
//! they are read.
//!
//! `lists_are_read_back` is the law of it all, as a contract without a body: what is written is
//! read again whatever follows it, and no spelling of a list is a proper prefix of another's.
#![tactic(auto)]

mod content;
mod copy;
mod distinct;
mod fault;
mod laws;
mod list;
mod lists;
mod numbers;
mod nv;
mod push;
mod read;
mod reading;
mod text;
mod write;

pub use fault::NvFault;
pub use fm_bytes::NoMemory;
pub use laws::lists_are_read_back;
pub use numbers::{NvNumbers, NvTexts};
pub use nv::{Nv, NvLists, Value};
pub use read::read_nv;
pub use reading::take_nv;
pub use text::NvText;
pub use write::write_nv;
