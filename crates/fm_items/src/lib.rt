//! Lists of values that have a spelling in bytes, written and read item by item, with or without
//! the number of the items before them.
//!
//! **Model.** A [`Codec`] of a type has three words in contracts: which values the format takes,
//! the bytes that spell a value, and what the front of some bytes reads as. Lists are lists of
//! values. A codec is a type without values of its own, made in the crate of the format, so that a
//! format can spell types of other crates.
//!
//! **Promises.** What is written is the spelling of the items, in their order; what is read is what
//! the front of the bytes reads as, and `NoSpelling` comes only where it reads as nothing. That a
//! reading is the inverse of a spelling is for each format to say of its own values, by the laws of
//! readers in fm_bytes.
#![tactic(auto)]

mod codec;

pub use codec::{Codec, NumberCodec, put_counted, put_items, room_for, take_counted, take_items};
