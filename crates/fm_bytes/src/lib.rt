//! Bytes, numbers, texts and lists, as every other crate uses them.
//!
//! **Model.** Contracts see a [`Text`] as its bytes and [`Items`] as the list of its items, so
//! values that are made of them are compared as they are. An [`Input`] is the bytes that are left
//! of what is read from the front. [`NoMemory`] is the one word for want of memory.
//!
//! **Bytes.** A number stands with its highest byte first, a text behind its length, a list behind
//! the number of its items (`specs/Numbers.antt`). What the front of some bytes reads as is a
//! function on lists, with the bytes that are left (`specs/Reading.antt`): each `take_` call of an
//! [`Input`] answers what that function says. The readers there are made of one another, and
//! `proofs/Readers.antt` and `proofs/Combined.antt` prove of each that what it reads is spelled so,
//! and that what is spelled is read again whatever follows it.
//!
//! **Digits.** [`read_digits`] and [`read_numeral`] read a number up to a limit from its decimal
//! digits; the second takes no zero in front of other digits, so that just one text reads as a
//! number.
//!
//! **Promises.** A text and a list give back what was put in. A copy is equal to what it was made
//! of, for every type of items that has [`Copies`]. What is read is said exactly, and so is where
//! nothing is read. The `put_` functions add the spelling behind what a buffer holds. What takes
//! memory answers [`NoMemory`] where there is none: a list that was to grow is then as it was, and
//! a buffer may hold a part of what was to be written.
#![tactic(auto)]

mod copies;
mod decimal;
mod fault;
mod input;
mod items;
mod laws;
mod no_memory;
mod output;
mod text;
mod text_order;

pub use copies::Copies;
pub use decimal::{read_digits, read_numeral};
pub use fault::ReadFault;
pub use input::Input;
pub use items::Items;
pub use laws::numbers_are_read_back;
pub use no_memory::NoMemory;
pub use output::{put_long_text, put_short_text, put_u8, put_u16, put_u32, put_u64};
pub use text::Text;
