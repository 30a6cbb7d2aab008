//! The lexer of rule files: [`lex`] cuts a text into words, numbers, times, quoted texts and
//! punctuation.
//!
//! **Model.** A text is cut into pieces, one after another: newlines, other blanks, skipped lines,
//! comments and tokens. `piece` of `specs/Pieces.antt` says what begins a text, or that nothing
//! does: a word goes on as far as its bytes belong to it, punctuation is the longest that fits, a
//! line whose first byte that is no blank is `#` is skipped, and a word or a number beyond its
//! limits is nothing. `IsCut` of `specs/Cut.antt` says that pieces stand in a text one after
//! another; a text has at most one such cut to its end.
//!
//! **Invariant.** The loop of [`lex`] keeps that the bytes behind it are cut into pieces, and that
//! its list has their tokens.
//!
//! **Promises.** All are clauses of [`lex`]: `found`, its tokens are those of the text; `slices`,
//! they are slices of the text in order; `only`, a text that has tokens is never refused but for
//! want of memory; `fault`, the place of a fault has pieces before it and begins none.
#![tactic(auto)]

mod bytes;
mod fault;
mod law;
mod lexer;
mod piece;
mod token;

pub use fault::LexFault;
pub use law::tokens_have_forms;
pub use lexer::lex;
pub use piece::Piece;
pub use token::{Kind, Token};
