//! The parser of rule files: [`parse`] makes the tree of a text's tokens, or names the place of the
//! first fault.
//!
//! **Model.** `toks` of `specs/Toks.antt` says what the tokens of a text mean: signs, names,
//! classes, numbers, times and texts. The grammar of `ev_tree` says which lists of these spell
//! which rules; contracts of this crate cite it. `specs/Read.antt` and `specs/Reading.antt` have
//! reading functions over such lists, and each private function here gives what its reading
//! function gives (`specs/Gives.antt`), a stop with the tokens at the fault.
//!
//! **Proof.** `proofs/Laws.antt` says what a reading function owes a language: what is spelled is
//! read, what is read is spelled, a stop stands behind the longest front that begins a word, and
//! nothing depends on more than the token there. It has one lemma for each way to put readers
//! together, so that the law of a rule of the grammar is one term of `proofs/GrammarLaws.antt`.
//! Conditions recurse over how deep `!` and parentheses may still nest, 64 at the top.
//!
//! **Promises.** All are clauses of [`parse`]: `found`, the tree's rules are spelled by the tokens;
//! `placed`, each statement has the place of its first token; `only`, tokens that spell rules give
//! these and nothing else, unless memory runs out; `fault`, the place is that of the first token
//! that no rule file has behind those before it.
#![tactic(auto)]

mod attrs;
mod conditions;
mod fault;
mod parser;
mod parts;
mod patterns;
mod statements;
mod stop;
mod sums;
mod tokens;

pub use fault::ParseFault;
pub use parser::parse;
