//! The law of printed rule files: what `print_tree` adds for a tree is read again as that tree,
//! places aside.
//!
//! **Model.** `Spells text rules` of `specs/Spells.antt` says that a text is cut into tokens as
//! `lex` cuts it, and that these are a rule file with the rules by the grammar of `ev_tree`, as
//! `parse` reads it. `printed rules` is the text that `print_tree` adds.
//!
//! **Law.** [`printed_text_spells`] has it as its contract: rules that any text spells are spelled
//! by their printed text. [`read_again`] runs it: it prints a tree, and lexes and parses what was
//! printed. Its answer is the same rules.
//!
//! A second law stands here, since it speaks of the lexer and of the grammar of classes: a word
//! with a dot is a class ([`words_with_a_dot_are_classes`]).
//!
//! **Proof.** Of a token that a text has, what it carries (a name, a number) is read again from
//! what it is printed as, in front of a blank (`proofs/Lexed.antt`). Rule by rule, the printed
//! tokens spell what any tokens spell, with signs that are read again (`Real`, `Printed`, `Shown`,
//! `PrintedFile`). Tokens that are each read again are the tokens of their text (`Reread`).
#![tactic(auto)]

mod again;
mod law;
mod unread;

pub use again::read_again;
pub use law::{printed_text_spells, words_with_a_dot_are_classes};
pub use unread::Unread;
