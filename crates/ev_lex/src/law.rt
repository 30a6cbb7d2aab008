//! The law above the branches of the lexer: the form of each token in the language's own words.
ghost use Rattle.ev_lex.specs.Forms.{TokensHaveForms};

/// Each token of a text has the form of its kind. A Word begins with a letter, and no byte that
/// belongs to it follows; after an Int or a Time no letter, digit or `_` follows; a Text is its
/// bytes between two quotes; punctuation is the longest that fits.
pub fn tokens_have_forms()
    ensures { TokensHaveForms }
{}
