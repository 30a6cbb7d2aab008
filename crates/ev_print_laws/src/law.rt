//! The laws, each as the contract of a call that does nothing.
ghost use Rattle.std.specs.Prelude.{List, ℕ};
ghost use Rattle.ev_print_laws.specs.Classes.{WordsWithDotsAreClasses};
ghost use Rattle.ev_print_laws.specs.Spells.{Spells, AreSpelled, printed};
ghost use Rattle.ev_tree.specs.Rule.{Rule};

/// Rules that some text spells are spelled by the text that they are printed as: it is cut into
/// tokens, and these are a rule file with the rules. The call does nothing: its contract is the
/// law.
pub fn printed_text_spells()
    ensures { (rules : List Rule) → AreSpelled rules → Spells (printed rules) rules }
{}

/// A word that has a dot in it is a class, by the grammar of classes. With
/// the law of the lexer that each token has the form of its kind, no token with a dot is anything
/// else.
pub fn words_with_a_dot_are_classes()
    ensures { WordsWithDotsAreClasses }
{}
