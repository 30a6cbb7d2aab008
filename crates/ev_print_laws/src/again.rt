ghost use Rattle.std.specs.Prelude.{◌≡◌, ◌≤◌, List, length, IfErr, IfOk, MatchResult};
ghost use Rattle.ev_print_laws.specs.Spells.{AreSpelled, Causes, Spells, printed};
ghost use Rattle.ev_tree.specs.Rule.{Rule, view_tree};

use crate::unread::Unread;
use ev_lex::{LexFault, Token, lex};
use ev_parse::{ParseFault, parse};
use ev_tree::{NoMemory, Tree, print_tree};
use std::alloc::Global;

/// The printed text of a tree.
fn text_of_tree(alloc: Global, tree: &Tree) -> Result<Vec<u8>, NoMemory>
    ensures { IfOk result (λ text. text.items ≡ printed (view_tree tree.now)) }
{
    let mut text = Vec::new(alloc);
    print_tree(tree, &mut text)?;
    Ok(text)
}

/// The tree of a text, which is refused where it has none.
fn tree_of(alloc: Global, text: &[u8]) -> Result<Tree, Unread>
    requires { length text.now ≤ 1048576 }
    ensures { (rules : List Rule) → Spells text.now rules
        → MatchResult result (λ tree. view_tree tree ≡ rules) (λ e. e ≡ Unread.NoMemory) }
{
    match lex(alloc, text) {
        Ok(tokens) => match parse(alloc, text, tokens.as_slice()) {
            Ok(tree) => Ok(tree),
            Err(ParseFault::NoMemory) => Err(Unread::NoMemory),
            Err(ParseFault::At { .. }) => Err(Unread::Refused),
        },
        Err(LexFault::NoMemory) => Err(Unread::NoMemory),
        Err(LexFault::At { .. }) => Err(Unread::Refused),
    }
}

/// The tree that is read from the printed text of a tree which some text spells: the same rules, at
/// the places of the printed text. It is never refused.
pub fn read_again(alloc: Global, tree: &Tree) -> Result<Tree, Unread>
    requires { AreSpelled (view_tree tree.now) }
    ensures again { IfOk result (λ read. view_tree read ≡ view_tree tree.now) }
    ensures causes { IfErr result (Causes (view_tree tree.now)) }
{
    let text = text_of_tree(alloc, tree)?;
    if text.len() > 1048576 {
        return Err(Unread::TooLong);
    }
    tree_of(alloc, text.as_slice())
}
