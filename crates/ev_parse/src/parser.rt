//! The call that parses a whole rule file.
ghost use Rattle.std.specs.Prelude.{◌≡◌, ◌≤◌, List, length, map, IfOk, MatchResult};
ghost use Rattle.ev_lex.specs.Cut.{AreTokens};
ghost use Rattle.ev_tree.specs.Grammar.{file};
ghost use Rattle.ev_tree.specs.Rule.{Rule, view_statement, view_tree};
ghost use Rattle.ev_parse.specs.Fault.{IsFaultOfText, place_from, fault_from};
ghost use Rattle.ev_parse.specs.Gives.{GivesAll};
ghost use Rattle.ev_parse.specs.Placed.{StandFrom};
ghost use Rattle.ev_parse.specs.Reading.{file_at};
ghost use Rattle.ev_parse.specs.Toks.{toks};

use crate::fault::ParseFault;
use crate::statements::statement;
use crate::stop::ParseStop;
use ev_lex::Token;
use ev_tree::{Statements, Tree};
use std::alloc::Global;

/// The first byte of the first of these tokens, or the end of the text.
fn place_of(text: &[u8], tokens: &[Token]) -> u32
    requires { length text.now ≤ 1048576 }
    ensures { result ≡ place_from (length text.now) tokens.now }
{
    match tokens {
        [] => text.len() as u32,
        [token, ..] => token.from,
    }
}

/// The fault that a stop is.
fn fault_at(text: &[u8], tokens: &[Token], stop: ParseStop<'_>) -> ParseFault
    requires { length text.now ≤ 1048576 }
    ensures { result ≡ fault_from (length text.now) tokens.now stop.entry }
{
    match stop {
        ParseStop::NoMemory => ParseFault::NoMemory,
        ParseStop::At(rest) => {
            let number = tokens.len().saturating_sub(rest.len());
            let place = place_of(text, &tokens[number..]);
            ParseFault::At { place }
        }
    }
}

/// All statements.
fn statements<'a>(
    alloc: Global,
    text: &[u8],
    tokens: &'a [Token],
) -> Result<Statements, ParseStop<'a>>
    requires { length text.now ≤ 1048576 }
    ensures gives { GivesAll text.now (λ x. map view_statement x) result
        (file_at (toks text.now tokens.now)) }
    ensures placed { IfOk result (λ x. StandFrom text.now tokens.now 0 x (length tokens.now)) }
{
    let mut items = Vec::new(alloc);
    let mut rest = tokens;
    'more: while !rest.is_empty() {
        let at = tokens.len() - rest.len();
        let place = place_of(text, &tokens[at..]);
        let (next, after) = statement(alloc, text, rest, place)?;
        items.push(next)?;
        rest = after;
    }
    Ok(Statements::new(items))
}

/// The tree of a rule file, of which these are the tokens as `lex` answers them. `At` has the place
/// of the first token such that no rule file begins with the tokens up to and with it, or the
/// length of the text where only the end is missing. `!` and the parentheses of conditions nest at
/// most 64 deep. The text has at most 1,048,576 bytes.
pub fn parse(alloc: Global, text: &[u8], tokens: &[Token]) -> Result<Tree, ParseFault>
    requires short { length text.now ≤ 1048576 }
    requires lexed { AreTokens text.now tokens.now }
    ensures found { IfOk result (λ tree. file (view_tree tree) (toks text.now tokens.now)) }
    ensures placed { IfOk result
        (λ tree. StandFrom text.now tokens.now 0 tree.statements (length tokens.now)) }
    ensures only { (rules : List Rule) → file rules (toks text.now tokens.now)
        → MatchResult result (λ tree. view_tree tree ≡ rules) (λ e. e ≡ ParseFault.NoMemory) }
    ensures fault { MatchResult result (λ _. Unit {0}) (IsFaultOfText text.now tokens.now) }
{
    match statements(alloc, text, tokens) {
        Ok(statements) => Ok(Tree { statements }),
        Err(stop) => Err(fault_at(text, tokens, stop)),
    }
}
