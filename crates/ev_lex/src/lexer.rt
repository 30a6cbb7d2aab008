//! The lexer: the loop that cuts a text into its pieces.
ghost use Rattle.std.specs.Prelude.{◌≡◌, ◌+◌, ◌≤◌, ◌++◌, List, length, IfErr, IfOk, OnOk};
ghost use Rattle.std.specs.Prelude.{MatchResult};
ghost use Rattle.ev_lex.specs.Cut.{AreTokens, AreSlices, Faults, lexeme};
ghost use Rattle.ev_lex.specs.Pieces.{size as size_of};
ghost use Rattle.ev_lex.specs.declared.token.Token.{Token};

use crate::fault::LexFault;
use crate::piece::{Piece, line_after, past, piece_at, size};
use crate::token::Token;
use std::alloc::Global;

/// Adds the token of a piece at this place, where it is one.
fn push_token(tokens: &mut Vec<Token>, at: u32, piece: Piece) -> Result<(), LexFault>
    requires { at + size_of piece ≤ 1048576 }
    ensures ok { OnOk result (tokens.new.items ≡ tokens.old.items ++ lexeme at piece) }
    ensures err { IfErr result (λ e. e ≡ LexFault.NoMemory) }
{
    match piece {
        Piece::Lexeme(kind, n) => {
            let to = at + n as u32;
            tokens.push(Token { kind, from: at, to })?;
            Ok(())
        }
        _ => Ok(()),
    }
}

/// The tokens of a rule text: the pieces that are no blanks, no comments and no skipped lines, each
/// as a slice of the text, in order. `At` has the place of the first byte that begins none. The
/// text has at most 1,048,576 bytes.
pub fn lex(alloc: Global, text: &[u8]) -> Result<Vec<Token>, LexFault>
    requires { length text.now ≤ 1048576 }
    ensures found { IfOk result (λ tokens. AreTokens text.now tokens.items) }
    ensures slices { IfOk result (λ tokens. AreSlices 0 tokens.items (length text.now)) }
    ensures only { (ts : List Token) → AreTokens text.now ts
        → MatchResult result (λ tokens. tokens.items ≡ ts) (λ e. e ≡ LexFault.NoMemory) }
    ensures fault { MatchResult result (λ _. Unit {0}) (Faults text.now) }
{
    let mut tokens = Vec::new(alloc);
    let mut rest = text;
    let mut line = true;
    let mut at = 0u32;
    'pieces: while !rest.is_empty() {
        let Some(piece) = piece_at(line, rest) else {
            return Err(LexFault::At { place: at });
        };
        push_token(&mut tokens, at, piece)?;
        line = line_after(line, piece);
        at += size(piece) as u32;
        rest = past(rest, piece);
    }
    Ok(tokens)
}
