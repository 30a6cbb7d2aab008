//! The lines of a stream that comes in pieces.

ghost use Rattle.std.specs.Prelude.{◌≡◌, ◌++◌, ◌∷◌, ◌<◌, ◌≤◌, [], ℕ, List, Some, None, drop};
ghost use Rattle.std.specs.Prelude.{flat_map};
ghost use Rattle.std.specs.Prelude.{length, IfOk, OnOk};
ghost use Rattle.fm_line.specs.Lines.{ended_line, lines_from, lines_of, taken_len};

use fm_bytes::{Items, NoMemory};
use fm_line::{Splitter, Whole};
use std::alloc::Global;

/// Puts down the line that has ended: its bytes, or nothing of one that is too long.
fn keep_line(
    alloc: Global,
    splitter: &Splitter,
    whole: Whole,
    lines: &mut Vec<Option<Items<u8>>>,
) -> Result<(), NoMemory>
    ensures { OnOk result
        (lines.new.items ≡ lines.old.items ++ ended_line whole splitter.now.line ∷ []) }
{
    match whole {
        Whole::TooLong => lines.push(None)?,
        Whole::Line => {
            let mut line = Vec::new(alloc);
            line.extend_from_slice(splitter.line())?;
            lines.push(Some(Items::new(line)))?;
        }
    }
    Ok(())
}

/// Takes the front of what is left of a piece, and puts down the line that ended in it, if one did.
fn take_front(
    alloc: Global,
    splitter: &mut Splitter,
    rest: &[u8],
    lines: &mut Vec<Option<Items<u8>>>,
) -> Result<usize, NoMemory>
    ensures count { IfOk result (λ taken. taken ≡ taken_len rest.now) }
    ensures lines { IfOk result (λ taken. (more : List ℕ)
        → lines.old.items ++ lines_from splitter.old.pending (rest.now ++ more)
        ≡ lines.new.items ++ lines_from splitter.new.pending (drop taken rest.now ++ more)) }
{
    match splitter.take(rest) {
        (taken, None) => Ok(taken),
        (taken, Some(whole)) => {
            keep_line(alloc, splitter, whole, lines)?;
            Ok(taken)
        }
    }
}

/// Takes a piece, and puts down the lines that end in it.
fn take_piece(
    alloc: Global,
    splitter: &mut Splitter,
    piece: &[u8],
    lines: &mut Vec<Option<Items<u8>>>,
) -> Result<(), NoMemory>
    ensures { OnOk result ((more : List ℕ)
        → lines.old.items ++ lines_from splitter.old.pending (piece.now ++ more)
        ≡ lines.new.items ++ lines_from splitter.new.pending more) }
{
    let mut rest = piece;
    'rest: while !rest.is_empty() {
        let taken = take_front(alloc, splitter, rest, lines)?;
        rest = &rest[taken..];
    }
    Ok(())
}

/// Puts down the last line of the stream, if it has bytes.
fn take_end(
    alloc: Global,
    splitter: &mut Splitter,
    lines: &mut Vec<Option<Items<u8>>>,
) -> Result<(), NoMemory>
    ensures { OnOk result
        (lines.new.items ≡ lines.old.items ++ lines_from splitter.old.pending []) }
{
    match splitter.finish() {
        None => Ok(()),
        Some(whole) => keep_line(alloc, splitter, whole, lines),
    }
}

/// The lines of a stream that comes in these pieces, each by its bytes, or without them where it is
/// too long. They are those of the whole stream, so they are the same however it is cut.
pub fn lines_of_pieces(alloc: Global, pieces: &[&[u8]]) -> Result<Vec<Option<Items<u8>>>, NoMemory>
    ensures { IfOk result
        (λ lines. lines.items ≡ lines_of (flat_map (λ piece. piece.now) pieces.now)) }
{
    let mut splitter = Splitter::new(alloc)?;
    let mut lines = Vec::new(alloc);
    'pieces: for piece in pieces {
        take_piece(alloc, &mut splitter, piece, &mut lines)?;
    }
    take_end(alloc, &mut splitter, &mut lines)?;
    Ok(lines)
}
