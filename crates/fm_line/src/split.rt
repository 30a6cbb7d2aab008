//! The lines of a stream that comes in pieces.
//!
//! A splitter keeps the bytes of the line in progress, as long as they are within one line's limit,
//! and the line last ended. Both buffers are made once, each for one line's limit.

ghost use Rattle.std.specs.Prelude.{◌≡◌, ◌↔◌, ◌+◌, ◌≤◌, ◌++◌, [], ℕ, List, Option, Some, None};
ghost use Rattle.std.specs.Prelude.{length, drop, IfOk, IsNone, IsTrue, IfNone, IfSome, position};
ghost use Rattle.std.specs.Prelude.{nat_lt, if◌then◌else◌};
ghost use Rattle.std.specs.List.{before_first};
ghost use Rattle.fm_line.specs.Lines.{is_newline, HasNoNewline, lines_from, grown, ended_line};
ghost use Rattle.fm_line.specs.Lines.{ended_lines, taken_len};

use fm_bytes::NoMemory;
use memchr::memchr;
use std::alloc::Global;
use std::marker::Model;

pub(crate) const LINE_LIMIT: usize = 65_536;

/// How a line ended: with its bytes at hand, or past the limit.
#[derive(Clone, Copy, Debug, PartialEq, Eq)]
pub enum Whole {
    Line,
    TooLong,
}

/// Cuts a stream of bytes into its lines, however the stream comes in pieces.
#[derive(Drop)]
pub struct Splitter {
    pending: Vec<u8>,
    line: Vec<u8>,
    is_long: bool,
}

impl Model for Splitter {
    ghost use Rattle.std.specs.Prelude.{Some, None, if◌then◌else◌, vec_capacity};
    ghost use Rattle.fm_line.specs.Lines.{Splitting, IsBuffered};

    ghost Value = { Splitting };

    ghost view = { λ s. record {
      pending =
          (if s.is_long then None else Some s.pending.items);
      line = s.line.items;
    } };

    ghost invariant = { λ s. IsBuffered (vec_capacity s.pending) (vec_capacity s.line)
        s.pending.items };
}

/// The place of the first newline.
#[tactic(auto, using(crate::proofs::First::first_place))]
fn newline_place(piece: &[u8]) -> Option<usize>
    ensures { result ≡ position is_newline piece.now }
{
    memchr(b'\n', piece)
}

impl Splitter {
    /// A splitter at the start of a stream.
    pub fn new(alloc: Global) -> Result<Splitter, NoMemory>
        ensures { IfOk result (λ s. s ≡ record { pending = Some []; line = [] }) }
    {
        let pending = Vec::with_capacity(alloc, LINE_LIMIT)?;
        let line = Vec::with_capacity(alloc, LINE_LIMIT)?;
        Ok(Splitter {
            pending,
            line,
            is_long: false,
        })
    }

    /// Whether the next byte is the first of a line.
    fn is_between(&self) -> bool
        ensures { IsTrue result ↔ (self.now.pending ≡ Some []) }
    {
        !self.is_long && self.pending.is_empty()
    }

    /// Takes further bytes of the line in progress.
    fn grow(&mut self, piece: &[u8])
        requires { HasNoNewline piece.now }
        ensures pending { self.new.pending ≡ grown self.old.pending piece.now }
        ensures line { self.new.line ≡ self.old.line }
    {
        if self.is_long {
            return;
        }
        if piece.len() > LINE_LIMIT - self.pending.len() {
            self.is_long = true;
            return;
        }
        self.pending.extend_from_slice(piece).unwrap();
    }

    /// Ends the line in progress.
    fn end(&mut self) -> Whole
        ensures pending { self.new.pending ≡ Some [] }
        ensures line { ended_line result self.new.line ≡ self.old.pending }
        ensures empty { result ≡ Whole.TooLong → self.new.line ≡ [] }
    {
        self.line.clear();
        if self.is_long {
            self.is_long = false;
            self.pending.clear();
            return Whole::TooLong;
        }
        std::mem::swap(&mut self.line, &mut self.pending);
        Whole::Line
    }

    /// Takes the bytes of `piece` up to and with its first newline, or all of them where it has
    /// none. Tells how many these are, and how a line ended, where one did. Takes no memory.
    pub fn take(&mut self, piece: &[u8]) -> (usize, Option<Whole>)
        ensures count { result.0 ≡ taken_len piece.now }
        ensures none { IsNone result.1 ↔ HasNoNewline piece.now }
        ensures grows { IfNone result.1
            (self.new ≡ record self.old { pending = grown self.old.pending piece.now }) }
        ensures ends { IfSome result.1
            (λ whole. ended_line whole self.new.line
            ≡ grown self.old.pending (before_first is_newline piece.now)) }
        ensures afresh { IfSome result.1 (λ _. self.new.pending ≡ Some []) }
        ensures empty { result.1 ≡ Some Whole.TooLong → self.new.line ≡ [] }

        // However the stream is cut: the lines of what was pending, the piece and whatever follows
        // are the line that is told of, if any, and those of what is pending now, the rest and what
        // follows.
        ensures lines { (more : List ℕ) → lines_from self.old.pending (piece.now ++ more)
            ≡ ended_lines result.1 self.new.line
            ++ lines_from self.new.pending (drop result.0 piece.now ++ more) }
    {
        let _ = &self.pending;
        match newline_place(piece) {
            None => {
                self.grow(piece);
                (piece.len(), None)
            }
            Some(at) => {
                self.grow(&piece[..at]);
                (at + 1, Some(self.end()))
            }
        }
    }

    /// Ends the last line of the stream, if it has bytes. Takes no memory.
    pub fn finish(&mut self) -> Option<Whole>
        ensures none { IsNone result ↔ (self.old.pending ≡ Some []) }
        ensures same { IfNone result (self.new ≡ self.old) }
        ensures ends { IfSome result (λ whole. ended_line whole self.new.line ≡ self.old.pending) }
        ensures afresh { self.new.pending ≡ Some [] }
        ensures empty { result ≡ Some Whole.TooLong → self.new.line ≡ [] }
        ensures lines { lines_from self.old.pending [] ≡ ended_lines result self.new.line }
    {
        let _ = &self.pending;
        if self.is_between() {
            return None;
        }
        Some(self.end())
    }

    /// The line last ended, without its newline. It is empty where that line was too long.
    pub fn line(&self) -> &[u8]
        ensures { result.now ≡ self.now.line }
    {
        self.line.as_slice()
    }
}
