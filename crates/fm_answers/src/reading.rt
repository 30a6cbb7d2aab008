// The input, read in pieces and cut into lines that are answered one after another, and a whole run
// over it.
ghost use Rattle.std.specs.Prelude.{◌≡◌, ℕ, ◌+◌, ◌-◌, ◌≤◌, ◌<◌, ◌^◌, List, [], min, length, take};
ghost use Rattle.std.specs.Prelude.{drop, Ok, Err, Some, None, OnOk, IfOk, IfErr};
ghost use Rattle.std.specs.Io.KnownBytes.{Appends, Consumes, IsAtEnd};
ghost use Rattle.fm_line.specs.Lines.{ended_lines};
ghost use Rattle.fm_answers.specs.Accounts.{Accounts};
ghost use Rattle.fm_answers.specs.Answers.{answers, entries_of};
ghost use Rattle.fm_answers.specs.Halting.{Moved, Halted, StopsIn, MovedOn, MovedWithin, StoppedOn};
ghost use Rattle.fm_answers.specs.Halting.{Finished, FinishStops};
ghost use Rattle.fm_answers.specs.Running.{RanAll, RanUntil};

use crate::answering::answer_line;
use crate::stops::Stop;
use crate::takers::Taker;
use fm_journal::FullKind;
use fm_line::{Splitter, Whole};
use fm_outer::{Sink, Source};
use std::alloc::Global;

/// The most bytes that are asked of the source at once.
const PIECE_LEN: usize = 4096;

/// The most bytes that a run takes.
const INPUT_LIMIT: u64 = 1 << 40;

/// Reads the next bytes of the input; none only at its end.
fn read_piece<S: Source>(input: &mut S, buf: &mut [u8]) -> Result<usize, Stop>
    requires { 0 < length buf.old }
    ensures bound { IfOk result (λ n. n ≤ length buf.new) }
    ensures bytes { IfOk result
        (λ n. Consumes (S.left input.old) (S.left input.new) (take n buf.new)) }
    ensures end { IfOk result (λ n. n ≡ 0 → IsAtEnd (S.left input.new)) }
    ensures err { IfErr result (λ stop. (stop ≡ Stop.Read)
        × Consumes (S.left input.old) (S.left input.new) []) }
    ensures counts { Accounts Stop.Read (S.failures input.old) (S.failures input.new) result }
{
    match input.next(buf) {
        Ok(count) => Ok(count),
        Err(_) => Err(Stop::Read),
    }
}

/// How many of these bytes are within the limit, after `total` bytes.
fn within_limit(total: u64, count: usize) -> usize
    requires { total ≤ 2 ^ 40 }
    ensures { result ≡ min (2 ^ 40 - total) count }
{
    (INPUT_LIMIT - total).min(count as u64) as usize
}

/// How far the input was read.
#[derive(Drop)]
struct Reading {
    splitter: Splitter,
    /// How many lines ended so far.
    lines: u64,
}

impl Reading {
    /// At the start of the input.
    fn new(alloc: Global) -> Result<Reading, Stop>
        ensures pending { IfOk result (λ reading. reading.splitter.pending ≡ Some []) }
        ensures lines { IfOk result (λ reading. reading.lines ≡ 0) }
        ensures err { IfErr result (λ stop. stop ≡ Stop.Memory) }
    {
        match Splitter::new(alloc) {
            Ok(splitter) => Ok(Reading { splitter, lines: 0 }),
            Err(_) => Err(Stop::Memory),
        }
    }

    /// Counts the line that has ended, if one has, and answers it.
    fn answer_ended<K: Sink, T: Taker>(
        &mut self,
        alloc: Global,
        ended: Option<Whole>,
        out: &mut K,
        taker: &mut T,
    ) -> Result<(), Stop>
        requires ready { T.ready taker.old }
        requires room { self.old.lines < 2 ^ 64 - 1 }
        ensures counted { OnOk result
            (self.new.lines ≡ self.old.lines + length (ended_lines ended self.old.splitter.line)) }
        ensures put { OnOk result (Appends (K.put_bytes out.old) (K.put_bytes out.new)
            (answers T.TELLS_NUMBERS (self.old.lines + 1) (T.next taker.old)
            (ended_lines ended self.old.splitter.line))) }
        ensures took { OnOk result
            (T.went taker.old taker.new (entries_of (ended_lines ended self.old.splitter.line))
            None) }
        ensures ready { OnOk result (T.ready taker.new) }
        ensures same_taker { T.name taker.new ≡ T.name taker.old }
        ensures err { IfErr result (StopsIn (T.went taker.old taker.new)
            (Appends (K.put_bytes out.old) (K.put_bytes out.new))
            (answers T.TELLS_NUMBERS (self.old.lines + 1) (T.next taker.old))
            (ended_lines ended self.old.splitter.line)) }
        ensures same { self.new.splitter ≡ self.old.splitter }
        ensures counts { Accounts Stop.Write (K.failures out.old) (K.failures out.new) result }
    {
        match ended {
            None => Ok(()),
            Some(whole) => {
                self.lines += 1;
                answer_line(alloc, self.lines, whole, self.splitter.line(), out, taker)
            }
        }
    }

    /// Takes the bytes up to the first newline, or all where there is none, and answers the line
    /// that ended, if one did. Tells how many bytes these were.
    fn step<K: Sink, T: Taker>(
        &mut self,
        alloc: Global,
        rest: &[u8],
        out: &mut K,
        taker: &mut T,
    ) -> Result<usize, Stop>
        requires ready { T.ready taker.old }
        requires room { self.old.lines < 2 ^ 64 - 1 }
        ensures bound { IfOk result (λ n. n ≤ length rest.now) }
        ensures some { IfOk result (λ n. 0 < length rest.now → 0 < n) }
        ensures moved { IfOk result (λ n. Moved (T.went taker.old taker.new)
            (Appends (K.put_bytes out.old) (K.put_bytes out.new)) T.TELLS_NUMBERS (T.next taker.old)
            (take n rest.now) self.old.splitter.pending self.new.splitter.pending
            self.old.lines self.new.lines) }
        ensures halted { IfErr result (Halted (T.went taker.old taker.new)
            (Appends (K.put_bytes out.old) (K.put_bytes out.new)) T.TELLS_NUMBERS (T.next taker.old)
            rest.now self.old.splitter.pending self.old.lines) }
        ensures grew { IfOk result (λ n. self.new.lines ≤ self.old.lines + n) }
        ensures ready { OnOk result (T.ready taker.new) }
        ensures same_taker { T.name taker.new ≡ T.name taker.old }
        ensures counts { Accounts Stop.Write (K.failures out.old) (K.failures out.new) result }
    {
        let (taken, ended) = self.splitter.take(rest);
        self.answer_ended(alloc, ended, out, taker)?;
        Ok(taken)
    }

    /// Answers each line that ends in the piece.
    fn feed<K: Sink, T: Taker>(
        &mut self,
        alloc: Global,
        piece: &[u8],
        out: &mut K,
        taker: &mut T,
    ) -> Result<(), Stop>
        requires ready { T.ready taker.old }
        requires room { self.old.lines + length piece.now < 2 ^ 64 - 1 }
        ensures moved { OnOk result (Moved (T.went taker.old taker.new)
            (Appends (K.put_bytes out.old) (K.put_bytes out.new)) T.TELLS_NUMBERS (T.next taker.old)
            piece.now self.old.splitter.pending self.new.splitter.pending self.old.lines
            self.new.lines) }
        ensures halted { IfErr result (Halted (T.went taker.old taker.new)
            (Appends (K.put_bytes out.old) (K.put_bytes out.new)) T.TELLS_NUMBERS (T.next taker.old)
            piece.now self.old.splitter.pending self.old.lines) }
        ensures grew { OnOk result (self.new.lines ≤ self.old.lines + length piece.now) }
        ensures ready { OnOk result (T.ready taker.new) }
        ensures same_taker { T.name taker.new ≡ T.name taker.old }
        ensures counts { Accounts Stop.Write (K.failures out.old) (K.failures out.new) result }
    {
        let mut at = 0;
        'piece: while at < piece.len() {
            at += self.step(alloc, &piece[at..], out, taker)?;
        }
        Ok(())
    }

    /// Reads one piece of the input, after `total` bytes, and answers each line that ends in it.
    /// Tells how many bytes these were; none only at the end of the input.
    fn read_on<S: Source, K: Sink, T: Taker>(
        &mut self,
        alloc: Global,
        total: u64,
        input: &mut S,
        buf: &mut [u8],
        out: &mut K,
        taker: &mut T,
    ) -> Result<u64, Stop>
        requires ready { T.ready taker.old }
        requires buffer { length buf.old ≡ 4096 }
        requires within { total ≤ 2 ^ 40 }
        requires room { self.old.lines ≤ total }
        ensures moved { IfOk result (MovedOn (T.went taker.old taker.new)
            (Appends (K.put_bytes out.old) (K.put_bytes out.new)) T.TELLS_NUMBERS (T.next taker.old)
            (Consumes (S.left input.old) (S.left input.new))
            self.old.splitter.pending self.new.splitter.pending self.old.lines self.new.lines) }
        ensures stopped { IfErr result (StoppedOn (T.went taker.old taker.new)
            (Appends (K.put_bytes out.old) (K.put_bytes out.new)) T.TELLS_NUMBERS (T.next taker.old)
            (Consumes (S.left input.old) (S.left input.new))
            self.old.splitter.pending self.old.lines total) }
        ensures end { IfOk result (λ n. n ≡ 0 → IsAtEnd (S.left input.new)) }
        ensures within { IfOk result (λ n. (self.new.lines ≤ total + n) × (total + n ≤ 2 ^ 40)) }
        ensures ready { OnOk result (T.ready taker.new) }
        ensures same_taker { T.name taker.new ≡ T.name taker.old }
        ensures counts_out { Accounts Stop.Write (K.failures out.old) (K.failures out.new) result }
        ensures counts_input { Accounts Stop.Read (S.failures input.old)
            (S.failures input.new) result }
    {
        let count = read_piece(input, buf)?;
        let kept = within_limit(total, count);
        self.feed(alloc, &buf[..kept], out, taker)?;
        if kept < count {
            Err(Stop::Full(FullKind::Input))
        } else {
            Ok(kept as u64)
        }
    }

    /// Reads the input to its end, and answers each line that ends in a newline.
    fn read_all<S: Source, K: Sink, T: Taker>(
        &mut self,
        alloc: Global,
        input: &mut S,
        out: &mut K,
        taker: &mut T,
    ) -> Result<(), Stop>
        requires ready { T.ready taker.old }
        requires fresh { self.old.lines ≡ 0 }
        ensures moved { OnOk result (MovedWithin (T.went taker.old taker.new)
            (Appends (K.put_bytes out.old) (K.put_bytes out.new)) T.TELLS_NUMBERS (T.next taker.old)
            (Consumes (S.left input.old) (S.left input.new))
            self.old.splitter.pending self.new.splitter.pending self.old.lines self.new.lines) }
        ensures stopped { IfErr result (StoppedOn (T.went taker.old taker.new)
            (Appends (K.put_bytes out.old) (K.put_bytes out.new)) T.TELLS_NUMBERS (T.next taker.old)
            (Consumes (S.left input.old) (S.left input.new)) self.old.splitter.pending
            self.old.lines 0) }
        ensures end { OnOk result (IsAtEnd (S.left input.new)) }
        ensures few { OnOk result (self.new.lines ≤ 2 ^ 40) }
        ensures ready { OnOk result (T.ready taker.new) }
        ensures same_taker { T.name taker.new ≡ T.name taker.old }
        ensures counts_out { Accounts Stop.Write (K.failures out.old) (K.failures out.new) result }
        ensures counts_input { Accounts Stop.Read (S.failures input.old)
            (S.failures input.new) result }
    {
        let mut buf = [0u8; PIECE_LEN];
        let mut total = 0;
        'input: loop {
            let count = self.read_on(alloc, total, input, &mut buf, out, taker)?;
            if count == 0 {
                return Ok(());
            }
            total += count;
        }
    }

    /// Ends the input, and answers its last line, if that has no newline.
    fn finish<K: Sink, T: Taker>(
        &mut self,
        alloc: Global,
        out: &mut K,
        taker: &mut T,
    ) -> Result<(), Stop>
        requires ready { T.ready taker.old }
        requires few { self.old.lines ≤ 2 ^ 40 }
        ensures all { OnOk result (Finished (T.went taker.old taker.new)
            (Appends (K.put_bytes out.old) (K.put_bytes out.new))
            (answers T.TELLS_NUMBERS (self.old.lines + 1) (T.next taker.old))
            self.old.splitter.pending) }
        ensures until { IfErr result (FinishStops (T.went taker.old taker.new)
            (Appends (K.put_bytes out.old) (K.put_bytes out.new))
            (answers T.TELLS_NUMBERS (self.old.lines + 1) (T.next taker.old))
            self.old.splitter.pending) }
        ensures ready { OnOk result (T.ready taker.new) }
        ensures same_taker { T.name taker.new ≡ T.name taker.old }
        ensures counts { Accounts Stop.Write (K.failures out.old) (K.failures out.new) result }
    {
        let ended = self.splitter.finish();
        self.answer_ended(alloc, ended, out, taker)
    }
}

/// Reads the input to its end and answers each of its lines, the last one too, which may lack its
/// newline. Each line is answered by one put at most, after its entry was taken.
pub fn run<S: Source, K: Sink, T: Taker>(
    alloc: Global,
    input: &mut S,
    out: &mut K,
    taker: &mut T,
) -> Result<(), Stop>
    requires ready { T.ready taker.old }
    ensures all { OnOk result (RanAll (T.went taker.old taker.new)
        (Appends (K.put_bytes out.old) (K.put_bytes out.new)) T.TELLS_NUMBERS (T.next taker.old)
        (Consumes (S.left input.old) (S.left input.new)) (IsAtEnd (S.left input.new))) }
    ensures until { IfErr result (RanUntil (T.went taker.old taker.new)
        (Appends (K.put_bytes out.old) (K.put_bytes out.new)) T.TELLS_NUMBERS (T.next taker.old)
        (Consumes (S.left input.old) (S.left input.new)) (IsAtEnd (S.left input.new))) }
    ensures ready { OnOk result (T.ready taker.new) }
    ensures same_taker { T.name taker.new ≡ T.name taker.old }
    ensures counts_out { Accounts Stop.Write (K.failures out.old) (K.failures out.new) result }
    ensures counts_input { Accounts Stop.Read (S.failures input.old) (S.failures input.new) result }
{
    let mut reading = Reading::new(alloc)?;
    reading.read_all(alloc, input, out, taker)?;
    reading.finish(alloc, out, taker)
}
