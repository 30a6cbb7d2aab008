// The answer to one line.
ghost use Rattle.std.specs.Prelude.{◌≡◌, ℕ, ◌≤◌, List, [], ◌∷◌, codes, decimal, ◌++◌};
ghost use Rattle.std.specs.Prelude.{if◌then◌else◌, unwrap_or, Ok, Err, Some, None, OnOk, IfOk};
ghost use Rattle.std.specs.Prelude.{IfErr};
ghost use Rattle.std.specs.Io.KnownBytes.{Appends};
ghost use Rattle.fm_core.specs.Book.{IsAdmitted};
ghost use Rattle.fm_line.specs.Lines.{ended_line};
ghost use Rattle.fm_line.specs.Faults.{code_of, IsOfLine};
ghost use Rattle.fm_answers.specs.Accounts.{Accounts};
ghost use Rattle.fm_answers.specs.Answers.{ok_text, refused_text, answer, entries_in};
ghost use Rattle.fm_answers.specs.StreamsAt.{sink_at};
ghost use Rattle.fm_answers.specs.Refusing.{PutCut, LineStops};

use crate::stops::Stop;
use crate::takers::Taker;
use fm_entry::Entry;
use fm_line::{LineFault, Whole, is_blank_line, read_line};
use fm_outer::Sink;
use std::alloc::Global;

/// Puts all these bytes, by one call.
pub fn put_bytes<K: Sink>(out: &mut K, bytes: &[u8]) -> Result<(), Stop>
    ensures ok { OnOk result (Appends (K.put_bytes out.old) (K.put_bytes out.new) bytes.now) }
    ensures err { IfErr result
        (PutCut (sink_at K.Sink out.old) (sink_at K.Sink out.new) bytes.now) }
    ensures counts { Accounts Stop.Write (K.failures out.old) (K.failures out.new) result }
{
    match out.put(bytes) {
        Ok(()) => Ok(()),
        Err(_) => Err(Stop::Write),
    }
}

/// Puts a whole text, by one call.
pub(crate) fn put_text<K: Sink>(out: &mut K, text: &str) -> Result<(), Stop>
    ensures ok { OnOk result (Appends (K.put_bytes out.old) (K.put_bytes out.new) text.now) }
    ensures err { IfErr result (PutCut (sink_at K.Sink out.old) (sink_at K.Sink out.new) text.now) }
    ensures counts { Accounts Stop.Write (K.failures out.old) (K.failures out.new) result }
{
    put_bytes(out, text.as_bytes())
}

/// Tells that an entry was taken.
#[tactic(auto, using(crate::proofs::Sinks::appends_none))]
fn tell<K: Sink>(alloc: Global, number: u64, out: &mut K) -> Result<(), Stop>
    ensures ok { OnOk result
        (Appends (K.put_bytes out.old) (K.put_bytes out.new) (ok_text number)) }
    ensures err { IfErr result
        (PutCut (sink_at K.Sink out.old) (sink_at K.Sink out.new) (ok_text number)) }
    ensures counts { Accounts Stop.Write (K.failures out.old) (K.failures out.new) result }
{
    let text = format!(in alloc; "ok {number}\n")?;
    put_text(out, text.as_str())
}

/// Tells that a line was refused.
#[tactic(auto, using(crate::proofs::Sinks::appends_none))]
fn refuse<K: Sink>(alloc: Global, line: u64, code: u8, out: &mut K) -> Result<(), Stop>
    ensures ok { OnOk result
        (Appends (K.put_bytes out.old) (K.put_bytes out.new) (refused_text line code)) }
    ensures err { IfErr result
        (PutCut (sink_at K.Sink out.old) (sink_at K.Sink out.new) (refused_text line code)) }
    ensures counts { Accounts Stop.Write (K.failures out.old) (K.failures out.new) result }
{
    let text = format!(in alloc; "refused {line} {code}\n")?;
    put_text(out, text.as_str())
}

/// Answers a line by its fault.
#[tactic(auto, using(crate::proofs::Sinks::appends_none))]
fn answer_fault<K: Sink>(
    alloc: Global,
    line: u64,
    fault: LineFault,
    out: &mut K,
) -> Result<(), Stop>
    ensures ok { OnOk result (IsOfLine fault × Appends (K.put_bytes out.old) (K.put_bytes out.new)
        (refused_text line (unwrap_or (code_of fault) 0))) }
    ensures err { IfErr result (PutCut (sink_at K.Sink out.old) (sink_at K.Sink out.new)
        (refused_text line (unwrap_or (code_of fault) 0))) }
    ensures write { result ≡ Err Stop.Write → IsOfLine fault }
    ensures counts { Accounts Stop.Write (K.failures out.old) (K.failures out.new) result }
{
    match fault.code() {
        None => Err(Stop::Memory),
        Some(code) => refuse(alloc, line, code, out),
    }
}

/// Has the entry taken, and tells its number where that is to be told.
fn take_entry<K: Sink, T: Taker>(
    alloc: Global,
    entry: Entry,
    out: &mut K,
    taker: &mut T,
) -> Result<(), Stop>
    requires ready { T.ready taker.old }
    requires admitted { IsAdmitted entry }
    ensures put { OnOk result (Appends (K.put_bytes out.old) (K.put_bytes out.new)
        (if T.TELLS_NUMBERS then ok_text (T.next taker.old) else [])) }
    ensures took { OnOk result (T.went taker.old taker.new (entry ∷ []) None) }
    ensures ready { OnOk result (T.ready taker.new) }
    ensures same_taker { T.name taker.new ≡ T.name taker.old }
    ensures err { IfErr result (LineStops (T.went taker.old taker.new)
        (Appends (K.put_bytes out.old) (K.put_bytes out.new))
        (if T.TELLS_NUMBERS then ok_text (T.next taker.old) else []) (entry ∷ [])) }
    ensures counts { Accounts Stop.Write (K.failures out.old) (K.failures out.new) result }
{
    let number = taker.take(alloc, entry)?;
    if T::TELLS_NUMBERS {
        tell(alloc, number, out)
    } else {
        Ok(())
    }
}

/// Answers a line that is within the limit.
#[tactic(auto, unfolding(crate::specs::Answers::answer, crate::specs::Answers::entries_in))]
fn answer_text<K: Sink, T: Taker>(
    alloc: Global,
    number: u64,
    line: &[u8],
    out: &mut K,
    taker: &mut T,
) -> Result<(), Stop>
    requires ready { T.ready taker.old }
    ensures put { OnOk result (Appends (K.put_bytes out.old) (K.put_bytes out.new)
        (answer T.TELLS_NUMBERS number (T.next taker.old) (Some line.now))) }
    ensures took { OnOk result (T.went taker.old taker.new (entries_in (Some line.now)) None) }
    ensures ready { OnOk result (T.ready taker.new) }
    ensures same_taker { T.name taker.new ≡ T.name taker.old }
    ensures err { IfErr result (LineStops (T.went taker.old taker.new)
        (Appends (K.put_bytes out.old) (K.put_bytes out.new))
        (answer T.TELLS_NUMBERS number (T.next taker.old) (Some line.now))
        (entries_in (Some line.now))) }
    ensures counts { Accounts Stop.Write (K.failures out.old) (K.failures out.new) result }
{
    if is_blank_line(line) {
        return Ok(());
    }
    match read_line(alloc, line) {
        Ok(entry) => take_entry(alloc, entry, out, taker),
        Err(fault) => answer_fault(alloc, number, fault, out),
    }
}

/// Answers a line by one put at most: an entry by its number, where that is to be told, and a line
/// that is refused by the line's own number and its fault. A line of blanks is passed over.
#[tactic(auto, unfolding(crate::specs::Answers::answer, crate::specs::Answers::entries_in))]
pub(crate) fn answer_line<K: Sink, T: Taker>(
    alloc: Global,
    number: u64,
    whole: Whole,
    line: &[u8],
    out: &mut K,
    taker: &mut T,
) -> Result<(), Stop>
    requires ready { T.ready taker.old }
    ensures put { OnOk result (Appends (K.put_bytes out.old) (K.put_bytes out.new)
        (answer T.TELLS_NUMBERS number (T.next taker.old) (ended_line whole line.now))) }
    ensures took { OnOk result
        (T.went taker.old taker.new (entries_in (ended_line whole line.now)) None) }
    ensures ready { OnOk result (T.ready taker.new) }
    ensures same_taker { T.name taker.new ≡ T.name taker.old }
    ensures err { IfErr result (LineStops (T.went taker.old taker.new)
        (Appends (K.put_bytes out.old) (K.put_bytes out.new))
        (answer T.TELLS_NUMBERS number (T.next taker.old) (ended_line whole line.now))
        (entries_in (ended_line whole line.now))) }
    ensures counts { Accounts Stop.Write (K.failures out.old) (K.failures out.new) result }
{
    match whole {
        Whole::Line => answer_text(alloc, number, line, out, taker),
        Whole::TooLong => answer_fault(alloc, number, LineFault::TooLong, out),
    }
}
