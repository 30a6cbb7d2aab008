// The command `replay`.
ghost use Rattle.std.specs.Prelude.{◌≡◌, ◌≤◌, List, [], Err, OnOk, IfErr};
ghost use Rattle.std.specs.Io.KnownBytes.{Appends, Consumes, IsAtEnd};
ghost use Rattle.fm_entry.specs.declared.entry.Entry.{Entry};
ghost use Rattle.fm_answers.specs.Accounts.{Accounts};
ghost use Rattle.fm_answers.specs.StreamsAt.{sink_at};
ghost use Rattle.fm_answers.specs.Refusing.{PutCut};
ghost use Rattle.fm_answers.specs.Replaying.{replayed, replay_text, ReplayedAll, ReplayStops};
ghost use Rattle.fm_answers.specs.Tallied.{sum_of, sum_with, IsTally};

use crate::answering::put_text;
use crate::reading::run;
use crate::stops::Stop;
use crate::tally::Tally;
use fm_outer::{Sink, Source};
use std::alloc::Global;

/// Puts what the two modules come to.
#[tactic(auto, using(crate::proofs::Sinks::appends_none))]
fn put_summary<K: Sink>(alloc: Global, tally: &mut Tally, out: &mut K) -> Result<(), Stop>
    requires ready { IsTally tally.old }
    ensures ok { OnOk result
        ((entries : List Entry) → sum_with tally.old [] ≡ sum_of 0 (replayed entries)
        → Appends (K.put_bytes out.old) (K.put_bytes out.new) (replay_text entries)) }
    ensures err { IfErr result
        (λ stop. (entries : List Entry) → sum_with tally.old [] ≡ sum_of 0 (replayed entries)
        → PutCut (sink_at K.Sink out.old) (sink_at K.Sink out.new) (replay_text entries) stop) }
    ensures counts { Accounts Stop.Write (K.failures out.old) (K.failures out.new) result }
    ensures no_read { result ≡ Err Stop.Read → ⊥ }
{
    let text = tally.text(alloc)?;
    put_text(out, text.as_str())
}

/// Takes the entries of the input into two counters, puts the refusals as they are met, and then
/// what the counters come to.
pub fn replay<S: Source, K: Sink>(alloc: Global, input: &mut S, out: &mut K) -> Result<(), Stop>
    ensures all { OnOk result (ReplayedAll (Appends (K.put_bytes out.old) (K.put_bytes out.new))
        (Consumes (S.left input.old) (S.left input.new)) (IsAtEnd (S.left input.new))) }
    ensures until { IfErr result (ReplayStops (Appends (K.put_bytes out.old) (K.put_bytes out.new))
        (Consumes (S.left input.old) (S.left input.new)) (IsAtEnd (S.left input.new))) }
    ensures counts_out { Accounts Stop.Write (K.failures out.old) (K.failures out.new) result }
    ensures counts_input { Accounts Stop.Read (S.failures input.old) (S.failures input.new) result }
{
    let mut tally = Tally::new(alloc)?;
    run(alloc, input, out, &mut tally)?;
    put_summary(alloc, &mut tally, out)
}
