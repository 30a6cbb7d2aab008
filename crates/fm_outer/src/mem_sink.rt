// A sink in memory.
ghost use Rattle.std.specs.Prelude.{◌≡◌, ℕ, ◌≤◌, List, [], length, take, is_ok, IfOk, OnOk, OnErr};
ghost use Rattle.std.specs.Prelude.{Some, if◌then◌else◌};
ghost use Rattle.std.specs.Io.KnownBytes.{Appends};
ghost use Rattle.fm_outer.specs.Failures.{HasCause};
ghost use Rattle.fm_outer.specs.FailPlan.{fresh_plan};
ghost use Rattle.fm_outer.specs.MemSink.{takes, sink_after};

use crate::bytes::append;
use crate::fail_plan::FailPlan;
use crate::{Failed, NoMemory, Sink};
use std::alloc::Global;
use std::marker::Model;

/// Room in memory for what is put. The calls whose numbers it was told fail, and those that would
/// pass its room, and no others; the first call has the number 0. A call that fails puts nothing.
#[derive(Drop)]
pub struct MemSink {
    bytes: Vec<u8>,
    room: usize,
    plan: FailPlan,
}

impl Model for MemSink {
    ghost use Rattle.std.specs.Prelude.{◌≤◌, vec_capacity};
    ghost use Rattle.fm_outer.specs.MemSink.{SinkState};

    ghost Value = { SinkState };

    ghost view = { λ s. record { bytes = s.bytes.items; room = s.room; plan = s.plan } };

    ghost invariant = { λ s. s.room ≤ vec_capacity s.bytes };
}

impl MemSink {
    /// An empty sink with room for so many bytes, all of which it takes from the allocator now.
    pub fn new(alloc: Global, room: usize, fails: Vec<u64>) -> Result<MemSink, NoMemory>
        ensures { IfOk result
            (λ sink. sink ≡ record { bytes = []; room = room; plan = fresh_plan fails.items }) }
    {
        Ok(MemSink {
            bytes: Vec::with_capacity(alloc, room)?,
            room,
            plan: FailPlan::new(fails),
        })
    }

    /// The bytes that were put.
    pub fn bytes(&self) -> &[u8]
        ensures { result.now ≡ self.now.bytes }
    {
        &self.bytes
    }

    // Whether the next call takes the piece.
    fn takes(&self, piece: &[u8]) -> bool
        ensures { result ≡ takes self.now piece.now }
    {
        !self.plan.is_due() && self.bytes.len() + piece.len() <= self.room
    }
}

impl Sink for MemSink {
    ghost put_bytes = { λ s. Some s.bytes };

    ghost failures = { λ s. s.plan.failures };

    fn put(&mut self, piece: &[u8]) -> Result<(), Failed>
        ensures ok { OnOk result (Appends (Some self.old.bytes) (Some self.new.bytes) piece.now) }
        ensures err { OnErr result ((n : ℕ) × (n ≤ length piece.now)
            × Appends (Some self.old.bytes) (Some self.new.bytes) (take n piece.now)) }
        ensures cause { HasCause self.old.plan.failures self.new.plan.failures result }
        // It fails exactly where it is due to, or has no room.
        ensures fails { is_ok result ≡ takes self.old piece.now }
        ensures state { self.new
            ≡ sink_after (is_ok result) (if is_ok result then piece.now else []) self.old }
    {
        let done = self.takes(piece);
        self.plan.answer(done)?;
        append(&mut self.bytes, piece);
        Ok(())
    }
}
