// A payload that is ready to fill a slot.
ghost use Rattle.std.specs.Prelude.{◌≡◌, ◌<◌, ◌≤◌, ◌+◌, ◌^◌, ◌++◌, ◌↔◌, length, IfOk, IsErrOf};
ghost use Rattle.byteorder.specs.Endian.{big_bytes};
ghost use Rattle.fm_slots.specs.Format.{slot_body, IsSlotWithin};

use byteorder::{BigEndian, ByteOrder};
use fm_outer::FrameFault;
use std::alloc::Global;
use std::marker::Model;

/// The most bytes of a payload.
pub(crate) const MAX_LENGTH: u32 = 1 << 28;

/// A payload with its sequence and its length before it, as `fill` writes it behind the gate.
/// Contracts see the sequence and the payload. To fill a slot takes no memory.
#[derive(Drop)]
pub struct SlotFrame {
    sequence: u64,
    body: Vec<u8>,
}

impl Model for SlotFrame {
    ghost use Rattle.std.specs.Prelude.{◌≡◌, drop};
    ghost use Rattle.fm_slots.specs.Format.{SlotOf, slot_body, IsSlotWithin};

    ghost Value = { SlotOf };

    ghost view = { λ f. record { sequence = f.sequence; payload = drop 12 f.body.items } };

    ghost invariant = { λ f. (f.body.items ≡ slot_body f.sequence (drop 12 f.body.items))
        × IsSlotWithin f.sequence (drop 12 f.body.items) };
}

/// The sequence and the length.
fn slot_head(sequence: u64, count: u32) -> [u8; 12]
    ensures { result ≡ big_bytes 8 sequence ++ big_bytes 4 count }
{
    let mut head = [0; 12];
    BigEndian::write_u64(&mut head[..8], sequence);
    BigEndian::write_u32(&mut head[8..], count);
    head
}

impl SlotFrame {
    /// A frame of the payload, which has at most 2^28 bytes. The sequence is at least 1 and below
    /// 2^62.
    pub fn new(alloc: Global, sequence: u64, payload: &[u8]) -> Result<SlotFrame, FrameFault>
        requires positive { 1 ≤ sequence }
        requires fits { sequence < 2 ^ 62 }
        ensures ok { IfOk result
            (λ frame. frame ≡ record { sequence = sequence; payload = payload.now }) }
        ensures too_long { IsErrOf result FrameFault.TooLong ↔ 2 ^ 28 < length payload.now }
    {
        if payload.len() > MAX_LENGTH as usize {
            return Err(FrameFault::TooLong);
        }
        let mut body = Vec::with_capacity(alloc, payload.len() + 12)?;
        body.extend_from_slice(&slot_head(sequence, payload.len() as u32))?;
        body.extend_from_slice(payload)?;
        Ok(SlotFrame { sequence, body })
    }

    /// The bytes that stand behind the gate.
    pub(crate) fn body(&self) -> &[u8]
        ensures bytes { result.now ≡ slot_body self.now.sequence self.now.payload }
        ensures limits { IsSlotWithin self.now.sequence self.now.payload }
    {
        &self.body
    }
}
