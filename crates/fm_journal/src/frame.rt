// A payload that is ready to be appended.
ghost use Rattle.std.specs.Prelude.{◌≡◌, ◌<◌, ◌≤◌, ◌+◌, ◌^◌, ◌↔◌, length, IfOk, IsErrOf};
ghost use Rattle.fm_journal.specs.Format.{framed};

use crate::FrameFault;
use byteorder::{BigEndian, ByteOrder};
use std::alloc::Global;
use std::marker::Model;

/// The most bytes of a payload.
pub(crate) const MAX_LENGTH: u32 = 1 << 28;

/// A payload with its length before it and a closed gate behind it, as `append` writes it in one
/// piece. Contracts see the payload. An append of a frame takes no memory.
#[derive(Drop)]
pub struct Frame {
    body: Vec<u8>,
}

impl Model for Frame {
    ghost use Rattle.std.specs.Prelude.{◌≡◌, ◌-◌, ◌≤◌, ◌^◌, ℕ, List, length};
    ghost use Rattle.fm_outer.specs.Bytes.{range};
    ghost use Rattle.fm_journal.specs.Format.{framed};

    ghost Value = { List ℕ };

    ghost view = { λ f. range 4 (length f.body.items - 5) f.body.items };

    ghost invariant = { λ f.
        (f.body.items ≡ framed (range 4 (length f.body.items - 5) f.body.items))
        × (length (range 4 (length f.body.items - 5) f.body.items) ≤ 2 ^ 28) };
}

impl Frame {
    /// A frame of the payload, which has at most 2^28 bytes.
    pub fn new(alloc: Global, payload: &[u8]) -> Result<Frame, FrameFault>
        ensures ok { IfOk result (λ frame. frame ≡ payload.now) }
        ensures too_long { IsErrOf result FrameFault.TooLong ↔ 2 ^ 28 < length payload.now }
    {
        if payload.len() > MAX_LENGTH as usize {
            return Err(FrameFault::TooLong);
        }
        let mut size = [0; 4];
        BigEndian::write_u32(&mut size, payload.len() as u32);
        let mut body = Vec::with_capacity(alloc, payload.len() + 5)?;
        body.extend_from_slice(&size)?;
        body.extend_from_slice(payload)?;
        body.push(0)?;
        Ok(Frame { body })
    }

    /// The bytes that an append writes behind the closed gate.
    pub(crate) fn body(&self) -> &[u8]
        ensures bytes { result.now ≡ framed self.now }
        ensures size { length result.now ≡ 5 + length self.now }
        ensures short { length self.now ≤ 2 ^ 28 }
    {
        &self.body
    }
}
