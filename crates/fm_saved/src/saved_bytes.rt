//! Bytes that are saved as they are.

ghost use Rattle.std.specs.Prelude.{◌≡◌, ◌<◌, ◌^◌, Some, None, length, IfOk};
ghost use Rattle.fm_bytes.specs.Numbers.{long_text};
ghost use Rattle.fm_saved.specs.Saved.{FitsLongText, saved_from};

use fm_bytes::{Copies, Input, NoMemory, ReadFault, put_u32};
use fm_items::Codec;
use std::alloc::Global;
use std::marker::Model;

/// Bytes, which contracts see as their list: a rule file, a topology, or a module's state.
#[derive(Drop)]
pub struct SavedBytes {
    bytes: Vec<u8>,
}

impl Model for SavedBytes {
    ghost use Rattle.std.specs.Prelude.{ℕ, List};

    ghost Value = { List ℕ };

    ghost view = { λ t. t.bytes.items };
}

impl SavedBytes {
    /// These bytes, copied.
    pub fn new(alloc: Global, bytes: &[u8]) -> Result<SavedBytes, NoMemory>
        ensures { IfOk result (λ saved. saved ≡ bytes.now) }
    {
        let bytes = bytes.to_vec(alloc)?;
        Ok(SavedBytes { bytes })
    }

    /// What was put in.
    pub fn get(&self) -> &[u8]
        ensures { result.now ≡ self.now }
    {
        self.bytes.as_slice()
    }
}

impl Copies for SavedBytes {
    fn copy(&self, alloc: Global) -> Result<SavedBytes, NoMemory> {
        SavedBytes::new(alloc, self.get())
    }
}

/// The spelling of saved bytes: behind their length in four bytes.
pub(crate) struct SavedCodec;

impl Codec<SavedBytes> for SavedCodec {
    ghost fits = { FitsLongText };

    ghost spelling = { long_text };

    ghost reading = { saved_from };

    fn put(saved: &SavedBytes, out: &mut Vec<u8>) -> Result<(), NoMemory> {
        let bytes = saved.get();
        put_u32(bytes.len() as u32, out)?;
        out.extend_from_slice(bytes)?;
        Ok(())
    }

    #[tactic(auto, unfolding(crate::specs::Saved::saved_from))]
    fn take(input: &mut Input, alloc: Global) -> Result<SavedBytes, ReadFault> {
        let length = input.take_u32()?;
        let piece = input.take_piece(length as usize)?;
        Ok(SavedBytes::new(alloc, piece)?)
    }
}
