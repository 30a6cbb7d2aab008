//! Checkpoints, written and read.
//!
//! The active journal in one byte, the base, the greatest moment, the number of the configuration,
//! the number of states, and each state behind its length. The older spelling has 0 or 1 for the
//! active journal, in place of 2 or 3, and no number of a configuration.

ghost use Rattle.std.specs.Prelude.{◌≡◌, ◌++◌, Bool, Some, None, IfOk, IfErr, IfSome, OnOk, OnErr};
ghost use Rattle.fm_bytes.specs.Reading.{IsMisspelled, counted_from, whole};
ghost use Rattle.fm_entry.specs.Reading.{moment_from};
ghost use Rattle.fm_saved.specs.Saved.{saved_from};
ghost use Rattle.fm_saved.specs.Checkpoints.{IsSpelledCheckpoint, SpellsCheckpoint};
ghost use Rattle.fm_saved.specs.Checkpoints.{checkpoint_bytes, active_from, conf_number_from};
ghost use Rattle.fm_saved.specs.Checkpoints.{checkpoint_from};
ghost use Rattle.fm_saved.specs.declared.checkpoint.Checkpoint.{Checkpoint};

use crate::checkpoint::Checkpoint;
use crate::saved_bytes::{SavedBytes, SavedCodec};
use fm_bytes::{Input, Items, NoMemory, ReadFault, put_u8, put_u32, put_u64};
use fm_items::{put_counted, take_counted};
use std::alloc::Global;

/// Appends the bytes that spell the checkpoint.
pub fn write_checkpoint(checkpoint: &Checkpoint, out: &mut Vec<u8>) -> Result<(), NoMemory>
    requires { IsSpelledCheckpoint checkpoint.now }
    ensures ok { OnOk result (out.new.items ≡ out.old.items ++ checkpoint_bytes checkpoint.now) }
    ensures err { OnErr result (out.new.items ≡ out.old.items) }
{
    let mut spelling = Vec::new(*out.allocator());
    put_checkpoint(checkpoint, &mut spelling)?;
    out.extend_from_slice(&spelling)?;
    Ok(())
}

/// Writes the numbers and the states.
#[tactic(auto, unfolding(fm_bytes::specs::Numbers::u32_bytes))]
fn put_checkpoint(checkpoint: &Checkpoint, out: &mut Vec<u8>) -> Result<(), NoMemory>
    requires { IsSpelledCheckpoint checkpoint.now }
    ensures ok { OnOk result (out.new.items ≡ out.old.items ++ checkpoint_bytes checkpoint.now) }
{
    put_u8(if checkpoint.second { 3 } else { 2 }, out)?;
    put_u64(checkpoint.base, out)?;
    put_u64(checkpoint.moment, out)?;
    put_u32(checkpoint.conf, out)?;
    put_counted::<SavedBytes, SavedCodec>(checkpoint.states.as_slice(), out)
}

/// The checkpoint that the bytes spell, in either way, which is one at most. `None` exactly where
/// they spell none.
pub fn read_checkpoint(alloc: Global, bytes: &[u8]) -> Result<Option<Checkpoint>, NoMemory>
    ensures found { IfOk result (λ o. IfSome o (λ checkpoint.
        IsSpelledCheckpoint checkpoint × SpellsCheckpoint bytes.now checkpoint)) }
    ensures read { (checkpoint : Checkpoint) → IsSpelledCheckpoint checkpoint
        → SpellsCheckpoint bytes.now checkpoint → IfOk result (λ o. o ≡ Some checkpoint) }
{
    let mut input = Input::new(bytes);
    match whole_checkpoint(&mut input, alloc) {
        Ok(checkpoint) => Ok(Some(checkpoint)),
        Err(ReadFault::NoSpelling) => Ok(None),
        Err(ReadFault::NoMemory) => Err(NoMemory),
    }
}

/// The checkpoint that all bytes are.
fn whole_checkpoint(input: &mut Input, alloc: Global) -> Result<Checkpoint, ReadFault>
    ensures ok { IfOk result (λ c. whole (checkpoint_from input.old) ≡ Some c) }
    ensures err { IfErr result (λ f. IsMisspelled f → whole (checkpoint_from input.old) ≡ None) }
{
    let checkpoint = take_checkpoint(input, alloc)?;
    if input.left() == 0 {
        Ok(checkpoint)
    } else {
        Err(ReadFault::NoSpelling)
    }
}

/// A checkpoint.
#[tactic(auto, unfolding(crate::specs::Checkpoints::checkpoint_from))]
fn take_checkpoint(input: &mut Input, alloc: Global) -> Result<Checkpoint, ReadFault>
    ensures ok { IfOk result (λ c. checkpoint_from input.old ≡ Some (c, input.new)) }
    ensures err { IfErr result (λ f. IsMisspelled f → checkpoint_from input.old ≡ None) }
{
    let (second, numbered) = take_active(input)?;
    let base = input.take_u64()?;
    let moment = take_moment(input)?;
    let conf = take_conf_number(input, numbered)?;
    let states = take_counted::<SavedBytes, SavedCodec>(input, alloc)?;
    Ok(Checkpoint {
        second,
        base,
        moment,
        conf,
        states: Items::new(states),
    })
}

/// Whether the second journal is the active one, and whether a configuration is numbered.
#[tactic(auto, unfolding(crate::specs::Checkpoints::active_from))]
fn take_active(input: &mut Input) -> Result<(bool, bool), ReadFault>
    ensures ok { IfOk result (λ active. active_from input.old ≡ Some (active, input.new)) }
    ensures err { IfErr result (λ f. IsMisspelled f → active_from input.old ≡ None) }
{
    match input.take_u8()? {
        0 => Ok((false, false)),
        1 => Ok((true, false)),
        2 => Ok((false, true)),
        3 => Ok((true, true)),
        _ => Err(ReadFault::NoSpelling),
    }
}

/// A moment.
#[tactic(auto, unfolding(fm_entry::specs::Reading::moment_from))]
fn take_moment(input: &mut Input) -> Result<u64, ReadFault>
    ensures ok { IfOk result (λ n. moment_from input.old ≡ Some (n, input.new)) }
    ensures err { IfErr result (λ f. IsMisspelled f → moment_from input.old ≡ None) }
{
    let moment = input.take_u64()?;
    if moment < 1 << 62 {
        Ok(moment)
    } else {
        Err(ReadFault::NoSpelling)
    }
}

/// The number of a configuration, or 0 where none is numbered.
fn take_conf_number(input: &mut Input, numbered: bool) -> Result<u32, ReadFault>
    ensures ok { IfOk result (λ n. conf_number_from numbered input.old ≡ Some (n, input.new)) }
    ensures err { IfErr result (λ f. IsMisspelled f → conf_number_from numbered input.old ≡ None) }
{
    if numbered { input.take_u32() } else { Ok(0) }
}
