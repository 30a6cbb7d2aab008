//! States, written.

ghost use Rattle.std.specs.Prelude.{◌≡◌, ◌++◌, ◌<◌, length, OnOk};
ghost use Rattle.fm_entry.specs.declared.broken.Broken.{Broken};
ghost use Rattle.dx_state.specs.StateBytes.{case_links, open_case_bytes, moments_bytes};
ghost use Rattle.dx_state.specs.StateBytes.{version_byte};

use crate::codecs::{BrokenCodec, LongCodec, put_long_list};
use crate::kept_case::KeptCase;
use fm_bytes::{NoMemory, put_u16, put_u64};
use fm_entry::Broken;
use fm_items::{NumberCodec, put_counted, put_items};

/// The first byte of a state in which some open case has broken links, or none has.
pub fn version_of(marked: bool) -> u8
    ensures { result ≡ version_byte marked }
{
    if marked { 2 } else { 1 }
}

/// Appends the bytes that spell an open case, in a state in which some case has broken links, or
/// none has. After want of memory a part of them may stand there.
pub fn put_case(case: &KeptCase, marked: bool, out: &mut Vec<u8>) -> Result<(), NoMemory>
    ensures ok { OnOk result (out.new.items ≡ out.old.items ++ open_case_bytes marked case.now) }
{
    put_u64(case.number(), out)?;
    put_u64(case.opened(), out)?;
    put_long_list::<u64, LongCodec>(case.entries(), out)?;
    put_counted::<u32, NumberCodec>(case.observed(), out)?;
    put_links(case, marked, out)
}

/// Writes the broken links of a case, where the state has some.
fn put_links(case: &KeptCase, marked: bool, out: &mut Vec<u8>) -> Result<(), NoMemory>
    ensures ok { OnOk result
        (out.new.items ≡ out.old.items ++ case_links marked case.now.broken) }
{
    if marked {
        put_counted::<Broken, BrokenCodec>(case.broken(), out)
    } else {
        Ok(())
    }
}

/// Appends the bytes that spell the moments of an engine. After want of memory a part of them may
/// stand there.
#[tactic(auto, unfolding(fm_bytes::specs::Numbers::u16_bytes))]
pub fn put_moments(moments: &[u64], out: &mut Vec<u8>) -> Result<(), NoMemory>
    requires { length moments.now < 65536 }
    ensures ok { OnOk result (out.new.items ≡ out.old.items ++ moments_bytes moments.now) }
{
    put_u16(moments.len() as u16, out)?;
    put_items::<u64, LongCodec>(moments, out)
}
