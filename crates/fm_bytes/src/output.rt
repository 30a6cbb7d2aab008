//! Numbers and texts, written behind what a buffer holds.
//!
//! After want of memory a part of what was to be written may stand there. Who wants all or nothing
//! writes into a buffer of its own first, and adds that in one go.

ghost use Rattle.std.specs.Prelude.{◌≡◌, ◌++◌, ◌∷◌, [], ◌<◌, length, OnOk};
ghost use Rattle.fm_bytes.specs.Numbers.{u16_bytes, u32_bytes, u64_bytes, short_text, long_text};

use crate::no_memory::NoMemory;
use byteorder::{BigEndian, ByteOrder};

/// Writes one byte.
pub fn put_u8(n: u8, out: &mut Vec<u8>) -> Result<(), NoMemory>
    ensures ok { OnOk result (out.new.items ≡ out.old.items ++ n ∷ []) }
{
    out.push(n)?;
    Ok(())
}

/// Writes a number in two bytes.
#[tactic(auto, unfolding(crate::specs::Numbers::u16_bytes))]
pub fn put_u16(n: u16, out: &mut Vec<u8>) -> Result<(), NoMemory>
    ensures ok { OnOk result (out.new.items ≡ out.old.items ++ u16_bytes n) }
{
    let mut bytes = [0u8; 2];
    BigEndian::write_u16(&mut bytes, n);
    out.extend_from_slice(&bytes)?;
    Ok(())
}

/// Writes a number in four bytes.
#[tactic(auto, unfolding(crate::specs::Numbers::u32_bytes))]
pub fn put_u32(n: u32, out: &mut Vec<u8>) -> Result<(), NoMemory>
    ensures ok { OnOk result (out.new.items ≡ out.old.items ++ u32_bytes n) }
{
    let mut bytes = [0u8; 4];
    BigEndian::write_u32(&mut bytes, n);
    out.extend_from_slice(&bytes)?;
    Ok(())
}

/// Writes a number in eight bytes.
#[tactic(auto, unfolding(crate::specs::Numbers::u64_bytes))]
pub fn put_u64(n: u64, out: &mut Vec<u8>) -> Result<(), NoMemory>
    ensures ok { OnOk result (out.new.items ≡ out.old.items ++ u64_bytes n) }
{
    let mut bytes = [0u8; 8];
    BigEndian::write_u64(&mut bytes, n);
    out.extend_from_slice(&bytes)?;
    Ok(())
}

/// Writes a text of fewer than 2^16 bytes behind its length in two bytes.
pub fn put_short_text(text: &str, out: &mut Vec<u8>) -> Result<(), NoMemory>
    requires { length text.now < 65536 }
    ensures ok { OnOk result (out.new.items ≡ out.old.items ++ short_text text.now) }
{
    put_u16(text.len() as u16, out)?;
    out.extend_from_slice(text.as_bytes())?;
    Ok(())
}

/// Writes a text of fewer than 2^32 bytes behind its length in four bytes.
pub fn put_long_text(text: &str, out: &mut Vec<u8>) -> Result<(), NoMemory>
    requires { length text.now < 4294967296 }
    ensures ok { OnOk result (out.new.items ≡ out.old.items ++ long_text text.now) }
{
    put_u32(text.len() as u32, out)?;
    out.extend_from_slice(text.as_bytes())?;
    Ok(())
}
