// Bytes written over others and past their end.
ghost use Rattle.std.specs.Prelude.{◌≡◌, ◌+◌, ◌≤◌, ◌++◌, length, take, OnOk, IsOk, vec_len};
ghost use Rattle.std.specs.Prelude.{vec_capacity, IsTrue, if◌then◌else◌};
ghost use Rattle.fm_outer.specs.Bytes.{written};
ghost use Rattle.fm_outer.specs.Record.{laid};

use std::alloc::AllocError;

// Puts the piece over what stands there. It fits.
fn overwrite(bytes: &mut [u8], at: usize, piece: &[u8])
    requires { at + length piece.now ≤ length bytes.old }
    ensures { bytes.new ≡ written at piece.now bytes.old }
{
    bytes[at..at + piece.len()].copy_from_slice(piece);
}

// Puts the piece where it reaches the end, or passes it.
fn extend_at(bytes: &mut Vec<u8>, at: usize, piece: &[u8]) -> Result<(), AllocError>
    requires at { at ≤ vec_len bytes.old }
    requires past { vec_len bytes.old ≤ at + length piece.now }
    ensures ok { OnOk result (bytes.new.items ≡ written at piece.now bytes.old.items) }
    ensures room { at + length piece.now ≤ vec_capacity bytes.old → IsOk result }
    ensures capacity { vec_capacity bytes.old ≤ vec_capacity bytes.new }
{
    bytes.truncate(at);
    bytes.extend_from_slice(piece)
}

/// Appends the piece, which has room.
pub fn append(bytes: &mut Vec<u8>, piece: &[u8])
    requires { vec_len bytes.old + length piece.now ≤ vec_capacity bytes.old }
    ensures items { bytes.new.items ≡ bytes.old.items ++ piece.now }
    ensures capacity { vec_capacity bytes.old ≤ vec_capacity bytes.new }
{
    let _ = bytes.extend_from_slice(piece);
}

/// Writes the piece at a place that is not past the end. It takes memory only past the capacity.
pub fn write_into(bytes: &mut Vec<u8>, at: usize, piece: &[u8]) -> Result<(), AllocError>
    requires { at ≤ vec_len bytes.old }
    ensures ok { OnOk result (bytes.new.items ≡ written at piece.now bytes.old.items) }
    ensures room { at + length piece.now ≤ vec_capacity bytes.old → IsOk result }
    ensures capacity { vec_capacity bytes.old ≤ vec_capacity bytes.new }
{
    if at + piece.len() >= bytes.len() {
        return extend_at(bytes, at, piece);
    }
    overwrite(bytes, at, piece);
    Ok(())
}

/// Writes the piece, if it is to be written. It has room.
pub fn write_if(bytes: &mut Vec<u8>, done: bool, at: usize, piece: &[u8])
    requires at { at ≤ vec_len bytes.old }
    requires room { IsTrue done → at + length piece.now ≤ vec_capacity bytes.old }
    ensures items { bytes.new.items
        ≡ (if done then written at piece.now bytes.old.items else bytes.old.items) }
    ensures capacity { vec_capacity bytes.old ≤ vec_capacity bytes.new }
{
    if done {
        let _ = write_into(bytes, at, piece);
    }
}

/// Writes the piece where its place is not past the end, and nothing else.
pub fn lay(bytes: &mut Vec<u8>, at: u64, piece: &[u8]) -> Result<(), AllocError>
    ensures { OnOk result (bytes.new.items ≡ laid at piece.now bytes.old.items) }
{
    if at > bytes.len() as u64 {
        return Ok(());
    }
    write_into(bytes, at as usize, piece)
}

/// Cuts the bytes, if they are to be cut.
pub fn cut_if(bytes: &mut Vec<u8>, len: u64, done: bool)
    ensures items { bytes.new.items ≡ (if done then take len bytes.old.items else bytes.old.items) }
    ensures capacity { vec_capacity bytes.new ≡ vec_capacity bytes.old }
{
    if done {
        bytes.truncate(len as usize);
    }
}
