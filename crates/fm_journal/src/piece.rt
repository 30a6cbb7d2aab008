// The piece of a disk that was read last.
ghost use Rattle.std.specs.Prelude.{◌≡◌, ℕ, ◌+◌, ◌-◌, ◌≤◌, ◌++◌, [], List, length, drop, take, min};
ghost use Rattle.std.specs.Prelude.{Some, OnOk};
ghost use Rattle.fm_outer.specs.Bytes.{range, InsideRange};
ghost use Rattle.fm_outer.specs.Failures.{HasCause};
ghost use Rattle.fm_outer.specs.Moments.{OnlyRead};
ghost use Rattle.fm_journal.specs.Pieces.{IsPiece, piece_of};

use fm_outer::{Disk, Failed};
use std::marker::Model;

/// How many bytes one call of a disk reads at most, but for a longer payload.
const ROOM: usize = 65536;

/// The piece of a disk that was read last, through which payloads are read one after another.
/// Contracts see its place and its bytes. It takes 64 KiB, and nothing from an allocator.
#[derive(Drop)]
pub struct Piece {
    bytes: [u8; ROOM],
    start: u64,
    filled: usize,
}

impl Model for Piece {
    ghost use Rattle.std.specs.Prelude.{◌≤◌, length};
    ghost use Rattle.fm_journal.specs.Pieces.{PieceOf, piece_of};

    ghost Value = { PieceOf };

    ghost view = { λ p. piece_of p.start p.filled p.bytes };

    ghost invariant = { λ p. p.filled ≤ length p.bytes };
}

impl Piece {
    /// Nothing was read.
    pub fn none() -> Piece
        ensures { result ≡ piece_of 0 0 [] }
    {
        Piece {
            bytes: [0; ROOM],
            start: 0,
            filled: 0,
        }
    }

    /// What was read from a place on.
    pub(crate) fn from(&self, at: u64) -> &[u8]
        requires after { self.now.start ≤ at }
        requires before { at ≤ self.now.start + length self.now.held }
        ensures { result.now ≡ drop (at - self.now.start) self.now.held }
    {
        &self.bytes[(at - self.start) as usize..self.filled]
    }

    // Reads so many bytes from the place on. Where that fails nothing is held.
    fn fill<D: Disk>(&mut self, disk: &mut D, at: u64, count: usize) -> Result<(), Failed>
        requires fits { count ≤ 65536 }
        requires inside { InsideRange at count (D.seen disk.old) }
        ensures start { OnOk result (self.new.start ≡ at) }
        ensures filled { OnOk result (length self.new.held ≡ count) }
        ensures read { IsPiece (D.seen disk.old) self.new }
        ensures still { OnlyRead D.Disk disk.old disk.new }
        ensures cause { HasCause (D.failures disk.old) (D.failures disk.new) result }
    {
        self.filled = 0;
        disk.read(at, &mut self.bytes[..count])?;
        self.start = at;
        self.filled = count;
        Ok(())
    }

    /// Sees to it that the piece has `need` bytes from the place on, of the first `size` bytes of a
    /// disk.
    pub(crate) fn reach<D: Disk>(
        &mut self,
        disk: &mut D,
        at: u64,
        need: u64,
        size: u64,
    ) -> Result<(), Failed>
        requires few { need ≤ 65536 }
        requires inside { at + need ≤ size }
        requires told { (bytes : List ℕ) → D.seen disk.old ≡ Some bytes → size ≤ length bytes }
        requires read { IsPiece (D.seen disk.old) self.old }
        ensures after { OnOk result (self.new.start ≤ at) }
        ensures before { OnOk result (at + need ≤ self.new.start + length self.new.held) }
        ensures read { IsPiece (D.seen disk.old) self.new }
        ensures still { OnlyRead D.Disk disk.old disk.new }
        ensures cause { HasCause (D.failures disk.old) (D.failures disk.new) result }
    {
        if self.start <= at && at - self.start + need <= self.filled as u64 {
            return Ok(());
        }
        let count = (size - at).min(ROOM as u64);
        self.fill(disk, at, count as usize)
    }

    // Copies what is held from the place on, as far as it goes, and answers how many bytes.
    fn copy_held(&self, at: u64, into: &mut [u8]) -> usize
        requires after { self.now.start ≤ at }
        requires before { at ≤ self.now.start + length self.now.held }
        ensures count { result
            ≡ min (length self.now.held - (at - self.now.start)) (length into.old) }
        ensures bytes { into.new
            ≡ take result (drop (at - self.now.start) self.now.held) ++ drop result into.old }
    {
        let held = self.from(at);
        let count = held.len().min(into.len());
        into[..count].copy_from_slice(&held[..count]);
        count
    }

    // Fills the buffer with the bytes from the place on, by one call of the disk at most.
    fn read_rest<D: Disk>(
        &mut self,
        disk: &mut D,
        at: u64,
        into: &mut [u8],
        size: u64,
    ) -> Result<(), Failed>
        requires inside { at + length into.old ≤ size }
        requires told { (bytes : List ℕ) → D.seen disk.old ≡ Some bytes → size ≤ length bytes }
        requires read { IsPiece (D.seen disk.old) self.old }
        ensures bytes { OnOk result ((bytes : List ℕ) → D.seen disk.old ≡ Some bytes
            → into.new ≡ range at (length into.old) bytes) }
        ensures read { IsPiece (D.seen disk.old) self.new }
        ensures still { OnlyRead D.Disk disk.old disk.new }
        ensures cause { HasCause (D.failures disk.old) (D.failures disk.new) result }
    {
        if into.len() > ROOM {
            return disk.read(at, into);
        }
        self.reach(disk, at, into.len() as u64, size)?;
        into.copy_from_slice(&self.from(at)[..into.len()]);
        Ok(())
    }

    /// Fills the buffer with the bytes from the place on, which stand among the first `size` bytes
    /// of a disk and aren't the last of them.
    pub(crate) fn copy<D: Disk>(
        &mut self,
        disk: &mut D,
        at: u64,
        into: &mut [u8],
        size: u64,
    ) -> Result<(), Failed>
        requires inside { at + length into.old + 1 ≤ size }
        requires told { (bytes : List ℕ) → D.seen disk.old ≡ Some bytes → size ≤ length bytes }
        requires read { IsPiece (D.seen disk.old) self.old }
        ensures bytes { OnOk result ((bytes : List ℕ) → D.seen disk.old ≡ Some bytes
            → into.new ≡ range at (length into.old) bytes) }
        ensures read { IsPiece (D.seen disk.old) self.new }
        ensures still { OnlyRead D.Disk disk.old disk.new }
        ensures cause { HasCause (D.failures disk.old) (D.failures disk.new) result }
    {
        self.reach(disk, at, 1, size)?;
        let count = self.copy_held(at, into);
        self.read_rest(disk, at + count as u64, &mut into[count..], size)
    }
}
