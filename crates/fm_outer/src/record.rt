// The record of a disk's writing calls.
ghost use Rattle.std.specs.Prelude.{◌≡◌, ◌≤◌, ◌+◌, ℕ, List, [], ◌∷◌, ◌++◌, IsTrue, length, take};
ghost use Rattle.std.specs.Prelude.{IfOk, OnOk, if◌then◌else◌};
ghost use Rattle.fm_outer.specs.Record.{Wrote, CutTo, Synced, read_after};
ghost use Rattle.fm_outer.specs.Image.{laid_by, cut_by, image_after, image_of};
ghost use Rattle.fm_outer.specs.Tape.{bytes_in, all_bytes, op_of, ops_of, recorded, has_place};

use crate::bytes::{append, cut_if, lay};
use crate::{Image, NoMemory};
use std::alloc::{AllocError, Global};
use std::marker::Model;

/// A writing call and whether it was done. The bytes of a write stand apart.
#[derive(Clone, Copy)]
pub enum Call {
    Write { at: u64, count: usize, done: bool },
    Cut { len: u64, done: bool },
    Sync { done: bool },
}

impl Call {
    // How many bytes it wrote.
    fn count(&self) -> usize
        ensures { result ≡ bytes_in self.now }
    {
        match self {
            Call::Write {
                at: _,
                count,
                done: _,
            } => *count,
            Call::Cut { len: _, done: _ } => 0,
            Call::Sync { done: _ } => 0,
        }
    }
}

/// The writing calls of a disk, in order. A write takes one place and one for each byte, a cut or a
/// sync takes one. All the memory is taken at the start.
#[derive(Drop)]
pub struct Record {
    calls: Vec<Call>,
    bytes: Vec<u8>,
    size: usize,
}

impl Model for Record {
    ghost use Rattle.std.specs.Prelude.{vec_capacity};
    ghost use Rattle.fm_outer.specs.Tape.{Tape, ops_of, IsWhole};

    ghost Value = { Tape };

    ghost view = { λ r. record { ops = ops_of r.calls.items r.bytes.items; size = r.size } };

    ghost invariant = { λ r. IsWhole r.calls.items r.bytes.items r.size (vec_capacity r.calls)
        (vec_capacity r.bytes) };
}

impl Record {
    /// An empty record of so many places.
    pub fn new(alloc: Global, size: usize) -> Result<Record, NoMemory>
        ensures { IfOk result (λ tape. tape ≡ record { ops = []; size = size }) }
    {
        Ok(Record {
            calls: Vec::with_capacity(alloc, size)?,
            bytes: Vec::with_capacity(alloc, size)?,
            size,
        })
    }

    /// How many places there are.
    pub fn size(&self) -> usize
        ensures { result ≡ self.now.size }
    {
        self.size
    }

    /// Whether there are `count` places more.
    pub fn has_place(&self, count: usize) -> bool
        ensures { result ≡ has_place count self.now }
    {
        let taken = self.calls.len() + self.bytes.len();
        count <= self.size - taken
    }

    // Puts a call on the record, which has room for it.
    fn put_call(&mut self, call: Call, bytes: &[u8])
        requires place { IsTrue (has_place (1 + length bytes.now) self.old) }
        requires count { bytes_in call ≡ length bytes.now }
        ensures { self.new ≡ record self.old { ops = self.old.ops ++ op_of call bytes.now ∷ [] } }
    {
        self.calls.push_reserved(call);
        append(&mut self.bytes, bytes);
    }

    /// Notes a write, where there is a place.
    pub fn note_write(&mut self, at: u64, bytes: &[u8], done: bool)
        ensures { self.new ≡ recorded (Wrote at bytes.now done) self.old }
    {
        if self.has_place(1 + bytes.len()) {
            let count = bytes.len();
            self.put_call(Call::Write { at, count, done }, bytes);
        }
    }

    /// Notes a cut, where there is a place.
    pub fn note_cut(&mut self, len: u64, done: bool)
        ensures { self.new ≡ recorded (CutTo len done) self.old }
    {
        if self.has_place(1) {
            self.put_call(Call::Cut { len, done }, &[]);
        }
    }

    /// Notes a sync, where there is a place.
    pub fn note_sync(&mut self, done: bool)
        ensures { self.new ≡ recorded (Synced done) self.old }
    {
        if self.has_place(1) {
            self.put_call(Call::Sync { done }, &[]);
        }
    }

    /// The image that a crash leaves, where a crash before the first call leaves `base`.
    pub fn image(&self, alloc: Global, base: &[u8], how: Image) -> Result<Vec<u8>, NoMemory>
        ensures { IfOk result (λ image. image.items ≡ image_of how self.now.ops base.now) }
    {
        Ok(image_by(alloc, how, base, &self.calls, &self.bytes)?)
    }
}

// The image after the calls, whose bytes stand end to end.
fn image_by(
    alloc: Global,
    how: Image,
    base: &[u8],
    calls: &[Call],
    bytes: &[u8],
) -> Result<Vec<u8>, AllocError>
    requires { all_bytes calls.now ≡ length bytes.now }
    ensures { IfOk result
        (λ image. image.items ≡ image_of how (ops_of calls.now bytes.now) base.now) }
{
    let mut seen = base.to_vec(alloc)?;
    let mut image = base.to_vec(alloc)?;
    let mut rest = bytes;
    for call in calls {
        let count = call.count();
        replay(alloc, how, *call, &rest[..count], &mut seen, &mut image)?;
        rest = &rest[count..];
    }
    Ok(image)
}

// Puts into the image what the image has of a written range.
fn lay_by(
    alloc: Global,
    image: &mut Vec<u8>,
    how: Image,
    at: u64,
    piece: &[u8],
) -> Result<(), AllocError>
    ensures { OnOk result (image.new.items ≡ laid_by how at piece.now image.old.items) }
{
    match how {
        Image::Old => Ok(()),
        Image::New => lay(image, at, piece),
        Image::Fill(byte) => {
            let filled = vec![in alloc; byte; piece.len()]?;
            lay(image, at, &filled)
        }
    }
}

// Cuts the image, where it has the cut.
fn cut_image(image: &mut Vec<u8>, how: Image, len: u64, done: bool)
    ensures { image.new.items ≡ (if done then cut_by how len image.old.items else image.old.items) }
{
    match how {
        Image::Old => {}
        Image::New => cut_if(image, len, done),
        Image::Fill(_) => cut_if(image, len, done),
    }
}

// Makes the image what was read, where the sync was done.
fn sync_if(image: &mut Vec<u8>, seen: &[u8], done: bool) -> Result<(), AllocError>
    ensures { OnOk result (image.new.items ≡ (if done then seen.now else image.old.items)) }
{
    if !done {
        return Ok(());
    }
    image.clear();
    image.extend_from_slice(seen)
}

// One call more, of what is read and of the image.
fn replay(
    alloc: Global,
    how: Image,
    call: Call,
    piece: &[u8],
    seen: &mut Vec<u8>,
    image: &mut Vec<u8>,
) -> Result<(), AllocError>
    ensures seen { OnOk result (seen.new.items ≡ read_after (op_of call piece.now) seen.old.items) }
    ensures image { OnOk result (image.new.items
        ≡ image_after how (op_of call piece.now) seen.old.items image.old.items) }
{
    match call {
        Call::Write { at, count: _, done } => {
            lay_by(alloc, image, how, at, piece)?;
            if done {
                return lay(seen, at, piece);
            }
            Ok(())
        }
        Call::Cut { len, done } => {
            cut_image(image, how, len, done);
            cut_if(seen, len, done);
            Ok(())
        }
        Call::Sync { done } => sync_if(image, seen, done),
    }
}
