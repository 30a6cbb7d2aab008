//! Bytes that are read from the front.

ghost use Rattle.std.specs.Prelude.{◌≡◌, Some, None, true, false, length, IfOk, IfErr};
ghost use Rattle.std.specs.Str.{is_utf8};
ghost use Rattle.fm_bytes.specs.Numbers.{AllBytes};
ghost use Rattle.fm_bytes.specs.Reading.{IsMisspelled, number_from, piece_from, text_of_length};
ghost use Rattle.fm_bytes.specs.Reading.{short_text_from, long_text_from};

use crate::fault::ReadFault;
use byteorder::{BigEndian, ByteOrder};
use std::marker::Model;

/// Bytes that are read from the front, which contracts see as the bytes that are left. After a
/// fault of a call the bytes that are left may be any.
#[derive(Drop)]
pub struct Input<'a> {
    rest: &'a [u8],
}

impl<'a> Model for Input<'a> {
    ghost use Rattle.std.specs.Prelude.{ℕ, List};

    ghost Value = { List ℕ };

    ghost view = { λ a. a.rest.now };
}

impl<'a> Input<'a> {
    /// These bytes.
    pub fn new(bytes: &'a [u8]) -> Input<'a>
        ensures { result ≡ bytes.now }
    {
        Input { rest: bytes }
    }

    /// How many bytes are left.
    pub fn left(&self) -> usize
        ensures left { result ≡ length self.now }
        ensures bytes { AllBytes self.now }
    {
        all_bytes(self.rest);
        self.rest.len()
    }

    /// A number of one byte.
    #[tactic(auto, unfolding(crate::specs::Reading::number_from))]
    pub fn take_u8(&mut self) -> Result<u8, ReadFault>
        ensures ok { IfOk result (λ n. number_from 1 self.old ≡ Some (n, self.new)) }
        ensures err { IfErr result (λ f. IsMisspelled f → number_from 1 self.old ≡ None) }
    {
        if self.rest.is_empty() {
            return Err(ReadFault::NoSpelling);
        }
        let number = self.rest[0];
        self.rest = &self.rest[1..];
        Ok(number)
    }

    /// A number of two bytes.
    #[tactic(auto, unfolding(crate::specs::Reading::number_from))]
    pub fn take_u16(&mut self) -> Result<u16, ReadFault>
        ensures ok { IfOk result (λ n. number_from 2 self.old ≡ Some (n, self.new)) }
        ensures err { IfErr result (λ f. IsMisspelled f → number_from 2 self.old ≡ None) }
    {
        if self.rest.len() < 2 {
            return Err(ReadFault::NoSpelling);
        }
        let number = BigEndian::read_u16(self.rest);
        self.rest = &self.rest[2..];
        Ok(number)
    }

    /// A number of four bytes.
    #[tactic(auto, unfolding(crate::specs::Reading::number_from))]
    pub fn take_u32(&mut self) -> Result<u32, ReadFault>
        ensures ok { IfOk result (λ n. number_from 4 self.old ≡ Some (n, self.new)) }
        ensures err { IfErr result (λ f. IsMisspelled f → number_from 4 self.old ≡ None) }
    {
        if self.rest.len() < 4 {
            return Err(ReadFault::NoSpelling);
        }
        let number = BigEndian::read_u32(self.rest);
        self.rest = &self.rest[4..];
        Ok(number)
    }

    /// A number of eight bytes.
    #[tactic(auto, unfolding(crate::specs::Reading::number_from))]
    pub fn take_u64(&mut self) -> Result<u64, ReadFault>
        ensures ok { IfOk result (λ n. number_from 8 self.old ≡ Some (n, self.new)) }
        ensures err { IfErr result (λ f. IsMisspelled f → number_from 8 self.old ≡ None) }
    {
        if self.rest.len() < 8 {
            return Err(ReadFault::NoSpelling);
        }
        let number = BigEndian::read_u64(self.rest);
        self.rest = &self.rest[8..];
        Ok(number)
    }

    /// So many bytes.
    #[tactic(auto, unfolding(crate::specs::Reading::piece_from))]
    pub fn take_piece(&mut self, length: usize) -> Result<&'a [u8], ReadFault>
        ensures ok { IfOk result (λ t. piece_from length self.old ≡ Some (t.now, self.new)) }
        ensures err { IfErr result (λ f. IsMisspelled f → piece_from length self.old ≡ None) }
    {
        if self.rest.len() < length {
            return Err(ReadFault::NoSpelling);
        }
        let piece = &self.rest[..length];
        self.rest = &self.rest[length..];
        Ok(piece)
    }

    /// A text of so many bytes.
    #[tactic(auto, unfolding(crate::specs::Reading::text_of_length))]
    pub fn take_text(&mut self, length: usize) -> Result<&'a str, ReadFault>
        ensures ok { IfOk result (λ t. text_of_length length self.old ≡ Some (t.now, self.new)) }
        ensures err { IfErr result (λ f. IsMisspelled f → text_of_length length self.old ≡ None) }
    {
        let piece = self.take_piece(length)?;
        as_text(piece)
    }

    /// A text behind its length in two bytes.
    #[tactic(auto, unfolding(crate::specs::Reading::short_text_from))]
    pub fn take_short_text(&mut self) -> Result<&'a str, ReadFault>
        ensures ok { IfOk result (λ t. short_text_from self.old ≡ Some (t.now, self.new)) }
        ensures err { IfErr result (λ f. IsMisspelled f → short_text_from self.old ≡ None) }
    {
        let length = self.take_u16()?;
        self.take_text(usize::from(length))
    }

    /// A text of at most so many bytes behind its length in four bytes.
    #[tactic(auto, unfolding(crate::specs::Reading::long_text_from))]
    pub fn take_long_text(&mut self, most: u32) -> Result<&'a str, ReadFault>
        ensures ok { IfOk result (λ t. long_text_from most self.old ≡ Some (t.now, self.new)) }
        ensures err { IfErr result (λ f. IsMisspelled f → long_text_from most self.old ≡ None) }
    {
        let length = self.take_u32()?;
        if length > most {
            return Err(ReadFault::NoSpelling);
        }
        self.take_text(length as usize)
    }
}

/// The text that these bytes are.
fn as_text(piece: &[u8]) -> Result<&str, ReadFault>
    ensures same { IfOk result (λ t. t.now ≡ piece.now) }
    ensures ok { IfOk result (λ _. is_utf8 piece.now ≡ true) }
    ensures err { IfErr result (λ f. is_utf8 piece.now ≡ false) }
{
    match std::str::from_utf8(piece) {
        Ok(text) => Ok(text),
        Err(_) => Err(ReadFault::NoSpelling),
    }
}

/// The bytes of a program are below 256.
fn all_bytes(bytes: &[u8])
    ensures { AllBytes bytes.now }
{
    let _bytes = bytes;
}
