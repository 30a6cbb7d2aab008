//! Reading a journal through, payload by payload.

ghost use Rattle.std.specs.Prelude.{◌≡◌, ◌<◌, ℕ, List, [], Some, None, IfOk, IfErr, OnOk, length};
ghost use Rattle.fm_outer.specs.Moments.{OnlyRead};
ghost use Rattle.fm_journal.specs.Keeps.{Keeps};
ghost use Rattle.fm_journal.specs.Pieces.{IsPiece};
ghost use Rattle.fm_journal.specs.Reads.{ReadsAt};
ghost use Rattle.fm_payloads.specs.Reading.{IsPayloadIn, PayloadCause, ReadsUpTo, ReadingCause};

use crate::fault::ReadingFault;
use crate::reader::PayloadReader;
use fm_journal::{Journal, Piece};
use fm_outer::Disk;
use std::alloc::Global;

/// Reads the payload at a place into the buffer if that is long enough, and answers how many bytes
/// the payload has.
fn read_at<D: Disk>(
    journal: &mut Journal<D>,
    piece: &mut Piece,
    place: u64,
    buffer: &mut [u8],
) -> Result<u32, ReadingFault>
    requires is_open { journal.old.closed ≡ None }
    requires before { place < journal.old.end }
    requires piece { IsPiece (D.seen journal.old.disk) piece.old }
    ensures found { IfOk result (λ size.
        ReadsAt D.Disk journal.old place (length buffer.old) buffer.new (Some size)) }
    ensures piece { IsPiece (D.seen journal.old.disk) piece.new }
    ensures same { journal.new ≡ record journal.old { disk = journal.new.disk } }
    ensures still { OnlyRead D.Disk journal.old.disk journal.new.disk }
    ensures cause { IfErr result (PayloadCause D.Disk place journal.old journal.new) }
    ensures count_kept { OnOk result (D.failures journal.new.disk ≡ D.failures journal.old.disk) }
{
    let Some(size) = journal.read_piecewise(piece, place, buffer)? else {
        unreachable!()
    };
    Ok(size)
}

/// Reads the payload at a place into the front of the buffer, which is made longer where it has to
/// be, and answers how many bytes the payload has.
pub fn read_into<D: Disk>(
    journal: &mut Journal<D>,
    piece: &mut Piece,
    place: u64,
    buffer: &mut Vec<u8>,
) -> Result<u32, ReadingFault>
    requires is_open { journal.old.closed ≡ None }
    requires before { place < journal.old.end }
    requires piece { IsPiece (D.seen journal.old.disk) piece.old }
    ensures found { IfOk result (λ size.
        IsPayloadIn D.Disk journal.old place size buffer.new.items) }
    ensures piece { IsPiece (D.seen journal.old.disk) piece.new }
    ensures same { journal.new ≡ record journal.old { disk = journal.new.disk } }
    ensures still { OnlyRead D.Disk journal.old.disk journal.new.disk }
    ensures cause { IfErr result (PayloadCause D.Disk place journal.old journal.new) }
    ensures count_kept { OnOk result (D.failures journal.new.disk ≡ D.failures journal.old.disk) }
{
    let size = read_at(journal, piece, place, buffer)?;
    if size as usize <= buffer.len() {
        return Ok(size);
    }
    buffer.resize(size as usize, 0)?;
    let again = read_at(journal, piece, place, buffer)?;
    if again as usize > buffer.len() {
        return Err(ReadingFault::Changed { place });
    }
    Ok(again)
}

/// Gives the payloads of an open journal to the reader, in order, up to the first that it refuses,
/// and answers the place of that one; `None` where it took all. The disk is read once, in pieces of
/// 64 KiB or of a longer payload, and memory is taken for the longest payload.
pub fn read_payloads<D: Disk, R: PayloadReader>(
    alloc: Global,
    journal: &mut Journal<D>,
    reader: &mut R,
) -> Result<Option<u64>, ReadingFault>
    requires is_open { journal.old.closed ≡ None }
    ensures read { IfOk result (λ stop. (payloads : List (List ℕ))
        → Keeps D.Disk journal.old payloads → R.took reader.old []
        → ReadsUpTo R.took R.refuses payloads reader.new stop) }
    ensures rule { R.same_rule reader.old reader.new }
    ensures same { journal.new ≡ record journal.old { disk = journal.new.disk } }
    ensures still { OnlyRead D.Disk journal.old.disk journal.new.disk }
    ensures cause { IfErr result (ReadingCause D.Disk journal.old journal.new) }
    ensures count_kept { OnOk result (D.failures journal.new.disk ≡ D.failures journal.old.disk) }
{
    let mut piece = Piece::none();
    let mut buffer = Vec::new(alloc);
    let end = journal.end();
    let mut place = 16;
    'payloads: while place < end {
        let size = read_into(journal, &mut piece, place, &mut buffer)?;
        if !reader.take(alloc, &buffer[..size as usize])? {
            return Ok(Some(place));
        }
        place += 5 + size as u64;
    }
    Ok(None)
}
