// A journal on a disk.
ghost use Rattle.std.specs.Prelude.{◌≡◌, ◌↔◌, ℕ, ◌+◌, ◌<◌, ◌≤◌, ◌^◌, List, [], ◌∷◌, ◌++◌, length};
ghost use Rattle.std.specs.Prelude.{take, slice_get, Some, None, IsNone, IfSome, IfOk, IfErr, OnOk};
ghost use Rattle.std.specs.Prelude.{IsOk};
ghost use Rattle.std.specs.Option.{option_map};
ghost use Rattle.fm_outer.specs.Bytes.{written};
ghost use Rattle.fm_outer.specs.Moments.{LeavesOnly, OnlyRead};
ghost use Rattle.fm_journal.specs.Causes.{refusal, AppendCause, CreateCause, OpenCause, PlaceCause};
ghost use Rattle.fm_journal.specs.Crash.{IsOldOrNew, HasTwoPhases, IsBackSettled, disk_back};
ghost use Rattle.fm_journal.specs.Format.{header, framed, end_of, IsJournal};
ghost use Rattle.fm_journal.specs.JournalOf.{blank_journal, appended};
ghost use Rattle.fm_journal.specs.Keeps.{Keeps};
ghost use Rattle.fm_journal.specs.Look.{AnyLength};
ghost use Rattle.fm_journal.specs.Pieces.{IsPiece};
ghost use Rattle.fm_journal.specs.Reads.{ReadsAt, StandsAt};
ghost use Rattle.fm_journal.specs.declared.fault.JournalFault.{JournalFault};
ghost use Rattle.fm_journal.specs.declared.fault.JournalFault.TheVariants.{Closed as IsClosedAt};

use crate::piece::Piece;
use crate::place::{next_in, next_of};
use crate::refuse::refused;
use crate::scan::scan;
use crate::start::start;
use crate::{Frame, JournalFault, Refused};
use fm_outer::{Disk, Failed, add};
use std::marker::Model;

/// One list of payloads on one disk. Contracts see the disk, the first number, the number of
/// payloads, the place of the closed gate behind them, and whether an append has failed.
#[derive(Drop)]
pub struct Journal<D: Disk> {
    disk: D,
    first: u64,
    count: u64,
    end: u64,
    closed: Option<u64>,
}

impl<D: Disk> Model for Journal<D> {
    ghost use Rattle.fm_journal.specs.JournalOf.{JournalOf, IsLawfulJournal, journal_of};

    ghost Value = { JournalOf D };

    ghost view = { λ j. journal_of j.disk j.first j.count j.end j.closed };

    ghost invariant = { λ j. IsLawfulJournal D.Disk
        (journal_of j.disk j.first j.count j.end j.closed) };
}

impl<D: Disk> Journal<D> {
    /// Makes the disk a journal without payloads, whose first number will be `first`. What the disk
    /// held is gone.
    pub fn create(disk: D, first: u64) -> Result<Journal<D>, Refused<D>>
        requires { first < 2 ^ 46 }
        ensures made { IfOk result (λ journal. journal ≡ blank_journal journal.disk first) }
        ensures list { IfOk result (λ journal. (bytes : List ℕ) → D.seen disk ≡ Some bytes
            → Keeps D.Disk journal []) }
        ensures bytes { IfOk result (λ journal. D.seen journal.disk
            ≡ option_map (λ _. header first ++ 0 ∷ []) (D.seen disk)) }
        ensures two_phases { HasTwoPhases D.Disk disk result }
        ensures same_disk { D.name (disk_back result) ≡ D.name disk }
        ensures cause { IfErr result (λ refused.
            CreateCause (D.failures disk) (D.failures refused.disk) refused.fault) }
        ensures count_kept { IfOk result (λ journal. D.failures journal.disk ≡ D.failures disk) }
    {
        let mut disk = disk;
        match start(&mut disk, first) {
            Ok(()) => Ok(Journal {
                disk,
                first,
                count: 0,
                end: 16,
                closed: None,
            }),
            Err(Failed) => Err(Refused {
                disk,
                fault: JournalFault::Disk,
            }),
        }
    }

    /// Opens the journal that is on the disk. The disk is synced first, and nothing is written. It
    /// is read once, in pieces of up to 64 KiB.
    pub fn open(disk: D) -> Result<Journal<D>, Refused<D>>
        ensures list { IfOk result (λ journal. (bytes : List ℕ) (first : ℕ)
            (payloads : List (List ℕ)) → D.seen disk ≡ Some bytes → IsJournal bytes first payloads
            → (journal.first ≡ first) × Keeps D.Disk journal payloads) }
        ensures found { IfOk result (λ journal. (bytes : List ℕ) → D.seen disk ≡ Some bytes
            → (payloads : List (List ℕ)) × Keeps D.Disk journal payloads) }
        ensures is_open { IfOk result (λ journal. journal.closed ≡ None) }
        ensures settled { IsBackSettled D.Disk result }
        ensures still { OnlyRead D.Disk disk (disk_back result) }
        ensures cause { IfErr result (λ refused.
            OpenCause (D.seen disk) (D.failures disk) (D.failures refused.disk) refused.fault) }
        ensures count_kept { IfOk result (λ journal. D.failures journal.disk ≡ D.failures disk) }
    {
        let mut disk = disk;
        match scan(&mut disk) {
            Ok(scanned) => Ok(Journal {
                disk,
                first: scanned.first,
                count: scanned.count,
                end: scanned.end,
                closed: None,
            }),
            Err(fault) => Err(Refused { disk, fault }),
        }
    }

    /// Adds a payload at the end of the list, and gives its number: the first number plus its place
    /// in the list. After `Disk` the journal is closed, and opening the disk again tells whether
    /// the payload is there.
    pub fn append(&mut self, frame: &Frame) -> Result<u64, JournalFault>
        ensures number { IfOk result (λ number. number ≡ self.old.first + self.old.count) }
        ensures list { IsOk result → (payloads : List (List ℕ)) → Keeps D.Disk self.old payloads
            → Keeps D.Disk self.new (payloads ++ frame.now ∷ []) }
        ensures any_moment { (payloads : List (List ℕ)) → Keeps D.Disk self.old payloads
            → LeavesOnly D.Disk self.old.disk self.new.disk
            (IsOldOrNew self.old.first payloads frame.now) }
        ensures bytes { OnOk result (D.seen self.new.disk
            ≡ option_map (written self.old.end (1 ∷ []))
            (option_map (written (self.old.end + 1) (framed frame.now)) (D.seen self.old.disk))) }
        ensures done { OnOk result (self.new ≡ appended self.new.disk frame.now self.old) }
        ensures refused { (fault : JournalFault) → refusal self.old frame.now ≡ Some fault
            → result ≡ Err fault }
        ensures cause { IfErr result (AppendCause D.Disk frame.now self.old self.new) }
        ensures same_disk { D.name self.new.disk ≡ D.name self.old.disk }
        ensures count_kept { OnOk result (D.failures self.new.disk ≡ D.failures self.old.disk) }
    {
        let body = frame.body();
        if let Some(fault) = refused(
            self.closed,
            self.first,
            self.count,
            self.end,
            body.len() as u64,
        ) {
            return Err(fault);
        }
        match add(&mut self.disk, self.end, body) {
            Ok(()) => {
                let number = self.first + self.count;
                self.count += 1;
                self.end += body.len() as u64;
                Ok(number)
            }
            Err(Failed) => {
                self.closed = Some(self.disk.faults());
                Err(JournalFault::Disk)
            }
        }
    }

    /// How many bytes the payload at a place has; `None` at the end place. The first place is 16,
    /// and `read` gives each further one.
    pub fn size(&mut self, place: u64) -> Result<Option<u32>, JournalFault>
        ensures found { IfOk result (λ size. (payloads : List (List ℕ)) (k : ℕ)
            → Keeps D.Disk self.old payloads → place ≡ end_of (take k payloads)
            → size ≡ option_map length (slice_get payloads k)) }
        ensures stands { IfOk result (λ size. IfSome size (λ n.
            StandsAt D.Disk self.old place (λ payload. length payload ≡ n))) }
        ensures at_end { IfOk result (λ size. IsNone size ↔ place ≡ self.old.end) }
        ensures within { IfOk result (λ size. IfSome size (λ n. place + 5 + n ≤ self.old.end)) }
        ensures same { self.new ≡ record self.old { disk = self.new.disk } }
        ensures still { OnlyRead D.Disk self.old.disk self.new.disk }
        ensures closed { (failures : ℕ) → self.old.closed ≡ Some failures
            → result ≡ Err (IsClosedAt failures) }
        ensures cause { IfErr result
            (PlaceCause D.Disk AnyLength place self.old (D.failures self.new.disk)) }
        ensures count_kept { OnOk result (D.failures self.new.disk ≡ D.failures self.old.disk) }
    {
        if let Some(faults) = self.closed {
            return Err(JournalFault::Closed { faults });
        }
        if place == self.end {
            return Ok(None);
        }
        let Some(next) = next_of(&mut self.disk, place, self.end)? else {
            return Err(JournalFault::Damaged { place });
        };
        Ok(Some((next - place - 5) as u32))
    }

    /// Reads the payload at a place into a buffer of its size, and gives the place of the next.
    pub fn read(&mut self, place: u64, into: &mut [u8]) -> Result<u64, JournalFault>
        ensures found { IfOk result (λ next. (payloads : List (List ℕ)) (k : ℕ) (payload : List ℕ)
            → Keeps D.Disk self.old payloads → place ≡ end_of (take k payloads)
            → slice_get payloads k ≡ Some payload
            → (into.new ≡ payload) × (next ≡ end_of (take (k + 1) payloads))) }
        ensures stands { OnOk result
            (StandsAt D.Disk self.old place (λ payload. payload ≡ into.new)) }
        ensures within { IfOk result (λ next. (next ≡ place + 5 + length into.old)
            × (next ≤ self.old.end)) }
        ensures same { self.new ≡ record self.old { disk = self.new.disk } }
        ensures still { OnlyRead D.Disk self.old.disk self.new.disk }
        ensures closed { (failures : ℕ) → self.old.closed ≡ Some failures
            → result ≡ Err (IsClosedAt failures) }
        ensures cause { IfErr result (PlaceCause D.Disk (λ n. n ≡ length into.old) place self.old
            (D.failures self.new.disk)) }
        ensures count_kept { OnOk result (D.failures self.new.disk ≡ D.failures self.old.disk) }
    {
        if let Some(faults) = self.closed {
            return Err(JournalFault::Closed { faults });
        }
        let Some(next) = next_of(&mut self.disk, place, self.end)? else {
            return Err(JournalFault::Damaged { place });
        };
        if next - place - 5 != into.len() as u64 {
            return Err(JournalFault::Damaged { place });
        }
        self.disk.read(place + 5, into)?;
        Ok(next)
    }

    /// Reads the payload at a place through a piece, and gives how many bytes it has; `None` at the
    /// end place. The payload stands in front of the buffer if that is long enough, and else the
    /// buffer has to be longer. Payloads that are read one after another are read from the disk in
    /// pieces of 64 KiB, or of a payload that is longer.
    pub fn read_piecewise(
        &mut self,
        piece: &mut Piece,
        place: u64,
        into: &mut [u8],
    ) -> Result<Option<u32>, JournalFault>
        requires piece { IsPiece (D.seen self.old.disk) piece.old }
        ensures found { IfOk result
            (ReadsAt D.Disk self.old place (length into.old) into.new) }
        ensures piece { IsPiece (D.seen self.old.disk) piece.new }
        ensures same { self.new ≡ record self.old { disk = self.new.disk } }
        ensures still { OnlyRead D.Disk self.old.disk self.new.disk }
        ensures closed { (failures : ℕ) → self.old.closed ≡ Some failures
            → result ≡ Err (IsClosedAt failures) }
        ensures cause { IfErr result
            (PlaceCause D.Disk AnyLength place self.old (D.failures self.new.disk)) }
        ensures count_kept { OnOk result (D.failures self.new.disk ≡ D.failures self.old.disk) }
    {
        if let Some(faults) = self.closed {
            return Err(JournalFault::Closed { faults });
        }
        if place == self.end {
            return Ok(None);
        }
        let Some(next) = next_in(&mut self.disk, piece, place, self.end)? else {
            return Err(JournalFault::Damaged { place });
        };
        let size = (next - place - 5) as u32;
        if size as usize > into.len() {
            return Ok(Some(size));
        }
        let payload = &mut into[..size as usize];
        piece.copy(&mut self.disk, place + 5, payload, self.end + 1)?;
        Ok(Some(size))
    }

    /// The number of the first payload, whether it is there or not.
    pub fn first(&self) -> u64
        ensures value { result ≡ self.now.first }
        ensures small { result < 2 ^ 46 }
    {
        self.first
    }

    /// How many payloads there are.
    pub fn count(&self) -> u64
        ensures value { result ≡ self.now.count }
        ensures small { result < 2 ^ 32 }
        ensures numbered { self.now.first + result ≤ 2 ^ 46 }
    {
        self.count
    }

    /// The place behind the last record, where the closed gate stands.
    pub fn end(&self) -> u64
        ensures value { result ≡ self.now.end }
        ensures behind_all { (payloads : List (List ℕ)) → Keeps D.Disk self.now payloads
            → result ≡ end_of payloads }
        ensures small { result < 2 ^ 40 }
    {
        self.end
    }

    /// The disk's count of failures when an append failed, after which the journal takes no more;
    /// `None` while it is open.
    pub fn closed(&self) -> Option<u64>
        ensures { result ≡ self.now.closed }
    {
        self.closed
    }

    /// The disk, which may be opened again.
    pub fn into_disk(self) -> D
        ensures { result ≡ self.disk }
    {
        let Journal {
            disk,
            first: _,
            count: _,
            end: _,
            closed: _,
        } = self;
        disk
    }
}
