// Why a call on a journal or a frame was refused.
ghost use Rattle.std.specs.Prelude.{◌≡◌};
ghost use Rattle.fm_journal.specs.declared.fault.JournalFault.TheVariants.{Disk};

use fm_outer::Failed;

/// What is full, for the journal and for all that stands above it.
#[derive(Clone, Copy, Debug, Drop, PartialEq, Eq)]
pub enum FullKind {
    /// A journal has its 2^32 - 1 records.
    Records,
    /// The next number would be 2^46.
    Numbers,
    /// A journal's disk would pass 2^40 bytes.
    Bytes,
    /// A payload would pass 2^28 bytes.
    Payload,
    /// A run's input would pass 2^40 bytes.
    Input,
}

/// Why a journal did not do what it was asked.
#[derive(Clone, Copy, Debug, Drop, PartialEq, Eq)]
pub enum JournalFault {
    /// The disk failed.
    Disk,
    /// A limit is reached. Nothing was changed.
    Full(FullKind),
    /// The disk is no journal: `place` is 0 where its header is wrong, and else that of the gate of
    /// the first bad record.
    Damaged { place: u64 },
    /// An earlier write or sync of this journal failed, when the disk's count of failures came to
    /// `faults`. Open it again to see what it holds.
    Closed { faults: u64 },
}

impl From<Failed> for JournalFault {
    ghost from_gives = { λ _ e. e ≡ Disk };

    fn from(_: Failed) -> Self {
        JournalFault::Disk
    }
}

/// What was asked did not come about, and the disk is handed back.
#[derive(Drop)]
pub struct Refused<D> {
    pub disk: D,
    pub fault: JournalFault,
}

impl<D> Refused<D> {
    /// The disk, for who needs no more to know why.
    pub fn into_disk(self) -> D
        ensures { result ≡ self.disk }
    {
        let Refused { disk, fault: _ } = self;
        disk
    }
}
