// Why a command ends before all is done.
ghost use Rattle.std.specs.Prelude.{◌≡◌};
ghost use Rattle.fm_answers.specs.Stops.{status_of};

use crate::status::ToolStatus;
use fm_bytes::NoMemory;
use fm_esc::{CompileFault, GraphLimit, InputFault};
use fm_init::{DiskName, StoreFault};
use fm_journal::FullKind;
use fm_sources::{RulesKind, SourceFault};
use fm_topo::TopoKind;
use std::alloc::{AllocError, AllocFailed};

/// Why a command ends before all is done.
#[derive(Debug, Drop)]
pub enum Stop {
    /// The words are no command.
    Usage,
    /// A rule file is refused: its number, the place of its first fault, and what that is.
    Rules {
        file: u32,
        place: u32,
        kind: RulesKind,
    },
    /// The topology is refused: its first bad line, and what is wrong with it.
    Topology {
        line: u32,
        kind: TopoKind,
    },
    /// What a rule file comes to is past a limit: its number, and which limit.
    Graph {
        file: u32,
        limit: GraphLimit,
    },
    /// The input holds bytes with which no compiled file begins; the first such place.
    DamagedInput {
        place: u64,
    },
    /// A disk holds what no run leaves there; its first bad place.
    Damaged {
        disk: DiskName,
        place: u64,
    },
    /// The source failed.
    Read,
    /// The sink failed.
    Write,
    /// The disk failed.
    Disk,
    /// Memory was wanted and not to be had.
    Memory,
    /// A limit was reached.
    Full(FullKind),
    /// There is a store already.
    Exists,
    /// The kept configuration in force isn't the one that was handed in.
    Differs,
    /// What the operator says marks no suspect.
    NotFaulty,
    /// No case has the UUID.
    NotFound,
    /// An actuator failed, the first that did; its place among those handed in.
    Act {
        index: u32,
    },
}

impl Stop {
    /// The status that tells it.
    pub(crate) fn status(&self) -> ToolStatus
        ensures { result ≡ status_of self.now }
    {
        match self {
            Stop::Usage => ToolStatus::Usage,
            Stop::Rules { .. } => ToolStatus::Rules,
            Stop::Topology { .. } => ToolStatus::Topology,
            Stop::Graph { .. } => ToolStatus::Graph,
            Stop::Damaged { .. } | Stop::DamagedInput { .. } => ToolStatus::Damaged,
            Stop::Read => ToolStatus::ReadFault,
            Stop::Write => ToolStatus::WriteFault,
            Stop::Disk => ToolStatus::DiskFault,
            Stop::Memory => ToolStatus::NoMemory,
            Stop::Full(_) => ToolStatus::Full,
            Stop::Exists => ToolStatus::Exists,
            Stop::Differs => ToolStatus::Differs,
            Stop::NotFaulty => ToolStatus::NotFound,
            Stop::NotFound => ToolStatus::NotFound,
            Stop::Act { .. } => ToolStatus::ActFault,
        }
    }
}

impl From<AllocError> for Stop {
    ghost use Rattle.fm_answers.specs.declared.stops.Stop.TheVariants as stop;

    ghost from_gives = { λ _ s. s ≡ stop.Memory };

    fn from(_want: AllocError) -> Stop {
        Stop::Memory
    }
}

impl<T: Drop> From<AllocFailed<T>> for Stop {
    ghost use Rattle.fm_answers.specs.declared.stops.Stop.TheVariants as stop;

    ghost from_gives = { λ _ s. s ≡ stop.Memory };

    fn from(_want: AllocFailed<T>) -> Stop {
        Stop::Memory
    }
}

impl From<NoMemory> for Stop {
    ghost use Rattle.fm_answers.specs.declared.stops.Stop.TheVariants as stop;

    ghost from_gives = { λ _ s. s ≡ stop.Memory };

    fn from(_want: NoMemory) -> Stop {
        Stop::Memory
    }
}

impl From<SourceFault> for Stop {
    ghost use Rattle.fm_answers.specs.Stops.{of_sources};

    ghost from_gives = { λ fault s. s ≡ of_sources fault };

    fn from(fault: SourceFault) -> Stop {
        match fault {
            SourceFault::Read => Stop::Read,
            SourceFault::Rules { file, place, kind } => Stop::Rules { file, place, kind },
            SourceFault::Topology { line, kind } => Stop::Topology { line, kind },
            SourceFault::NoMemory => Stop::Memory,
        }
    }
}

impl From<StoreFault> for Stop {
    ghost use Rattle.fm_answers.specs.Stops.{of_store};

    ghost from_gives = { λ fault s. s ≡ of_store fault };

    fn from(fault: StoreFault) -> Stop {
        match fault {
            StoreFault::Disk | StoreFault::Closed { .. } => Stop::Disk,
            StoreFault::Full(kind) => Stop::Full(kind),
            StoreFault::Damaged { disk, place } => Stop::Damaged { disk, place },
            StoreFault::Exists => Stop::Exists,
            StoreFault::NoMemory => Stop::Memory,
        }
    }
}

impl From<CompileFault> for Stop {
    ghost use Rattle.fm_answers.specs.Stops.{of_compiling};

    ghost from_gives = { λ fault s. s ≡ of_compiling fault };

    fn from(fault: CompileFault) -> Stop {
        match fault {
            CompileFault::Sources(fault) => Stop::from(fault),
            CompileFault::Graph { file, limit } => Stop::Graph { file, limit },
            CompileFault::NoMemory => Stop::Memory,
        }
    }
}

impl From<InputFault> for Stop {
    ghost use Rattle.fm_answers.specs.Stops.{of_input};

    ghost from_gives = { λ fault s. s ≡ of_input fault };

    fn from(fault: InputFault) -> Stop {
        match fault {
            InputFault::Read => Stop::Read,
            InputFault::Full => Stop::Full(FullKind::Input),
            InputFault::NoMemory => Stop::Memory,
        }
    }
}
