// How a call of the fault manager ends.
ghost use Rattle.std.specs.Prelude.{◌≡◌};
ghost use Rattle.fm_answers.specs.Status.{status_code};

/// How a call ends. The number of each is the exit status of the program.
#[derive(Clone, Copy, Debug, PartialEq, Eq)]
pub enum ToolStatus {
    /// All is done, and the input was read to its end where the command reads it.
    Done,
    /// The words are no command.
    Usage,
    /// A rule file was refused.
    Rules,
    /// The topology was refused.
    Topology,
    /// The kept configuration isn't the one handed in.
    Differs,
    /// A disk holds what no run of this program leaves there.
    Damaged,
    /// A source failed.
    ReadFault,
    /// The sink failed.
    WriteFault,
    /// A disk failed.
    DiskFault,
    /// Memory was wanted and not to be had.
    NoMemory,
    /// What the words name isn't there.
    NotFound,
    /// A limit was reached.
    Full,
    /// An actuator failed.
    ActFault,
    /// A graph is past its limits.
    Graph,
    /// A store is there already.
    Exists,
}

impl ToolStatus {
    /// The exit status, 0 to 14.
    pub fn code(&self) -> u8
        ensures { result ≡ status_code self.now }
    {
        match self {
            ToolStatus::Done => 0,
            ToolStatus::Usage => 1,
            ToolStatus::Rules => 2,
            ToolStatus::Topology => 3,
            ToolStatus::Differs => 4,
            ToolStatus::Damaged => 5,
            ToolStatus::ReadFault => 6,
            ToolStatus::WriteFault => 7,
            ToolStatus::DiskFault => 8,
            ToolStatus::NoMemory => 9,
            ToolStatus::NotFound => 10,
            ToolStatus::Full => 11,
            ToolStatus::ActFault => 12,
            ToolStatus::Graph => 13,
            ToolStatus::Exists => 14,
        }
    }
}
