use fm_bytes::NoMemory;

/// What a line of a topology text can have: a path that is none, a word that is no property, a path
/// or a name that was there, a parent that was not, too many bytes, too many paths, or a byte that
/// no line has.
#[derive(Clone, Copy, Debug, PartialEq, Eq, Drop)]
pub enum TopoKind {
    Path,
    Property,
    Twice,
    Parent,
    Length,
    Count,
    Bytes,
}

/// Why a text is no topology. Lines count from 1.
#[derive(Clone, Copy, Debug, PartialEq, Eq, Drop)]
pub enum TopoFault {
    At { line: u32, kind: TopoKind },
    NoMemory,
}

impl From<NoMemory> for TopoFault {
    ghost use Rattle.std.specs.Prelude.{◌≡◌};
    ghost use Rattle.fm_topo.specs.declared.faults.TopoFault.TheVariants.{NoMemory};

    ghost from_gives = { λ _ e. e ≡ NoMemory };

    fn from(_: NoMemory) -> TopoFault {
        TopoFault::NoMemory
    }
}
