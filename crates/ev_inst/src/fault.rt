//! Why there is no graph of a rule file.

/// There are more than 65,536 events; the candidates of all propagations have more than 1,048,576
/// links; or memory ran out.
#[derive(Clone, Copy, Debug, PartialEq, Eq, Drop)]
pub enum InstFault {
    Nodes,
    Links,
    NoMemory,
}

impl From<fm_bytes::NoMemory> for InstFault {
    ghost use Rattle.std.specs.Prelude.{◌≡◌};
    ghost use Rattle.ev_inst.specs.declared.fault.InstFault.TheVariants.{NoMemory};

    ghost from_gives = { λ _ e. e ≡ NoMemory };

    fn from(_: fm_bytes::NoMemory) -> InstFault {
        InstFault::NoMemory
    }
}
