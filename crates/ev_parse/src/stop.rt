//! How a part of the parser stops.
use ev_lex::Token;
use std::alloc::{AllocError, AllocFailed};

/// Why a part of the parser stopped: memory ran out, or it can't take the first of these tokens.
#[derive(Clone, Copy)]
pub enum ParseStop<'a> {
    NoMemory,
    At(&'a [Token]),
}

impl<'a> From<AllocError> for ParseStop<'a> {
    ghost use Rattle.std.specs.Prelude.{◌≡◌};
    ghost use Rattle.ev_parse.specs.declared.stop.ParseStop.TheVariants.{NoMemory};

    ghost from_gives = { λ _ e. e ≡ NoMemory };

    fn from(_error: AllocError) -> Self {
        ParseStop::NoMemory
    }
}

impl<'a, T: Drop> From<AllocFailed<T>> for ParseStop<'a> {
    ghost use Rattle.std.specs.Prelude.{◌≡◌};
    ghost use Rattle.ev_parse.specs.declared.stop.ParseStop.TheVariants.{NoMemory};

    ghost from_gives = { λ _ e. e ≡ NoMemory };

    fn from(_error: AllocFailed<T>) -> Self {
        ParseStop::NoMemory
    }
}

impl<'a> From<fm_bytes::NoMemory> for ParseStop<'a> {
    ghost use Rattle.std.specs.Prelude.{◌≡◌};
    ghost use Rattle.ev_parse.specs.declared.stop.ParseStop.TheVariants.{NoMemory};

    ghost from_gives = { λ _ e. e ≡ NoMemory };

    fn from(_error: fm_bytes::NoMemory) -> Self {
        ParseStop::NoMemory
    }
}
