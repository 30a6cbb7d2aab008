//! Why a rule file or a topology isn't taken.

use ev_check::CheckFault;
use ev_lex::LexFault;
use ev_parse::ParseFault;
use ev_words::CheckKind;
use fm_topo::TopoKind;
use std::alloc::{AllocError, AllocFailed};

/// What is wrong with a rule file first: it is too long; at a place no token begins; the grammar
/// has no file with the token at a place; or a check finds it.
#[derive(Debug, Drop)]
pub enum RulesKind {
    Length,
    Token,
    Grammar,
    Check(CheckKind),
}

/// Why a text is no rule file. The place is counted in bytes from 0: 1,048,576 where the text is
/// too long, and the place of a statement's first byte where a check finds the fault.
#[derive(Debug, Drop)]
pub enum RulesFault {
    At { place: u32, kind: RulesKind },
    NoMemory,
}

impl From<LexFault> for RulesFault {
    ghost use Rattle.fm_sources.specs.Conversions.{of_lexing};
    ghost use Rattle.std.specs.Prelude.{◌≡◌};

    ghost from_gives = { λ fault e. e ≡ of_lexing fault };

    fn from(fault: LexFault) -> RulesFault {
        match fault {
            LexFault::At { place } => RulesFault::At {
                place,
                kind: RulesKind::Token,
            },
            LexFault::NoMemory => RulesFault::NoMemory,
        }
    }
}

impl From<ParseFault> for RulesFault {
    ghost use Rattle.fm_sources.specs.Conversions.{of_parsing};
    ghost use Rattle.std.specs.Prelude.{◌≡◌};

    ghost from_gives = { λ fault e. e ≡ of_parsing fault };

    fn from(fault: ParseFault) -> RulesFault {
        match fault {
            ParseFault::At { place } => RulesFault::At {
                place,
                kind: RulesKind::Grammar,
            },
            ParseFault::NoMemory => RulesFault::NoMemory,
        }
    }
}

impl From<CheckFault> for RulesFault {
    ghost use Rattle.fm_sources.specs.Conversions.{of_checking};
    ghost use Rattle.std.specs.Prelude.{◌≡◌};

    ghost from_gives = { λ fault e. e ≡ of_checking fault };

    fn from(fault: CheckFault) -> RulesFault {
        match fault {
            CheckFault::At { place, kind } => RulesFault::At {
                place,
                kind: RulesKind::Check(kind),
            },
            CheckFault::NoMemory => RulesFault::NoMemory,
        }
    }
}

/// Why the text of a source was not read.
#[derive(Clone, Copy, Debug)]
pub enum TextFault {
    Read,
    NoMemory,
}

impl<T: Drop> From<AllocFailed<T>> for TextFault {
    ghost use Rattle.std.specs.Prelude.{◌≡◌};
    ghost use Rattle.fm_sources.specs.declared.faults.TextFault.TheVariants.{NoMemory};

    ghost from_gives = { λ _ e. e ≡ NoMemory };

    fn from(_error: AllocFailed<T>) -> TextFault {
        TextFault::NoMemory
    }
}

impl From<AllocError> for TextFault {
    ghost use Rattle.std.specs.Prelude.{◌≡◌};
    ghost use Rattle.fm_sources.specs.declared.faults.TextFault.TheVariants.{NoMemory};

    ghost from_gives = { λ _ e. e ≡ NoMemory };

    fn from(_error: AllocError) -> TextFault {
        TextFault::NoMemory
    }
}

/// Why the sources were not taken: one failed; a rule file is none, with its number and the first
/// fault; or the topology is none, with its first fault. Files count from 0, lines from 1.
#[derive(Debug, Drop)]
pub enum SourceFault {
    Read,
    Rules {
        file: u32,
        place: u32,
        kind: RulesKind,
    },
    Topology {
        line: u32,
        kind: TopoKind,
    },
    NoMemory,
}

impl<T: Drop> From<AllocFailed<T>> for SourceFault {
    ghost use Rattle.std.specs.Prelude.{◌≡◌};
    ghost use Rattle.fm_sources.specs.declared.faults.SourceFault.TheVariants.{NoMemory};

    ghost from_gives = { λ _ e. e ≡ NoMemory };

    fn from(_error: AllocFailed<T>) -> SourceFault {
        SourceFault::NoMemory
    }
}
