//! The kinds of nodes, written and read: a number for the kind, and the kind's fields.

ghost use Rattle.std.specs.Prelude.{◌≡◌, ◌++◌, Some, None, IfOk, IfErr, OnOk};
ghost use Rattle.fm_bytes.specs.Reading.{IsMisspelled, flag_from};
ghost use Rattle.ev_file.specs.Files.{kind_code, kind_bytes, engine_code, flag_bytes};
ghost use Rattle.ev_file.specs.FileReading.{root_from, kind_from, engine_numbered};

use ev_graph::NodeKind;
use fm_bytes::{Input, NoMemory, ReadFault, put_u8, put_u32, put_u64};

/// What stands for no engine.
const NO_ENGINE: u32 = u32::MAX;

/// The number of a kind.
pub(crate) fn kind_code(kind: NodeKind) -> u8
    ensures { result ≡ kind_code kind }
{
    match kind {
        NodeKind::Fault { .. } => 1,
        NodeKind::Defect { .. } => 2,
        NodeKind::Upset { .. } => 3,
        NodeKind::Inner => 4,
        NodeKind::Report { .. } => 5,
    }
}

/// Writes the fields of a kind.
pub(crate) fn put_kind(kind: NodeKind, out: &mut Vec<u8>) -> Result<(), NoMemory>
    ensures ok { OnOk result (out.new.items ≡ out.old.items ++ kind_bytes kind) }
{
    match kind {
        NodeKind::Fault { fit, retire } | NodeKind::Defect { fit, retire } => {
            put_u32(fit, out)?;
            put_u8(u8::from(retire), out)
        }
        NodeKind::Upset { engine } => put_u32(engine_code(engine), out),
        NodeKind::Inner => Ok(()),
        NodeKind::Report { within } => put_u64(within, out),
    }
}

/// The number of an engine, or the one that none has.
fn engine_code(engine: Option<u32>) -> u32
    ensures { result ≡ engine_code engine }
{
    engine.unwrap_or(NO_ENGINE)
}

/// The kind of a number, with its fields.
#[tactic(auto, unfolding(crate::specs::FileReading::kind_from))]
pub(crate) fn take_kind(input: &mut Input, code: u8) -> Result<NodeKind, ReadFault>
    ensures ok { IfOk result (λ k. kind_from code input.old ≡ Some (k, input.new)) }
    ensures err { IfErr result (λ f. IsMisspelled f → kind_from code input.old ≡ None) }
{
    match code {
        1 => {
            let (fit, retire) = take_root(input)?;
            Ok(NodeKind::Fault { fit, retire })
        }
        2 => {
            let (fit, retire) = take_root(input)?;
            Ok(NodeKind::Defect { fit, retire })
        }
        3 => {
            let engine = engine_of(input.take_u32()?);
            Ok(NodeKind::Upset { engine })
        }
        4 => Ok(NodeKind::Inner),
        5 => {
            let within = input.take_u64()?;
            Ok(NodeKind::Report { within })
        }
        _ => Err(ReadFault::NoSpelling),
    }
}

/// The FIT of a root, and whether its resource is to be retired.
#[tactic(auto, unfolding(crate::specs::FileReading::root_from))]
fn take_root(input: &mut Input) -> Result<(u32, bool), ReadFault>
    ensures ok { IfOk result (λ f. root_from input.old ≡ Some (f, input.new)) }
    ensures err { IfErr result (λ f. IsMisspelled f → root_from input.old ≡ None) }
{
    let fit = input.take_u32()?;
    let retire = take_flag(input)?;
    Ok((fit, retire))
}

/// A truth value.
#[tactic(auto, unfolding(fm_bytes::specs::Reading::flag_from))]
fn take_flag(input: &mut Input) -> Result<bool, ReadFault>
    ensures ok { IfOk result (λ b. flag_from input.old ≡ Some (b, input.new)) }
    ensures err { IfErr result (λ f. IsMisspelled f → flag_from input.old ≡ None) }
{
    match input.take_u8()? {
        0 => Ok(false),
        1 => Ok(true),
        _ => Err(ReadFault::NoSpelling),
    }
}

/// The engine of a number, or none.
fn engine_of(number: u32) -> Option<u32>
    ensures { result ≡ engine_numbered number }
{
    if number == NO_ENGINE {
        None
    } else {
        Some(number)
    }
}
