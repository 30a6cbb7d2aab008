//! Compiled files, written and read.

ghost use Rattle.std.specs.Prelude.{◌≡◌, ◌++◌, ◌≤◌, ℕ, Some, None, length, take, IfOk, IfErr};
ghost use Rattle.std.specs.Prelude.{IfSome, OnOk, OnErr, codes};
ghost use Rattle.fm_bytes.specs.Reading.{IsMisspelled};
ghost use Rattle.ev_graph.specs.Lawful.{IsGraph};
ghost use Rattle.ev_graph.specs.declared.fault.GraphFault.TheVariants.{NoMemory as GraphMemory};
ghost use Rattle.ev_file.specs.Files.{IsSpelledFile, body_bytes, file_bytes, IsFileFront};
ghost use Rattle.ev_file.specs.FileReading.{magic_from, body_from, file_from, IsNoFile};
ghost use Rattle.ev_file.specs.declared.made.Made.{Made};

use crate::engines::EngineCodec;
use crate::instances::InstanceCodec;
use crate::made::Made;
use crate::nodes::NodeCodec;
use ev_graph::{EngineSpec, Graph, GraphFault, Instance, Node};
use fm_bytes::{Input, NoMemory, ReadFault, put_u64};
use fm_items::{put_counted, take_counted};
use std::alloc::Global;

/// The first eight bytes, `FMAESC01`, as a number.
const MAGIC: u64 = 0x464d_4145_5343_3031;

/// Appends the bytes of what was made. 2^32 engines or more, which no memory holds, are want of
/// memory.
pub fn write_file(made: &Made, out: &mut Vec<u8>) -> Result<(), NoMemory>
    ensures ok { OnOk result (out.new.items ≡ out.old.items ++ file_bytes made.now) }
    ensures err { OnErr result (out.new.items ≡ out.old.items) }
{
    let mut spelling = Vec::new(*out.allocator());
    put_u64(MAGIC, &mut spelling)?;
    put_body(made, &mut spelling)?;
    out.extend_from_slice(&spelling)?;
    Ok(())
}

/// Writes the nodes, the engines, the instances and the number of skipped candidates.
fn put_body(made: &Made, out: &mut Vec<u8>) -> Result<(), NoMemory>
    ensures ok { OnOk result (out.new.items ≡ out.old.items ++ body_bytes made.now) }
{
    let engines = made.graph.engines();
    if engines.len() > u32::MAX as usize {
        return Err(NoMemory);
    }
    put_counted::<Node, NodeCodec>(made.graph.nodes(), out)?;
    put_counted::<EngineSpec, EngineCodec>(engines, out)?;
    put_counted::<Instance, InstanceCodec>(made.graph.instances(), out)?;
    put_u64(made.skipped, out)
}

/// What the front of the bytes spells, which is one thing at most, and how many bytes that takes.
/// `None` exactly where they begin with no spelling.
pub fn read_file(alloc: Global, bytes: &[u8]) -> Result<Option<(Made, usize)>, NoMemory>
    ensures found { IfOk result (λ o. IfSome o (λ file.
        IsSpelledFile file.0 × IsFileFront file.0 file.1 bytes.now)) }
    ensures read { (made : Made) → (size : ℕ) → IsSpelledFile made → IsFileFront made size bytes.now
        → IfOk result (λ o. o ≡ Some (made, size)) }
{
    let mut input = Input::new(bytes);
    match take_file(&mut input, alloc) {
        Ok(made) => Ok(Some((made, bytes.len() - input.left()))),
        Err(ReadFault::NoSpelling) => Ok(None),
        Err(ReadFault::NoMemory) => Err(NoMemory),
    }
}

/// The file whose parts come next, if they are a graph.
fn take_file(input: &mut Input, alloc: Global) -> Result<Made, ReadFault>
    ensures ok { IfOk result (λ m. file_from input.old ≡ Some (m, input.new)) }
    ensures graph { IfOk result (λ m. IsGraph m.graph) }
    ensures err { IfErr result (λ f. IsMisspelled f → IsNoFile (file_from input.old)) }
{
    let (nodes, engines, instances, skipped) = take_parts(input, alloc)?;
    match Graph::build(alloc, nodes, engines, instances) {
        Ok(graph) => Ok(Made { graph, skipped }),
        Err(fault) => Err(fault_by(fault)),
    }
}

/// What is refused as a graph has no spelling.
fn fault_by(fault: GraphFault) -> ReadFault
    ensures { IsMisspelled result → fault ≡ GraphMemory → ⊥ }
{
    match fault {
        GraphFault::NoMemory => ReadFault::NoMemory,
        _ => ReadFault::NoSpelling,
    }
}

/// The nodes, engines and instances of a file, and its number of skipped candidates.
type Parts = (Vec<Node>, Vec<EngineSpec>, Vec<Instance>, u64);

/// The parts of a file.
#[tactic(auto, unfolding(crate::specs::FileReading::file_from))]
fn take_parts(input: &mut Input, alloc: Global) -> Result<Parts, ReadFault>
    ensures ok { IfOk result (λ p. file_from input.old ≡ Some (
      record {
        graph = record { nodes = p.0.items; engines = p.1.items; instances = p.2.items };
        skipped = p.3;
      },
      input.new,
    )) }
    ensures err { IfErr result (λ f. IsMisspelled f → file_from input.old ≡ None) }
{
    take_magic(input)?;
    take_body(input, alloc)
}

/// The first eight bytes.
#[tactic(auto, unfolding(crate::specs::FileReading::magic_from))]
fn take_magic(input: &mut Input) -> Result<u64, ReadFault>
    ensures ok { IfOk result (λ n. magic_from input.old ≡ Some (n, input.new)) }
    ensures err { IfErr result (λ f. IsMisspelled f → magic_from input.old ≡ None) }
{
    let number = input.take_u64()?;
    if number == MAGIC {
        Ok(number)
    } else {
        Err(ReadFault::NoSpelling)
    }
}

/// What stands behind them.
#[tactic(auto, unfolding(crate::specs::FileReading::body_from))]
fn take_body(input: &mut Input, alloc: Global) -> Result<Parts, ReadFault>
    ensures ok { IfOk result (λ p. body_from input.old ≡ Some (
      record {
        graph = record { nodes = p.0.items; engines = p.1.items; instances = p.2.items };
        skipped = p.3;
      },
      input.new,
    )) }
    ensures err { IfErr result (λ f. IsMisspelled f → body_from input.old ≡ None) }
{
    let nodes = take_counted::<Node, NodeCodec>(input, alloc)?;
    let engines = take_counted::<EngineSpec, EngineCodec>(input, alloc)?;
    let instances = take_counted::<Instance, InstanceCodec>(input, alloc)?;
    let skipped = input.take_u64()?;
    Ok((nodes, engines, instances, skipped))
}
