ghost use Rattle.std.specs.Prelude.{◌≡◌, ◌+◌, ◌≤◌, ◌<◌, ⊤, length, IfOk, IfErr, OnOk, MatchOption};
ghost use Rattle.fm_topo.specs.Fault.{IsFaultless, IsFirstFault};
ghost use Rattle.fm_topo.specs.Lawful.{IsTopology};
ghost use Rattle.fm_topo.specs.Reading.{IsAt};
ghost use Rattle.fm_topo.specs.Topology.{topology_of};

use crate::bytes::find_byte;
use crate::entries::{LineStop, take_line};
use crate::faults::TopoFault;
use crate::keys::Key;
use crate::properties::Properties;
use crate::topo::Topo;
use fm_bytes::NoMemory;
use std::alloc::Global;
use std::collections::BTreeMap;

/// The places of a map as a topology.
fn topology_from(alloc: Global, found: BTreeMap<Key, Properties>) -> Result<Topo, NoMemory>
    requires { IsTopology found.entries }
    ensures { IfOk result (λ topo. topo ≡ found.entries) }
{
    let mut places = Vec::new(alloc);
    for (key, properties) in found {
        places.push((key.into_path(), properties))?;
    }
    Ok(Topo::from_vec(places))
}

/// Reads the line of a number, counted from 0, at the begin of the rest of a text; what is left
/// behind it.
#[tactic(auto, using(crate::proofs::Stepping::steps, crate::proofs::Ranges::rest_all))]
fn step<'a>(
    alloc: Global,
    text: &[u8],
    found: &mut BTreeMap<Key, Properties>,
    rest: &'a [u8],
    number: u32,
) -> Result<Option<&'a [u8]>, TopoFault>
    requires { IsAt text.now number rest.now found.old.entries }
    ensures next { IfOk result
        (λ left. MatchOption left ((IsFaultless text.now)
        × (found.new.entries ≡ topology_of text.now))
        (λ more. (IsAt text.now (number + 1) more.now found.new.entries)
        × (length more.now < length rest.now) × (number + 1 ≤ 16777216))) }
    ensures fault { IfErr result (IsFirstFault text.now) }
{
    let at = find_byte(rest, b'\n');
    let before = text.len() - rest.len();
    let last = (before + at + 1).min(text.len());
    match take_line(alloc, found, &rest[..at], last) {
        Ok(()) => {}
        Err(LineStop::At(kind)) => return Err(TopoFault::At {
            line: number + 1,
            kind,
        }),
        Err(LineStop::Memory) => return Err(TopoFault::NoMemory),
    }
    if at < rest.len() {
        Ok(Some(&rest[at + 1..]))
    } else {
        Ok(None)
    }
}

/// Reads a topology text, or answers its first fault.
#[tactic(auto, using(crate::proofs::Kept::lawful))]
pub fn read_topo(alloc: Global, text: &[u8]) -> Result<Topo, TopoFault>
    ensures clean { OnOk result (IsFaultless text.now) }
    ensures same { IfOk result (λ topo. topo ≡ topology_of text.now) }
    ensures lawful { IfOk result IsTopology }
    ensures fault { IfErr result (IsFirstFault text.now) }
{
    let mut found = BTreeMap::new(alloc);
    let mut rest = text;
    let mut number = 0;
    while let Some(left) = step(alloc, text, &mut found, rest, number)? {
        rest = left;
        number += 1;
    }
    let topo = topology_from(alloc, found)?;
    Ok(topo)
}
