ghost use Rattle.std.specs.Prelude.{◌≡◌, ◌≤◌, ◌∷◌, ◌++◌, [], ℕ, List, length, decimal, OnOk, OnErr};
ghost use Rattle.fm_topo.specs.Lawful.{ReadsAs};
ghost use Rattle.fm_topo.specs.Printed.{value_text, properties_text, place_line, rest_text};
ghost use Rattle.fm_topo.specs.Printed.{topology_text};

use crate::properties::Properties;
use crate::topo::Topo;
use crate::values::{TopoText, TopoValue};
use fm_bytes::NoMemory;
use fm_name::Fmri;

/// Appends a number in decimal.
fn add_number(number: u64, out: &mut Vec<u8>) -> Result<(), NoMemory>
    ensures { OnOk result (out.new.items ≡ out.old.items ++ decimal number) }
{
    let text = number.to_string(*out.allocator())?;
    out.extend_from_slice(text.as_bytes())?;
    Ok(())
}

/// Appends a text in quotes.
#[tactic(auto, using(crate::proofs::Printing::quoted_added))]
fn add_quoted(text: &TopoText, out: &mut Vec<u8>) -> Result<(), NoMemory>
    ensures { OnOk result (out.new.items ≡ out.old.items ++ (34 ∷ (text.now ++ (34 ∷ [])))) }
{
    out.push(b'"')?;
    out.extend_from_slice(text.get().as_bytes())?;
    out.push(b'"')?;
    Ok(())
}

/// Appends a value.
fn add_value(value: &TopoValue, out: &mut Vec<u8>) -> Result<(), NoMemory>
    ensures { OnOk result (out.new.items ≡ out.old.items ++ value_text value.now) }
{
    match value {
        TopoValue::Number(number) => add_number(*number, out),
        TopoValue::Text(text) => add_quoted(text, out),
    }
}

/// Appends a property behind a space.
#[tactic(auto, using(crate::proofs::Printing::pair_added))]
fn add_pair(name: &TopoText, value: &TopoValue, out: &mut Vec<u8>) -> Result<(), NoMemory>
    ensures { OnOk result
        (out.new.items ≡ out.old.items ++ (32 ∷ (name.now ++ (61 ∷ value_text value.now)))) }
{
    out.push(b' ')?;
    out.extend_from_slice(name.get().as_bytes())?;
    out.push(b'=')?;
    add_value(value, out)
}

/// Appends properties, each behind a space.
fn add_pairs(pairs: &[(TopoText, TopoValue)], out: &mut Vec<u8>) -> Result<(), NoMemory>
    ensures { OnOk result (out.new.items ≡ out.old.items ++ properties_text pairs.now) }
{
    for pair in pairs {
        add_pair(&pair.0, &pair.1, out)?;
    }
    Ok(())
}

/// Appends the line of a path.
#[tactic(auto, using(crate::proofs::Printing::joined))]
fn add_place(path: &Fmri, properties: &Properties, out: &mut Vec<u8>) -> Result<(), NoMemory>
    ensures { OnOk result (out.new.items ≡ out.old.items ++ place_line (path.now, properties.now)) }
{
    out.extend_from_slice(path.text().as_bytes())?;
    add_pairs(properties.pairs(), out)
}

/// Appends the lines of places, each behind a newline.
fn add_rest(places: &[(Fmri, Properties)], out: &mut Vec<u8>) -> Result<(), NoMemory>
    ensures { OnOk result (out.new.items ≡ out.old.items ++ rest_text places.now) }
{
    for place in places {
        out.push(b'\n')?;
        add_place(&place.0, &place.1, out)?;
    }
    Ok(())
}

/// Appends the lines of places, with a newline between two.
#[tactic(auto, using(crate::proofs::Printing::places_none, crate::proofs::Printing::places_some))]
fn add_places(places: &[(Fmri, Properties)], out: &mut Vec<u8>) -> Result<(), NoMemory>
    ensures { OnOk result (out.new.items ≡ out.old.items ++ topology_text places.now) }
{
    match places.split_first() {
        None => Ok(()),
        Some((first, rest)) => {
            add_place(&first.0, &first.1, out)?;
            add_rest(rest, out)?;
            Ok(())
        }
    }
}

/// Writes a topology behind what `out` holds: a line for each path, with a newline between two
/// lines. What it writes reads as the topology, and no text that does so is shorter. After
/// `NoMemory` `out` holds what it held.
#[tactic(auto, using(crate::proofs::Round::reads_back, crate::proofs::Kept::shortest))]
pub fn print_topo(topo: &Topo, out: &mut Vec<u8>) -> Result<(), NoMemory>
    ensures ok { OnOk result (out.new.items ≡ out.old.items ++ topology_text topo.now) }
    ensures reads { OnOk result (ReadsAs (topology_text topo.now) topo.now) }
    ensures short { OnOk result ((text : List ℕ) → ReadsAs text topo.now
        → length (topology_text topo.now) ≤ length text) }
    ensures err { OnErr result (out.new.items ≡ out.old.items) }
{
    let mut text = Vec::new(*out.allocator());
    add_places(topo.places(), &mut text)?;
    out.extend_from_slice(text.as_slice())?;
    Ok(())
}
