//! Bindings of names in another order.

ghost use Rattle.std.specs.Prelude.{◌≡◌, map, IfOk};
ghost use Rattle.ev_events.specs.Turned.{instances_at, places_among};

use crate::names::Iterators;
use fm_bytes::{Items, NoMemory};
use std::alloc::Global;

/// The number that each name has among others.
pub(crate) fn places_among(
    alloc: Global,
    others: &Iterators,
    names: &Iterators,
) -> Result<Vec<usize>, NoMemory>
    ensures { IfOk result (λ places. places.items ≡ places_among others.now names.now) }
{
    let mut places = Vec::new(alloc);
    for known in names.known() {
        places.push(others.number_of(known))?;
    }
    Ok(places)
}

/// The instances at these places of a binding.
fn instances_at(alloc: Global, places: &[usize], binding: &[u32]) -> Result<Items<u32>, NoMemory>
    ensures { IfOk result (λ found. found ≡ instances_at places.now binding.now) }
{
    let mut found = Vec::new(alloc);
    for place in places {
        found.push(match binding.get(*place) {
            Some(instance) => *instance,
            None => 0,
        })?;
    }
    Ok(Items::new(found))
}

/// Each binding's instances at these places.
pub(crate) fn turned_back(
    alloc: Global,
    places: &[usize],
    bindings: &[Items<u32>],
) -> Result<Items<Items<u32>>, NoMemory>
    ensures { IfOk result (λ found. found ≡ map (instances_at places.now) bindings.now) }
{
    let mut found = Vec::new(alloc);
    for binding in bindings {
        found.push(instances_at(alloc, places, binding.as_slice())?)?;
    }
    Ok(Items::new(found))
}
