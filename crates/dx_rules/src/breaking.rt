//! Links that a payload breaks.

ghost use Rattle.std.specs.Prelude.{◌≡◌, map, IfOk};
ghost use Rattle.dx_rules.specs.Payloads.{guarding_of, links_to_node};

use crate::pairs::props_of;
use ev_graph::{Link, NoMemory};
use ev_guards::Guards;
use fm_nv::Nv;
use std::alloc::Global;

/// The links of these instances to a node.
fn links_to_node(alloc: Global, instances: &[u32], node: u32) -> Result<Vec<Link>, NoMemory>
    ensures { IfOk result (λ links. links.items ≡ links_to_node node instances.now) }
{
    let mut links = Vec::with_capacity(alloc, instances.len())?;
    for instance in instances {
        links.push(Link {
            instance: *instance,
            effect: node,
        })?;
    }
    Ok(links)
}

/// The links to a node that a payload breaks, by rising instance.
pub(crate) fn broken_links(
    alloc: Global,
    guards: &Guards,
    node: u32,
    payload: &Nv,
) -> Result<Vec<Link>, NoMemory>
    ensures { IfOk result (λ links. links.items
        ≡ links_to_node node ((guarding_of guards.now).breaks node payload.now)) }
{
    let props = props_of(alloc, payload)?;
    let instances = guards.broken_by(alloc, node, props.as_slice())?;
    let links = links_to_node(alloc, instances.as_slice(), node)?;
    Ok(links)
}
