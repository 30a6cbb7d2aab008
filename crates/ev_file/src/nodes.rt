//! Nodes, written and read: the number of the kind, the class and path, and the kind's fields.

ghost use Rattle.std.specs.Prelude.{◌≡◌, Some, None, IfOk, IfErr};
ghost use Rattle.fm_bytes.specs.Reading.{IsMisspelled};
ghost use Rattle.fm_name.specs.Category.{category_of};
ghost use Rattle.ev_file.specs.Files.{is_category_for, has_category, node_bytes};
ghost use Rattle.ev_file.specs.FileReading.{any_node_from, node_from};

use crate::kinds::{kind_code, put_kind, take_kind};
use ev_graph::{Node, NodeKind};
use fm_bytes::{Input, NoMemory, ReadFault, put_u8};
use fm_entry::EventCodec;
use fm_items::Codec;
use fm_name::Category;
use std::alloc::Global;

/// The spelling of nodes.
pub(crate) struct NodeCodec;

impl Codec<Node> for NodeCodec {
    ghost fits = { λ _. Unit {0} };

    ghost spelling = { node_bytes };

    ghost reading = { node_from };

    fn put(node: &Node, out: &mut Vec<u8>) -> Result<(), NoMemory> {
        put_u8(kind_code(node.kind), out)?;
        EventCodec::put(&node.name, out)?;
        put_kind(node.kind, out)
    }

    #[tactic(auto, unfolding(crate::specs::FileReading::node_from))]
    fn take(input: &mut Input, alloc: Global) -> Result<Node, ReadFault> {
        let node = take_any_node(input, alloc)?;
        if is_category_for(node.kind, node.name.class.category()) {
            Ok(node)
        } else {
            Err(ReadFault::NoSpelling)
        }
    }
}

/// An event of some category.
#[tactic(auto, unfolding(crate::specs::FileReading::any_node_from))]
fn take_any_node(input: &mut Input, alloc: Global) -> Result<Node, ReadFault>
    ensures ok { IfOk result (λ n. any_node_from input.old ≡ Some (n, input.new)) }
    ensures err { IfErr result (λ f. IsMisspelled f → any_node_from input.old ≡ None) }
{
    let code = input.take_u8()?;
    let name = EventCodec::take(input, alloc)?;
    let kind = take_kind(input, code)?;
    Ok(Node { name, kind })
}

/// Whether the category is that of the events of the kind.
fn is_category_for(kind: NodeKind, category: Option<Category>) -> bool
    ensures { result ≡ is_category_for kind category }
{
    match (kind, category) {
        (NodeKind::Fault { .. }, Some(Category::Fault)) => true,
        (NodeKind::Defect { .. }, Some(Category::Defect)) => true,
        (NodeKind::Upset { .. }, Some(Category::Upset)) => true,
        (NodeKind::Inner, Some(Category::Error)) => true,
        (NodeKind::Report { .. }, Some(Category::Ereport)) => true,
        _ => false,
    }
}
