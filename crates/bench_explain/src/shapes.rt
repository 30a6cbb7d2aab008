//! Graphs of a given shape and size. The numbers of causes are greater than those of their effects.

use ev_graph::{Graph, Instance, Node, NodeKind};
use fm_bytes::Items;
use fm_name::{Class, EventName, read_class, read_fmri};
use std::alloc::{AllocError, Global};

/// How wide a layer is.
const WIDTH: u32 = 256;

/// What the nodes of a graph lead to.
#[derive(Clone, Copy, Drop)]
pub enum Shape {
    /// Layers of 256 nodes; each node has an instance of its own with 14 effects one layer below,
    /// and the last node leads to the layers at the top.
    Layers,
    /// Likewise, with an instance for each effect.
    Pairs,
    /// Parts of so many nodes, each node with an instance that leads to the one below it.
    Parts { reach: u32 },
}

fn class(alloc: Global, text: &str) -> Result<Class, AllocError> {
    match read_class(alloc, text) {
        Ok(Some(class)) => Ok(class),
        _ => Err(AllocError),
    }
}

/// The event of a class at the chassis of a number, so that numbers are in event order.
fn name(alloc: Global, text: &str, number: u32) -> Result<EventName, AllocError> {
    let class = class(alloc, text)?;
    let text = format!(in alloc; "hc:///chassis={number}")?;
    match read_fmri(alloc, text.as_str()) {
        Ok(Some(path)) => Ok(EventName { class, path }),
        _ => Err(AllocError),
    }
}

fn node(alloc: Global, number: u32, kind: NodeKind) -> Result<Node, AllocError> {
    let text = match kind {
        NodeKind::Report { .. } => "ereport.part.seen",
        NodeKind::Inner => "error.part.off",
        _ => "fault.part.dead",
    };
    let name = name(alloc, text, number)?;
    Ok(Node { name, kind })
}

/// An instance from one cause to these effects, of which it must show one.
fn instance(alloc: Global, cause: u32, effects: Vec<u32>) -> Result<Instance, AllocError> {
    let causes = Vec::from_array(alloc, [cause])?;
    Ok(Instance {
        causes: Items::new(causes),
        effects: Items::new(effects),
        n: 1,
        k: 1,
    })
}

/// Fourteen nodes of the layer below that of a node: each of that layer for some of its nodes.
fn below(alloc: Global, number: u32) -> Result<Vec<u32>, AllocError> {
    let first = (number / WIDTH).saturating_sub(1).saturating_mul(WIDTH);
    let mut effects = Vec::new(alloc);
    for turn in 0..14u32 {
        effects.push(
            first
                .saturating_add(number % WIDTH % 35)
                .saturating_add(17 * turn),
        )?;
    }
    Ok(effects)
}

fn put_wide(alloc: Global, number: u32, instances: &mut Vec<Instance>) -> Result<(), AllocError> {
    let effects = below(alloc, number)?;
    instances.push(instance(alloc, number, effects)?)?;
    Ok(())
}

fn put_pairs(alloc: Global, number: u32, instances: &mut Vec<Instance>) -> Result<(), AllocError> {
    for effect in below(alloc, number)? {
        let effects = Vec::from_array(alloc, [effect])?;
        instances.push(instance(alloc, number, effects)?)?;
    }
    Ok(())
}

/// The root leads to the nodes of the last layers.
fn put_top(alloc: Global, root: u32, instances: &mut Vec<Instance>) -> Result<(), AllocError> {
    let first = (root / WIDTH).saturating_sub(1).saturating_mul(WIDTH);
    let effects = (first..root).collect(alloc)?;
    instances.push(instance(alloc, root, effects)?)?;
    Ok(())
}

/// The node leads to the one below it.
fn put_step(alloc: Global, number: u32, instances: &mut Vec<Instance>) -> Result<(), AllocError> {
    let effects = Vec::from_array(alloc, [number.saturating_sub(1)])?;
    instances.push(instance(alloc, number, effects)?)?;
    Ok(())
}

impl Shape {
    /// The shape of a word.
    pub fn of_word(word: &str) -> Option<Shape> {
        match word {
            "layers" => Some(Shape::Layers),
            "pairs" => Some(Shape::Pairs),
            "parts20" => Some(Shape::Parts { reach: 20 }),
            "parts50" => Some(Shape::Parts { reach: 50 }),
            _ => None,
        }
    }

    /// What the node of a number is, of so many.
    fn kind(self, number: u32, size: u32) -> NodeKind {
        let seen = NodeKind::Report { within: 0 };
        let dead = NodeKind::Fault {
            fit: 1,
            retire: false,
        };
        let (lowest, is_root) = match self {
            Shape::Layers | Shape::Pairs => (number < WIDTH, number.saturating_add(1) == size),
            Shape::Parts { reach } => {
                let place = number % reach.max(1);
                (place == 0, place.saturating_add(1) == reach)
            }
        };
        match (lowest, is_root) {
            (true, _) => seen,
            (_, true) => dead,
            _ => NodeKind::Inner,
        }
    }

    /// Puts the instances of the node of a number, of so many nodes.
    fn put(
        self,
        alloc: Global,
        number: u32,
        size: u32,
        instances: &mut Vec<Instance>,
    ) -> Result<(), AllocError> {
        if self.kind(number, size).is_report() {
            return Ok(());
        }
        match self {
            Shape::Parts { .. } => put_step(alloc, number, instances),
            _ if number.saturating_add(1) == size => put_top(alloc, number, instances),
            Shape::Layers => put_wide(alloc, number, instances),
            Shape::Pairs => put_pairs(alloc, number, instances),
        }
    }

    /// The graph of this shape with so many nodes.
    pub fn graph(self, alloc: Global, size: u32) -> Result<Graph, AllocError> {
        let mut nodes = Vec::new(alloc);
        let mut instances = Vec::new(alloc);
        for number in 0..size {
            nodes.push(node(alloc, number, self.kind(number, size))?)?;
            self.put(alloc, number, size, &mut instances)?;
        }
        Graph::build(alloc, nodes, Vec::new(alloc), instances).map_err(|_| AllocError)
    }
}
