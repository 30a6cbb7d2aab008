//! The classes that reports of a graph have.

ghost use Rattle.std.specs.Prelude.{◌≡◌, ◌&&◌, ◌||◌, ℕ, List, bytes_eq, IfOk, OnOk};
ghost use Rattle.std.specs.List.{list_any};
ghost use Rattle.ev_graph.specs.Kinds.{is_report_kind};
ghost use Rattle.dx_step.specs.Reports.{declares};
ghost use Rattle.dx_rules.specs.Classes.{is_class_among};

use ev_graph::{Graph, NoMemory, Node};
use fm_name::Class;
use std::alloc::Global;
use std::collections::BTreeSet;
use std::marker::Model;
use std::sync::Arc;

/// Classes in their order, each once. They never change, and copies share them.
#[derive(Drop)]
pub struct Classes {
    set: Arc<BTreeSet<Class>>,
}

impl Model for Classes {
    ghost use Rattle.std.specs.Prelude.{ℕ, List};

    ghost Value = { List (List ℕ) };

    ghost view = { λ c. c.set.value.keys };
}

/// Adds the class of a node that is a report.
#[tactic(auto, using(crate::proofs::Declaring::class_added))]
fn add_class(node: &Node, set: &mut BTreeSet<Class>) -> Result<(), NoMemory>
    ensures { OnOk result ((class : List ℕ) → is_class_among set.new.keys class
        ≡ (is_class_among set.old.keys class
        || (is_report_kind node.now.kind && bytes_eq node.now.name.class class))) }
{
    if !node.kind.is_report() {
        return Ok(());
    }
    let class = node.name.class.copy()?;
    match set.insert(class) {
        Ok(_) => Ok(()),
        Err(_) => Err(NoMemory),
    }
}

/// The classes of the reports among nodes.
fn classes_of(alloc: Global, nodes: &[Node]) -> Result<BTreeSet<Class>, NoMemory>
    ensures { IfOk result (λ set. (class : List ℕ) → is_class_among set.keys class
        ≡ list_any (λ node. is_report_kind node.kind && bytes_eq node.name.class class) nodes.now) }
{
    let mut set = BTreeSet::new(alloc);
    'nodes: for node in nodes {
        add_class(node, &mut set)?;
    }
    Ok(set)
}

impl Classes {
    /// The classes of the reports of a graph. It takes time for each node.
    #[tactic(auto, unfolding(dx_step::specs::Reports::declares))]
    pub fn of(alloc: Global, graph: &Graph) -> Result<Classes, NoMemory>
        ensures { IfOk result (λ classes. (class : List ℕ) → is_class_among classes class
            ≡ declares graph.now class) }
    {
        let set = classes_of(alloc, graph.nodes())?;
        let set = Arc::new(alloc, set)?;
        Ok(Classes { set })
    }

    /// The same classes. It takes no memory: it is want of memory alone where 2^63 share one set.
    pub fn copy(&self) -> Result<Classes, NoMemory>
        ensures { IfOk result (λ classes. classes ≡ self.now) }
    {
        let set = self.set.clone()?;
        Ok(Classes { set })
    }

    /// Whether the class is one of them.
    #[tactic(auto, using(crate::proofs::Declaring::found_is))]
    pub fn has(&self, class: &Class) -> bool
        ensures { result ≡ is_class_among self.now class.now }
    {
        self.set.contains(class)
    }
}
