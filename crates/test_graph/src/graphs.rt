// Graphs that a script says, and what their making answers.
use crate::lines::{EngineLine, InstanceLine, engine_in, instance_in, kind_in, kinds_in};
use ev_graph::{EngineSpec, Graph, GraphFault, Instance, Node, NodeKind};
use std::alloc::Global;
use test_small_graph::{node_at, nodes_of};
use test_words::{ScriptFault, first_word, small_in};

/// The kinds of the nodes, the engines and the instances of a graph.
#[derive(Drop)]
pub struct GraphLines {
    kinds: Vec<NodeKind>,
    engines: Vec<EngineLine>,
    instances: Vec<InstanceLine>,
}

/// The parts that a graph is made of.
#[derive(Drop)]
pub struct GraphParts {
    nodes: Vec<Node>,
    engines: Vec<EngineSpec>,
    instances: Vec<Instance>,
}

/// The engines of these lines.
fn engines_of(alloc: Global, lines: &[EngineLine]) -> Result<Vec<EngineSpec>, ScriptFault> {
    let mut engines = Vec::new(alloc);
    for line in lines {
        engines.push(line.engine(alloc)?)?;
    }
    Ok(engines)
}

/// The instances of these lines.
fn instances_of(alloc: Global, lines: &[InstanceLine]) -> Result<Vec<Instance>, ScriptFault> {
    let mut instances = Vec::new(alloc);
    for line in lines {
        instances.push(line.instance(alloc)?)?;
    }
    Ok(instances)
}

/// The nodes of these kinds.
fn nodes_in(alloc: Global, kinds: &[NodeKind]) -> Result<Vec<Node>, ScriptFault> {
    nodes_of(alloc, kinds)?.ok_or(ScriptFault::Words)
}

impl GraphLines {
    /// No nodes.
    pub fn new(alloc: Global) -> GraphLines {
        GraphLines {
            kinds: Vec::new(alloc),
            engines: Vec::new(alloc),
            instances: Vec::new(alloc),
        }
    }

    /// Nodes of these kinds, and these instances between them.
    pub fn of(alloc: Global, kinds: Vec<NodeKind>, instances: Vec<InstanceLine>) -> GraphLines {
        GraphLines {
            kinds,
            engines: Vec::new(alloc),
            instances,
        }
    }

    /// Takes what a line says of the graph; whether it is such a line.
    pub fn take(&mut self, alloc: Global, word: &str, rest: &str) -> Result<bool, ScriptFault> {
        match word {
            "nodes" => *self = GraphLines::of(alloc, kinds_in(alloc, rest)?, Vec::new(alloc)),
            "engine" => self.engines.push(engine_in(rest)?)?,
            "leads" => self.instances.push(instance_in(alloc, rest)?)?,
            _ => return Ok(false),
        }
        Ok(true)
    }

    /// The parts of the graph.
    fn parts(&self, alloc: Global) -> Result<GraphParts, ScriptFault> {
        let nodes = nodes_in(alloc, &self.kinds)?;
        let engines = engines_of(alloc, &self.engines)?;
        let instances = instances_of(alloc, &self.instances)?;
        Ok(GraphParts {
            nodes,
            engines,
            instances,
        })
    }

    /// The graph, which is one.
    pub fn graph(&self, alloc: Global) -> Result<Graph, ScriptFault> {
        let parts = self.parts(alloc)?;
        match Graph::build(alloc, parts.nodes, parts.engines, parts.instances) {
            Ok(graph) => Ok(graph),
            Err(GraphFault::NoMemory) => Err(ScriptFault::NoMemory),
            Err(_) => Err(ScriptFault::Words),
        }
    }

    /// What the making of the graph answers, with what a line says in place of a part.
    pub fn build(&self, alloc: Global, word: &str, rest: &str) -> Result<String, ScriptFault> {
        let mut parts = self.parts(alloc)?;
        parts.change(alloc, word, rest)?;
        parts.answer(alloc)
    }
}

impl GraphParts {
    /// Puts another instance in the place of one, `PLACE CAUSE .. > EFFECT .., N/K`.
    fn change_instance(&mut self, alloc: Global, words: &str) -> Result<(), ScriptFault> {
        let (place, rest) = first_word(words);
        let place = small_in(place)? as usize;
        let other = instance_in(alloc, rest)?.instance(alloc)?;
        *self.instances.get_mut(place).ok_or(ScriptFault::Words)? = other;
        Ok(())
    }

    /// Puts one more node at the end, `CHASSIS KIND`.
    fn add_node(&mut self, alloc: Global, words: &str) -> Result<(), ScriptFault> {
        let (chassis, kind) = first_word(words);
        let node = node_at(alloc, small_in(chassis)?, kind_in(kind)?)?;
        self.nodes.push(node.ok_or(ScriptFault::Words)?)?;
        Ok(())
    }

    /// Puts what a line says in the place of a part.
    fn change(&mut self, alloc: Global, word: &str, rest: &str) -> Result<(), ScriptFault> {
        match word {
            "build" => Ok(()),
            "build_instance" => self.change_instance(alloc, rest),
            "build_node" => self.add_node(alloc, rest),
            "build_nodes" => {
                self.nodes = nodes_in(alloc, &kinds_in(alloc, rest)?)?;
                Ok(())
            }
            "build_engine" => {
                self.engines = engines_of(alloc, &[engine_in(rest)?])?;
                Ok(())
            }
            _ => Err(ScriptFault::Words),
        }
    }

    /// Whether they make a graph, or why not.
    fn answer(self, alloc: Global) -> Result<String, ScriptFault> {
        match Graph::build(alloc, self.nodes, self.engines, self.instances) {
            Ok(_) => Ok(String::from_str(alloc, "graph")?),
            Err(GraphFault::NoMemory) => Err(ScriptFault::NoMemory),
            Err(fault) => Ok(String::from_str(alloc, fault_word(fault))?),
        }
    }
}

/// The word of a refusal.
fn fault_word(fault: GraphFault) -> &'static str {
    match fault {
        GraphFault::TooManyNodes => "too many nodes",
        GraphFault::TooManyLinks => "too many links",
        GraphFault::Order => "order",
        GraphFault::Range => "range",
        GraphFault::Kinds => "kinds",
        GraphFault::Counts => "counts",
        GraphFault::Cyclic => "cyclic",
        GraphFault::NoMemory => "no memory",
    }
}
