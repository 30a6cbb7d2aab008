//! The tests that need no search: size, order, range, kinds, counts.

ghost use Rattle.std.specs.Prelude.{◌≡◌, ◌&&◌, ◌<◌, ◌≤◌, ◌+◌, ◌^◌, not, nat_le, nat_lt, length};
ghost use Rattle.std.specs.List.{list_all, sum_by};
ghost use Rattle.ev_graph.specs.Kinds.{has_limits, has_engine_below, is_report_node, is_root_node};
ghost use Rattle.ev_incidence.specs.Sets.{ascends, ascends_by};
ghost use Rattle.ev_graph.specs.Lawful.{links_of, is_before_node, is_before_engine, is_ascending};
ghost use Rattle.ev_graph.specs.Lawful.{are_below, is_in_range, keeps_kinds, has_counts};
ghost use Rattle.ev_graph.specs.Lawful.{has_engine_limits, are_ascending, are_in_range, keep_kinds};
ghost use Rattle.ev_graph.specs.Lawful.{are_counted};

use crate::instances::Instance;
use crate::nodes::{EngineSpec, Node, is_report_node, is_root_node};

const MOST_LINKS: usize = 1_048_576;

/// Whether the instances have at most 1,048,576 causes and effects together.
pub(crate) fn are_few(instances: &[Instance]) -> bool
    ensures { result ≡ nat_le (sum_by links_of instances.now) 1048576 }
{
    let mut room = MOST_LINKS;
    for instance in instances {
        let causes = instance.causes.len();
        if causes > room {
            return false;
        }
        room -= causes;
        let effects = instance.effects.len();
        if effects > room {
            return false;
        }
        room -= effects;
    }
    true
}

/// Whether the numbers ascend strictly.
pub fn ascends(numbers: &[u32]) -> bool
    ensures { result ≡ ascends numbers.now }
{
    numbers.is_sorted_by(|a, b| *a < *b)
}

fn nodes_ascend(nodes: &[Node]) -> bool
    ensures { result ≡ ascends_by is_before_node nodes.now }
{
    nodes.is_sorted_by(|a, b| a.name.cmp(&b.name).is_lt())
}

fn engines_ascend(engines: &[EngineSpec]) -> bool
    ensures { result ≡ ascends_by is_before_engine engines.now }
{
    engines.is_sorted_by(|a, b| a.name.cmp(&b.name).is_lt())
}

fn is_ascending(instance: &Instance) -> bool
    ensures { result ≡ is_ascending instance.now }
{
    ascends(instance.causes.as_slice()) && ascends(instance.effects.as_slice())
}

fn each_ascends(instances: &[Instance]) -> bool
    ensures { result ≡ list_all is_ascending instances.now }
{
    instances.iter().all(|instance| is_ascending(instance))
}

/// Whether nodes, engines, causes and effects ascend strictly.
pub(crate) fn are_ascending(nodes: &[Node], engines: &[EngineSpec], instances: &[Instance]) -> bool
    ensures { result ≡ are_ascending
        (record { nodes = nodes.now; engines = engines.now; instances = instances.now }) }
{
    nodes_ascend(nodes) && (engines_ascend(engines) && each_ascends(instances))
}

/// Whether each number is below the bound.
pub fn are_below(bound: usize, numbers: &[u32]) -> bool
    ensures { result ≡ are_below bound numbers.now }
{
    numbers.iter().all(|number| (*number as usize) < bound)
}

fn is_in_range(count: usize, instance: &Instance) -> bool
    ensures { result ≡ is_in_range count instance.now }
{
    are_below(count, instance.causes.as_slice()) && are_below(count, instance.effects.as_slice())
}

fn engines_are_there(nodes: &[Node], count: usize) -> bool
    ensures { result ≡ list_all (λ node. has_engine_below count node.kind) nodes.now }
{
    nodes.iter().all(|node| node.kind.is_of_engines(count))
}

fn trips_are_there(engines: &[EngineSpec], bound: usize) -> bool
    ensures { result ≡ list_all (λ engine. nat_lt engine.trip bound) engines.now }
{
    engines.iter().all(|engine| (engine.trip as usize) < bound)
}

fn each_is_in_range(bound: usize, instances: &[Instance]) -> bool
    ensures { result ≡ list_all (is_in_range bound) instances.now }
{
    instances
        .iter()
        .all(|instance| is_in_range(bound, instance))
}

/// Whether each number of a node or an engine is one that is there.
pub(crate) fn are_in_range(nodes: &[Node], engines: &[EngineSpec], instances: &[Instance]) -> bool
    ensures { result ≡ are_in_range
        (record { nodes = nodes.now; engines = engines.now; instances = instances.now }) }
{
    engines_are_there(nodes, engines.len())
        && (trips_are_there(engines, nodes.len()) && each_is_in_range(nodes.len(), instances))
}

fn none_is_report(nodes: &[Node], numbers: &[u32]) -> bool
    ensures { result ≡ list_all (λ e. not (is_report_node nodes.now e)) numbers.now }
{
    numbers.iter().all(|number| !is_report_node(nodes, *number))
}

fn none_is_root(nodes: &[Node], numbers: &[u32]) -> bool
    ensures { result ≡ list_all (λ e. not (is_root_node nodes.now e)) numbers.now }
{
    numbers.iter().all(|number| !is_root_node(nodes, *number))
}

fn keeps_kinds(nodes: &[Node], instance: &Instance) -> bool
    ensures { result ≡ keeps_kinds nodes.now instance.now }
{
    none_is_report(nodes, instance.causes.as_slice())
        && none_is_root(nodes, instance.effects.as_slice())
}

fn trips_are_reports(nodes: &[Node], engines: &[EngineSpec]) -> bool
    ensures { result ≡ list_all (λ engine. is_report_node nodes.now engine.trip) engines.now }
{
    engines
        .iter()
        .all(|engine| is_report_node(nodes, engine.trip))
}

fn each_keeps_kinds(nodes: &[Node], instances: &[Instance]) -> bool
    ensures { result ≡ list_all (keeps_kinds nodes.now) instances.now }
{
    instances
        .iter()
        .all(|instance| keeps_kinds(nodes, instance))
}

/// Whether each trip is a report, no report a cause and no root an effect.
pub(crate) fn keep_kinds(nodes: &[Node], engines: &[EngineSpec], instances: &[Instance]) -> bool
    ensures { result ≡ keep_kinds
        (record { nodes = nodes.now; engines = engines.now; instances = instances.now }) }
{
    trips_are_reports(nodes, engines) && each_keeps_kinds(nodes, instances)
}

fn has_counts(instance: &Instance) -> bool
    ensures { result ≡ has_counts instance.now }
{
    let causes = instance.causes.len();
    let effects = instance.effects.len();
    instance.n as usize <= effects
        && (0 < instance.k && (instance.k as usize <= causes && 0 < effects))
}

fn has_engine_limits(engine: &EngineSpec) -> bool
    ensures { result ≡ has_engine_limits engine.now }
{
    0 < engine.n && (engine.n <= 1024 && (0 < engine.t && engine.t <= 1 << 60))
}

fn kinds_have_limits(nodes: &[Node]) -> bool
    ensures { result ≡ list_all (λ node. has_limits node.kind) nodes.now }
{
    nodes.iter().all(|node| node.kind.is_inside_limits())
}

fn engines_have_limits(engines: &[EngineSpec]) -> bool
    ensures { result ≡ list_all has_engine_limits engines.now }
{
    engines.iter().all(|engine| has_engine_limits(engine))
}

fn each_has_counts(instances: &[Instance]) -> bool
    ensures { result ≡ list_all has_counts instances.now }
{
    instances.iter().all(|instance| has_counts(instance))
}

/// Whether counts can be met and values are inside their limits.
pub(crate) fn are_counted(nodes: &[Node], engines: &[EngineSpec], instances: &[Instance]) -> bool
    ensures { result ≡ are_counted
        (record { nodes = nodes.now; engines = engines.now; instances = instances.now }) }
{
    kinds_have_limits(nodes) && (engines_have_limits(engines) && each_has_counts(instances))
}
