//! Whether a module can begin with the rules of a rulebook.

ghost use Rattle.std.specs.Prelude.{◌≡◌, ◌&&◌, ◌^◌, nat_lt, length};
ghost use Rattle.std.specs.List.{list_all};
ghost use Rattle.fm_entry.specs.Words.{event_fits};
ghost use Rattle.dx_meaning.specs.Fresh.{first_of};
ghost use Rattle.dx_rules.specs.Rulebooks.{guarding_if_any, ruled_of, configurations_of, rules_in};
ghost use Rattle.dx_state.specs.Configured.{found_at};
ghost use Rattle.dx_state.specs.LawfulState.{is_formed, is_formed_configuration};
ghost use Rattle.dx_step.specs.Lawful.{are_configurations, are_rules, is_there};
ghost use Rattle.dx_engine.specs.Guarding.{are_few};

use dx_rules::{Configs, Guards, Rulebook, Ruled};
use ev_graph::{Graph, Node};
use fm_name::EventName;

/// Whether the name has a spelling, which each has.
fn name_fits(name: &EventName) -> bool
    ensures { result ≡ event_fits name.now }
{
    // These say that they are a class and a path.
    let _class = name.class.text();
    let _path = name.path.text();
    true
}

/// Whether the names of these nodes have spellings.
fn names_fit(nodes: &[Node]) -> bool
    ensures { result ≡ list_all (λ node. event_fits node.name) nodes.now }
{
    nodes.iter().all(|node| name_fits(&node.name))
}

/// Whether the graph is one that a module can have: a lawful graph is, where it has few engines.
fn is_formed(graph: &Graph) -> bool
    ensures { result ≡ is_formed graph.now }
{
    names_fit(graph.nodes()) && graph.engines().len() < 1 << 32
}

/// Whether the links that payloads can break are few.
fn have_few(guards: &Option<Guards>) -> bool
    ensures { result ≡ are_few (guarding_if_any guards.now) }
{
    match guards {
        Some(guards) => guards.has_few_links(),
        None => true,
    }
}

/// Whether the configuration is.
fn is_formed_configuration(ruled: &Ruled) -> bool
    ensures { result ≡ is_formed_configuration (ruled_of ruled.now) }
{
    is_formed(&ruled.graph) && have_few(&ruled.guards)
}

/// Whether each configuration of a list is.
fn are_formed(list: &[Ruled]) -> bool
    ensures { result ≡ list_all (λ x. is_formed_configuration (ruled_of x)) list.now }
{
    list.iter().all(|ruled| is_formed_configuration(ruled))
}

/// Whether the number has 32 bits, which each has.
fn is_number(number: u32) -> bool
    ensures { result ≡ nat_lt number (2 ^ 32) }
{
    let _number = number;
    true
}

/// Whether the configurations are, and there are at most 2^32.
fn are_configurations(configs: &Configs) -> bool
    ensures { result ≡ are_configurations (configurations_of configs.now) }
{
    match configs {
        Configs::Single { number, ruled } => is_number(*number) && is_formed_configuration(ruled),
        Configs::Listed(list) => list.len() <= 1 << 32 && are_formed(list.as_slice()),
    }
}

/// Whether there is a configuration to begin in.
fn has_first(configs: &Configs) -> bool
    ensures { result ≡ is_there (found_at (configurations_of configs.now)
        (first_of (configurations_of configs.now))) }
{
    match configs {
        Configs::Single { .. } => true,
        Configs::Listed(list) => !list.is_empty(),
    }
}

/// Whether a module can begin with these rules: its number is below 8, its configurations are
/// lawful and at most 2^32, and there is one.
pub fn can_begin(rules: &Rulebook) -> bool
    ensures { result ≡ (are_rules (rules_in rules.now) && is_there
        (found_at (rules_in rules.now).configurations
        (first_of (rules_in rules.now).configurations))) }
{
    rules.own < 8 && are_configurations(&rules.configs) && has_first(&rules.configs)
}
