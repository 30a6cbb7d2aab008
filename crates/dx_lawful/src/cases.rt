//! Open cases, one by one.

ghost use Rattle.std.specs.Prelude.{◌≡◌, ◌&&◌, ◌^◌, true, nat_lt};
ghost use Rattle.std.specs.List.{list_all};
ghost use Rattle.ev_incidence.specs.Sets.{ascends};
ghost use Rattle.ev_graph.specs.Kinds.{is_report_node};
ghost use Rattle.dx_lawful.specs.Trials.{is_guarded_link, could_be_open};

use dx_kept::KeptCase;
use ev_graph::{CutTest, Graph, Node, ascends, contains, is_report_node};
use fm_entry::Broken;

/// Whether these are numbers of entries.
fn are_entries(numbers: &[u64]) -> bool
    ensures { result ≡ list_all (λ n. nat_lt n (2 ^ 46)) numbers.now }
{
    numbers.iter().all(|number| *number < 1 << 46)
}

fn are_reports(nodes: &[Node], numbers: &[u32]) -> bool
    ensures { result ≡ list_all (is_report_node nodes.now) numbers.now }
{
    numbers.iter().all(|number| is_report_node(nodes, *number))
}

/// Whether a link is a guarded one, to a report that was observed.
fn is_guarded_link<C: CutTest>(guarded: &C, observed: &[u32], link: &Broken) -> bool
    requires { ascends observed.now ≡ true }
    ensures { result ≡ is_guarded_link (C.is_cut guarded.now) observed.now link.now }
{
    guarded.has(link.instance, link.effect) && contains(observed, link.effect)
}

/// Whether each of some links is.
fn are_guarded_links<C: CutTest>(guarded: &C, observed: &[u32], broken: &[Broken]) -> bool
    requires { ascends observed.now ≡ true }
    ensures { result
        ≡ list_all (is_guarded_link (C.is_cut guarded.now) observed.now) broken.now }
{
    for link in broken {
        if !is_guarded_link(guarded, observed, link) {
            return false;
        }
    }
    true
}

/// Whether a case is a lawful one at a time, where the next case gets a number and these links are
/// guarded.
fn could_be_open<C: CutTest>(
    graph: &Graph,
    guarded: &C,
    time: u64,
    next: u64,
    case: &KeptCase,
) -> bool
    ensures { result ≡ could_be_open graph.now (C.is_cut guarded.now) time next case.now }
{
    let observed = case.observed();
    if !ascends(observed) {
        return false;
    }
    case.number() < next
        && (case.opened() <= time
            && (!observed.is_empty()
                && (are_reports(graph.nodes(), observed)
                    && (observed.len() <= case.entries().len()
                        && (are_entries(case.entries())
                            && are_guarded_links(guarded, observed, case.broken()))))))
}

/// Whether each of some cases is.
pub(crate) fn could_each_be_open<C: CutTest>(
    graph: &Graph,
    guarded: &C,
    time: u64,
    next: u64,
    cases: &[KeptCase],
) -> bool
    ensures { result
        ≡ list_all (could_be_open graph.now (C.is_cut guarded.now) time next) cases.now }
{
    cases
        .iter()
        .all(|case| could_be_open(graph, guarded, time, next, case))
}
