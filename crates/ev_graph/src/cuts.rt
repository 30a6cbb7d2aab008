//! Links that are cut.

ghost use Rattle.std.specs.Prelude.{◌≡◌, ◌==◌, ◌&&◌, ℕ, Bool, true};
ghost use Rattle.ev_incidence.specs.Sets.{ascends_by, is_member, ascends};
ghost use Rattle.ev_graph.specs.Cutting.{is_before_link, is_cut};

use crate::instances::Link;

/// A test of which links are cut.
pub trait CutTest {
    /// Whether the link of an instance and an effect is cut.
    ghost is_cut: { Self → ℕ → ℕ → Bool };

    fn has(&self, instance: u32, effect: u32) -> bool
        ensures { result ≡ is_cut self.now instance effect };
}

/// The links of a list, which ascend.
#[derive(Drop)]
pub struct CutList<'a> {
    pub less: &'a [Link],
    ghost ascending: { ascends_by is_before_link less.now ≡ true },
}

impl CutTest for CutList<'_> {
    ghost is_cut = { λ cuts. is_cut cuts.less.now };

    fn has(&self, instance: u32, effect: u32) -> bool {
        is_among(self.less, instance, effect)
    }
}

fn is_before(link: Link, instance: u32, effect: u32) -> bool
    ensures { result ≡ is_before_link link (record { instance = instance; effect = effect }) }
{
    link.instance < instance || (link.instance == instance && link.effect < effect)
}

fn is_link(link: Link, instance: u32, effect: u32) -> bool
    ensures { result ≡ (link.instance == instance && link.effect == effect) }
{
    link.instance == instance && link.effect == effect
}

/// Whether a link is one of these, which ascend. It takes the time of one search.
fn is_among(less: &[Link], instance: u32, effect: u32) -> bool
    requires { ascends_by is_before_link less.now ≡ true }
    ensures { result ≡ is_cut less.now instance effect }
{
    let at = less.partition_point(|link| is_before(*link, instance, effect));
    if at >= less.len() {
        return false;
    }
    is_link(less[at], instance, effect)
}

/// Whether a number is one of these, which ascend. It takes the time of one search.
pub fn contains(numbers: &[u32], number: u32) -> bool
    requires { ascends numbers.now ≡ true }
    ensures { result ≡ is_member numbers.now number }
{
    numbers.binary_search(&number).is_ok()
}
