// Stories of drawn rules, by a search over all sets of events.
use crate::rules::{DrawnRules, REPORTS, ROOTS, bit_of};

/// A link that a payload broke: of which instance, to which report.
#[derive(Clone, Copy, PartialEq, Eq, Drop)]
pub struct Cut {
    pub arrow: u32,
    pub report: u32,
}

/// What a case has: the bits of its reports, those that are allowed, and the links that are cut.
#[derive(Clone, Copy, Drop)]
pub struct Observation<'a> {
    pub observed: u32,
    pub allowed: u32,
    pub cuts: &'a [Cut],
}

/// What is pending, and which roots explain what was observed, as bits.
#[derive(Clone, Copy, Drop)]
pub struct Verdict {
    pub pending: u32,
    pub explain: u32,
}

/// The effects, as bits, to which an instance does not lead any more.
fn cut_of(cuts: &[Cut], arrow: u32) -> u32 {
    let mut bits = 0;
    for cut in cuts {
        if cut.arrow == arrow {
            bits |= bit_of(cut.report);
        }
    }
    bits
}

/// Whether a set of events is a story of the root: it is the only root among them, each other event
/// is an effect of an instance with enough causes among them, and of each instance with some cause
/// among them enough effects are.
fn is_story(rules: &DrawnRules, cuts: &[Cut], root: u32, set: u32) -> bool {
    let mut shown = root;
    let mut number = 0u32;
    for arrow in rules.arrows.as_slice() {
        let effects = arrow.effects & !cut_of(cuts, number);
        if arrow.causes & set != 0 && (effects & set).count_ones() < arrow.n {
            return false;
        }
        if (arrow.causes & set).count_ones() >= arrow.k {
            shown |= effects;
        }
        number = number.saturating_add(1);
    }
    set & ROOTS == root && set & !shown == 0
}

/// The same with what the stories of a root say.
fn with_root(
    rules: &DrawnRules,
    observation: Observation<'_>,
    root: u32,
    found: Verdict,
) -> Verdict {
    let mut found = found;
    for others in 0..128 {
        let set = others | root;
        let reports = set & REPORTS;
        let is_possible = observation.observed & !reports == 0
            && reports & !observation.allowed == 0;
        if is_possible && is_story(rules, observation.cuts, root, set) {
            found.pending |= reports & !observation.observed;
            if reports == observation.observed {
                found.explain |= root;
            }
        }
    }
    found
}

/// What all stories of all roots say.
pub fn search(rules: &DrawnRules, observation: Observation<'_>) -> Verdict {
    let none = Verdict {
        pending: 0,
        explain: 0,
    };
    let first = with_root(rules, observation, bit_of(7), none);
    let second = with_root(rules, observation, bit_of(8), first);
    with_root(rules, observation, bit_of(9), second)
}
