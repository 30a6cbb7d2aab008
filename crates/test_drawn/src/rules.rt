// Small rules that are drawn: as plain values, and as the text of a rule file.
//
// Their events are numbered: the reports a, b, c and t, the errors d, e and f, the roots g, h and
// i. The report t and the roots h and i stand at a part of the chassis, all others at the chassis.
// One engine stands there too, and reports t.
use std::alloc::{AllocError, Global};
use test_words::{Draws, ScriptFault};

/// The bit of each event.
const BITS: [u32; 10] = [1, 2, 4, 8, 16, 32, 64, 128, 256, 512];

/// The bits of all reports, of those that payloads can ask of, and of all roots.
pub const REPORTS: u32 = 15;

const ASKED: u32 = 7;

pub const ROOTS: u32 = 896;

/// The report of the engine.
pub const TRIP: u32 = 3;

/// The first root.
pub const FIRST_ROOT: u32 = 7;

/// The topology.
pub const PARTS: &str = "hc:///chassis=0\nhc:///chassis=0/x=0\n";

/// What a root is.
#[derive(Clone, Copy, PartialEq, Eq, Drop)]
pub enum RootKind {
    Fault,
    Defect,
    Upset,
}

/// A root: what it is, its rate, and whether its resource is to be retired.
#[derive(Clone, Copy, Drop)]
pub struct Root {
    pub kind: RootKind,
    pub fit: u64,
    pub retire: bool,
    /// Whether it is of the engine, where it is an upset.
    pub notes: bool,
}

/// An instance: its causes and effects as bits, how many effects each cause must show, how many
/// causes each effect takes, and those effects that are shown only where a payload has b = 1.
#[derive(Clone, Copy, Drop)]
pub struct Arrow {
    pub causes: u32,
    pub effects: u32,
    pub n: u32,
    pub k: u32,
    pub guarded: u32,
}

/// Rules: the instances, the three roots, for how long each report is awaited, and at how many
/// moments within which time the engine fires.
#[derive(Drop)]
pub struct DrawnRules {
    pub arrows: Vec<Arrow>,
    pub roots: [Root; 3],
    pub within: [u64; 4],
    pub count: u64,
    pub time: u64,
}

/// The bit of an event.
pub fn bit_of(number: u32) -> u32 {
    BITS.get(number as usize).copied().unwrap_or(0)
}

/// The names of the path of an event.
fn names_of(number: u32) -> &'static str {
    match number {
        3 | 8 | 9 => "chassis/x",
        _ => "chassis",
    }
}

/// The path of an event.
pub fn path_of(number: u32) -> &'static str {
    match number {
        3 | 8 | 9 => "hc:///chassis=0/x=0",
        _ => "hc:///chassis=0",
    }
}

fn root_class(number: u32, kind: RootKind) -> &'static str {
    match (number, kind) {
        (7, RootKind::Fault) => "fault.p.g",
        (7, RootKind::Defect) => "defect.p.g",
        (7, RootKind::Upset) => "upset.p.g",
        (8, RootKind::Fault) => "fault.p.h",
        (8, RootKind::Defect) => "defect.p.h",
        (8, RootKind::Upset) => "upset.p.h",
        (_, RootKind::Fault) => "fault.p.i",
        (_, RootKind::Defect) => "defect.p.i",
        (_, RootKind::Upset) => "upset.p.i",
    }
}

impl DrawnRules {
    /// The root of this number.
    pub fn root(&self, number: u32) -> Root {
        match number {
            7 => self.roots[0],
            8 => self.roots[1],
            _ => self.roots[2],
        }
    }

    /// For how long a report is awaited.
    pub fn within(&self, number: u32) -> u64 {
        self.within.get(number as usize).copied().unwrap_or(0)
    }

    /// The class of an event.
    pub fn class_of(&self, number: u32) -> &'static str {
        match number {
            0 => "ereport.p.a",
            1 => "ereport.p.b",
            2 => "ereport.p.c",
            3 => "ereport.p.t",
            4 => "error.p.d",
            5 => "error.p.e",
            6 => "error.p.f",
            _ => root_class(number, self.root(number).kind),
        }
    }

    /// The number, in the order of events, of the report a, b or c: those of the chassis are in the
    /// order of their classes, of which a defect's comes before a report's.
    pub fn node_of(&self, number: u32) -> u32 {
        if self.roots[0].kind == RootKind::Defect {
            number.saturating_add(1)
        } else {
            number
        }
    }
}

/// Draws an instance that leads from greater numbers to smaller ones, or none. Only the first
/// leads to t.
fn drawn_arrow(draws: &mut Draws) -> Option<Arrow> {
    let causes = draws.some_of(1008) & draws.some_of(1008);
    let lowest = causes & causes.wrapping_neg();
    let effects = draws.some_of(119) & lowest.wrapping_sub(1);
    if causes == 0 || effects == 0 {
        return None;
    }
    let needed = causes.count_ones().saturating_sub(1);
    Some(Arrow {
        causes,
        effects,
        n: draws.up_to(effects.count_ones().saturating_sub(1)),
        k: draws.up_to(needed).saturating_add(1),
        guarded: effects & draws.some_of(ASKED) & draws.some_of(ASKED),
    })
}

/// Draws the instance that leads from g to t.
fn trip_arrow(draws: &mut Draws) -> Arrow {
    let effects = bit_of(TRIP) | draws.some_of(1);
    Arrow {
        causes: bit_of(FIRST_ROOT),
        effects,
        n: draws.up_to(effects.count_ones()),
        k: 1,
        guarded: 0,
    }
}

fn drawn_arrows(alloc: Global, draws: &mut Draws) -> Result<Vec<Arrow>, ScriptFault> {
    let mut arrows = Vec::new(alloc);
    arrows.push(trip_arrow(draws))?;
    for _ in 0..9 {
        if let Some(arrow) = drawn_arrow(draws) {
            arrows.push(arrow)?;
        }
    }
    Ok(arrows)
}

fn drawn_root(draws: &mut Draws, other: RootKind) -> Root {
    let kind = if draws.is_even() {
        RootKind::Fault
    } else {
        other
    };
    Root {
        kind,
        fit: u64::from(draws.up_to(4).saturating_add(1)),
        retire: draws.is_even(),
        notes: draws.up_to(3) != 0,
    }
}

/// Draws rules.
pub fn drawn_rules(alloc: Global, draws: &mut Draws) -> Result<DrawnRules, ScriptFault> {
    let arrows = drawn_arrows(alloc, draws)?;
    let first = drawn_root(draws, RootKind::Defect);
    let second = drawn_root(draws, RootKind::Upset);
    let third = drawn_root(draws, RootKind::Upset);
    let within = [
        u64::from(draws.up_to(6)),
        u64::from(draws.up_to(6)),
        u64::from(draws.up_to(6)),
        u64::from(draws.up_to(6)),
    ];
    Ok(DrawnRules {
        arrows,
        roots: [first, second, third],
        within,
        count: u64::from(draws.up_to(2).saturating_add(1)),
        time: u64::from(draws.up_to(9).saturating_add(1)),
    })
}

fn put_report(rules: &DrawnRules, number: u32, text: &mut String) -> Result<(), AllocError> {
    let class = rules.class_of(number);
    let names = names_of(number);
    let within = rules.within(number);
    write!(text, "event {class}@{names}, within={within}ns;\n")
}

fn put_error(rules: &DrawnRules, number: u32, text: &mut String) -> Result<(), AllocError> {
    let class = rules.class_of(number);
    let names = names_of(number);
    write!(text, "event {class}@{names};\n")
}

fn put_root(rules: &DrawnRules, number: u32, text: &mut String) -> Result<(), AllocError> {
    let root = rules.root(number);
    let class = rules.class_of(number);
    let names = names_of(number);
    let fit = root.fit;
    let retire = u32::from(root.retire);
    match (root.kind, root.notes) {
        (RootKind::Upset, true) => write!(text, "event {class}@{names}, engine=serd.p.e;\n"),
        (RootKind::Upset, false) => write!(text, "event {class}@{names};\n"),
        _ => write!(
            text,
            "event {class}@{names}, FITrate={fit}, retire={retire};\n"
        ),
    }
}

fn put_event(rules: &DrawnRules, number: u32, text: &mut String) -> Result<(), AllocError> {
    match number {
        0..=3 => put_report(rules, number, text),
        4..=6 => put_error(rules, number, text),
        _ => put_root(rules, number, text),
    }
}

/// Puts the events of some bits as patterns; those that are guarded ask of the payload.
fn put_patterns(
    rules: &DrawnRules,
    bits: u32,
    guarded: u32,
    text: &mut String,
) -> Result<(), AllocError> {
    let mut front = "";
    for number in 0..10 {
        if bits & bit_of(number) != 0 {
            let class = rules.class_of(number);
            let names = names_of(number);
            write!(text, "{front}{class}@{names}")?;
            if guarded & bit_of(number) != 0 {
                text.push_str("{payloadprop(\"b\") == 1}")?;
            }
            front = ", ";
        }
    }
    Ok(())
}

fn put_arrow(rules: &DrawnRules, arrow: Arrow, text: &mut String) -> Result<(), AllocError> {
    let n = arrow.n;
    let k = arrow.k;
    text.push_str("prop ")?;
    put_patterns(rules, arrow.causes, 0, text)?;
    write!(text, " ({n})->({k}) ")?;
    put_patterns(rules, arrow.effects, arrow.guarded, text)?;
    text.push_str(";\n")
}

/// The text of the rule file.
pub fn text_of(alloc: Global, rules: &DrawnRules) -> Result<String, AllocError> {
    let mut text = String::new(alloc);
    for number in 0..10 {
        put_event(rules, number, &mut text)?;
    }
    let count = rules.count;
    let time = rules.time;
    write!(
        text,
        "engine serd.p.e@chassis/x, N={count}, T={time}ns, trip=ereport.p.t;\n"
    )?;
    for arrow in rules.arrows.as_slice() {
        put_arrow(rules, *arrow, &mut text)?;
    }
    Ok(text)
}
