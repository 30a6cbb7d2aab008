// What happens to a module of drawn rules: as a plain value, and as a line of the input.
use crate::rules::{DrawnRules, path_of};
use crate::spoken_of::Said;
use fm_entry::Mark;
use std::alloc::{AllocError, Global};
use test_words::{Draws, ScriptFault};

/// Where a repair is made: at the chassis, at its part, or elsewhere.
#[derive(Clone, Copy, PartialEq, Eq, Drop)]
pub enum Place {
    Chassis,
    Part,
    Elsewhere,
}

/// A repair: at just a place, of a place with all under it, or of a case.
#[derive(Clone, Copy, Drop)]
pub enum Repair {
    Repaired(Place),
    Replaced(Place),
    Acquit(u64),
}

/// What happens.
#[derive(Clone, Copy, Drop)]
pub enum Happening {
    /// A report, whose payload has this number as b, or is empty.
    Report { report: u32, payload: Option<u32> },
    /// A report at a path that the graph does not have.
    Unknown { report: u32 },
    /// A report of a class that is not declared.
    Undeclared,
    Tick,
    Repair(Repair),
}

/// The place of a root.
fn place_of(root: u32) -> Place {
    match root {
        7 => Place::Chassis,
        _ => Place::Part,
    }
}

impl Place {
    fn drawn(draws: &mut Draws) -> Place {
        match draws.up_to(2) {
            0 => Place::Chassis,
            1 => Place::Part,
            _ => Place::Elsewhere,
        }
    }

    fn path(self) -> &'static str {
        match self {
            Place::Chassis => "hc:///chassis=0",
            Place::Part => "hc:///chassis=0/x=0",
            Place::Elsewhere => "hc:///chassis=1",
        }
    }

    fn has_under(self, other: Place) -> bool {
        match self {
            Place::Chassis => true,
            Place::Part => other == Place::Part,
            Place::Elsewhere => false,
        }
    }
}

impl Repair {
    fn speaks_of(self, case: u64, root: u32) -> bool {
        match self {
            Repair::Repaired(place) => place == place_of(root),
            Repair::Replaced(place) => place.has_under(place_of(root)),
            Repair::Acquit(number) => number == case,
        }
    }

    fn mark_of(self) -> Mark {
        match self {
            Repair::Repaired(_) => Mark::Repaired,
            Repair::Replaced(_) => Mark::Replaced,
            Repair::Acquit(_) => Mark::Acquitted,
        }
    }

    /// Marks the present suspects of which it speaks: whether there are some.
    pub fn mark(self, said: &mut Said) -> bool {
        let mut has_marked = false;
        let case = said.number;
        for blame in said.suspects.as_mut_slice() {
            if blame.mark == Mark::Present && self.speaks_of(case, blame.root) {
                blame.mark = self.mark_of();
                has_marked = true;
            }
        }
        has_marked
    }

    fn drawn(draws: &mut Draws) -> Repair {
        match draws.up_to(2) {
            0 => Repair::Repaired(Place::drawn(draws)),
            1 => Repair::Replaced(Place::drawn(draws)),
            _ => Repair::Acquit(u64::from(draws.up_to(7))),
        }
    }

    fn put_line(self, moment: u64, text: &mut String) -> Result<(), AllocError> {
        match self {
            Repair::Repaired(place) => {
                let path = place.path();
                write!(text, "repaired {path} {moment}")
            }
            Repair::Replaced(place) => {
                let path = place.path();
                write!(text, "replaced {path} {moment}")
            }
            Repair::Acquit(case) => write!(text, "acquit dx0/{case} {moment}"),
        }
    }
}

fn drawn_report(draws: &mut Draws) -> Happening {
    let payload = match draws.up_to(3) {
        0 => None,
        1 => Some(0),
        _ => Some(1),
    };
    Happening::Report {
        report: draws.up_to(3),
        payload,
    }
}

fn put_report(
    rules: &DrawnRules,
    report: u32,
    payload: Option<u32>,
    moment: u64,
    text: &mut String,
) -> Result<(), AllocError> {
    let class = rules.class_of(report);
    let path = path_of(report);
    match payload {
        None => write!(text, "report {class} {path} {moment}"),
        Some(number) => {
            write!(
                text,
                "{{\"class\":\"{class}\",\"path\":\"{path}\",\"time\":{moment},"
            )?;
            write!(text, "\"payload\":{{\"b\":{number}}}}}")
        }
    }
}

impl Happening {
    /// Draws what happens.
    pub fn drawn(draws: &mut Draws) -> Happening {
        match draws.up_to(11) {
            0..=6 => drawn_report(draws),
            7 => Happening::Tick,
            8 => Happening::Unknown {
                report: draws.up_to(2),
            },
            9 => Happening::Undeclared,
            _ => Happening::Repair(Repair::drawn(draws)),
        }
    }

    /// The line of the input that says so.
    pub fn line(
        self,
        alloc: Global,
        rules: &DrawnRules,
        moment: u64,
    ) -> Result<String, ScriptFault> {
        let mut text = String::new(alloc);
        match self {
            Happening::Report { report, payload } => {
                put_report(rules, report, payload, moment, &mut text)?;
            }
            Happening::Unknown { report } => {
                let class = rules.class_of(report);
                write!(text, "report {class} hc:///chassis=1 {moment}")?;
            }
            Happening::Undeclared => write!(text, "report ereport.p.z hc:///chassis=0 {moment}")?,
            Happening::Tick => write!(text, "tick {moment}")?,
            Happening::Repair(repair) => repair.put_line(moment, &mut text)?,
        }
        Ok(text)
    }
}
