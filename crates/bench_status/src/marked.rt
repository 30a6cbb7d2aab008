//! An actuator whose changes take the same time whatever it holds.

ghost use Rattle.std.specs.Prelude.{None, codes};
ghost use Rattle.fm_act.specs.ToldLaws.{nothing_told_ascends};

use crate::made::processor;
use fm_act::{ActFault, Actuator};
use fm_name::Fmri;
use std::alloc::{AllocError, Global};

/// An actuator for the processors of one chassis, with a mark for each that it holds. It tells
/// nothing of them to contracts. What is held is listed anew where it has changed.
#[derive(Drop)]
pub struct Marked {
    alloc: Global,
    marks: Vec<bool>,
    list: Option<Vec<u32>>,
}

impl Marked {
    /// One for so many processors, which holds those behind the first half of them.
    pub fn new(alloc: Global, count: u32) -> Result<Marked, AllocError> {
        let mut marks = Vec::new(alloc);
        for number in 0..count {
            marks.push(number >= count / 2)?;
        }
        Ok(Marked {
            alloc,
            marks,
            list: None,
        })
    }
}

/// The numbers that are marked.
fn marked_numbers(alloc: Global, marks: &[bool]) -> Result<Vec<u32>, AllocError> {
    let mut list = Vec::new(alloc);
    let mut number: u32 = 0;
    for mark in marks {
        if *mark {
            list.push(number)?;
        }
        number = number.saturating_add(1);
    }
    Ok(list)
}

/// Marks the processor of a path, or unmarks it.
fn mark(marks: &mut Vec<bool>, path: &Fmri, is_held: bool) {
    let number = path.instance(path.depth() - 1);
    if let Some(mark) = marks.get_mut(number as usize) {
        *mark = is_held;
    }
}

impl Actuator for Marked {
    ghost held = { λ _. None };

    ghost act_failures = { λ _. 0 };

    ghost kind_text = { λ _. codes "cpu" };

    ghost ascends = { λ _ paths told. nothing_told_ascends paths told };

    fn kind(&self) -> &str {
        "cpu"
    }

    fn listed(&mut self, at: u32) -> Result<Option<Fmri>, ActFault> {
        let list = match self.list.take() {
            Some(list) => list,
            None => marked_numbers(self.alloc, &self.marks)?,
        };
        let found = match list.get(at as usize) {
            Some(number) if at < 65_536 => Some(processor(self.alloc, *number)?),
            _ => None,
        };
        self.list = Some(list);
        Ok(found)
    }

    fn retire(&mut self, path: &Fmri) -> Result<(), ActFault> {
        self.list = None;
        mark(&mut self.marks, path, true);
        Ok(())
    }

    fn unretire(&mut self, path: &Fmri) -> Result<(), ActFault> {
        self.list = None;
        mark(&mut self.marks, path, false);
        Ok(())
    }
}
