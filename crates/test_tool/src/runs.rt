// What a script works on: texts, a machine, what its calls are given, and what the last call asked.
use crate::acts::ActPaths;
use crate::machine::Machine;
use crate::settings::{CallObjects, NO_FAILS, Settings, SourceCalls, at_place};
use crate::texts::Texts;
use crate::undone::Undone;
use fm_outer::{MemDisk, NoMemory};
use fm_top::{Actuator, Disks, ToolStatus, tool};
use std::alloc::Global;
use std::mem;

/// The greatest moment.
const LAST_MOMENT: u64 = 4_611_686_018_427_387_903;

/// Texts, a machine, what its calls are given, which image a crash leaves of those that are named,
/// and what the last call asked.
#[derive(Drop)]
pub struct Run<'a> {
    pub alloc: Global,
    pub texts: Texts<'a>,
    pub settings: Settings<'a>,
    pub machine: Machine<'a>,
    pub image: usize,
    pub asked: SourceCalls,
}

/// What is put back behind a turn of a sweep.
#[derive(Drop)]
pub struct Kept<'a> {
    settings: Settings<'a>,
    machine: Machine<'a>,
    asked: SourceCalls,
}

/// Makes the top call.
fn tool_over(
    alloc: Global,
    handed: &mut CallObjects,
    disks: &mut Disks<MemDisk>,
    acts: &mut [Box<dyn Actuator + Send>],
    now: u64,
) -> ToolStatus {
    handed.rules.truncate(8);
    tool(
        alloc,
        &handed.words,
        &mut handed.input,
        &mut handed.rules,
        &mut handed.topology,
        &mut handed.out,
        disks,
        acts,
        now.min(LAST_MOMENT),
    )
}

/// Has each of the machine's actuators hold what the one that was made of it holds now.
fn take_over(
    alloc: Global,
    held: &mut [ActPaths<'_>],
    acts: &mut [Box<dyn Actuator + Send>],
) -> Result<(), Undone> {
    for (held, act) in held.iter_mut().zip(acts) {
        held.take_over(alloc, act)?;
    }
    Ok(())
}

/// Makes the top call over a machine, with actuators that hold what the machine's hold.
fn tool_on(
    alloc: Global,
    handed: &mut CallObjects,
    machine: &mut Machine<'_>,
    settings: Settings<'_>,
) -> Result<ToolStatus, Undone> {
    let mut acts: Vec<Box<dyn Actuator + Send>> = Vec::new(alloc);
    for (place, held) in machine.acts.iter().enumerate() {
        let act = held.actuator(alloc, at_place(settings.fails.act, place))?;
        acts.push(Box::new(alloc, act)?)?;
    }
    let status = tool_over(alloc, handed, &mut machine.disks, &mut acts, settings.now);
    take_over(alloc, &mut machine.acts, &mut acts)?;
    Ok(status)
}

impl<'a> Run<'a> {
    /// No text has a name, nothing is given, and the machine has no store and no actuator.
    pub fn new(alloc: Global) -> Result<Run<'a>, NoMemory> {
        let machine = Machine::new(alloc)?;
        Ok(Run {
            alloc,
            texts: Texts::new(alloc),
            settings: Settings {
                rules: "",
                topology: "",
                piece: 4096,
                now: 0,
                fails: NO_FAILS,
            },
            machine,
            image: 0,
            asked: SourceCalls {
                rules: 0,
                topology: 0,
                input: 0,
                most: 0,
            },
        })
    }

    /// Goes on with a copy of the machine and with this image, and gives what is to be put back.
    pub fn branch(&mut self, image: usize) -> Result<Kept<'a>, Undone> {
        let copy = self.machine.copy(self.alloc)?;
        self.image = image;
        Ok(Kept {
            settings: self.settings,
            machine: mem::replace(&mut self.machine, copy),
            asked: self.asked,
        })
    }

    /// Puts back what was kept.
    pub fn put_back(&mut self, kept: Kept<'a>) {
        self.settings = kept.settings;
        self.machine = kept.machine;
        self.image = 0;
        self.asked = kept.asked;
    }

    /// Makes a call with what it is handed, and then lets no call fail of the next. Appends what it
    /// put.
    fn call_with(
        &mut self,
        handed: &mut CallObjects,
        put: &mut Vec<u8>,
    ) -> Result<ToolStatus, Undone> {
        let status = tool_on(self.alloc, handed, &mut self.machine, self.settings)?;
        self.settings.fails = NO_FAILS;
        self.asked = handed.asked();
        put.extend_from_slice(handed.out.bytes())?;
        Ok(status)
    }

    /// Makes a call of these words over this input with objects that are made what they say.
    fn call_over(
        &mut self,
        words: &str,
        input: &[u8],
        handed: &mut CallObjects,
        put: &mut Vec<u8>,
    ) -> Result<ToolStatus, Undone> {
        handed.fill(self.alloc, &self.texts, self.settings, words, input)?;
        self.call_with(handed, put)
    }

    /// Makes a call of these words over this input, and then lets no call fail of the next. Appends
    /// what it put.
    pub fn call(
        &mut self,
        words: &str,
        input: &[u8],
        put: &mut Vec<u8>,
    ) -> Result<ToolStatus, Undone> {
        let mut handed = CallObjects::new(self.alloc)?;
        self.call_over(words, input, &mut handed, put)
    }
}
