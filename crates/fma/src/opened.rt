// The objects that the program hands in.
ghost use Rattle.std.specs.Prelude.{◌≤◌, length, IfOk};

use fm_files::{Input, Output, StoreFile, StoreFolder, Trouble};
use fm_top::{Disks, ToolStatus};
use std::alloc::AllocError;
use std::fs;
use std::io::{ErrorKind, Stdout};

/// The rule files, in order. Those from the first that is missing on are none.
const RULES: [&str; 8] = [
    "dx0.esc", "dx1.esc", "dx2.esc", "dx3.esc", "dx4.esc", "dx5.esc", "dx6.esc", "dx7.esc",
];

/// Whether there is no file of that name.
fn is_missing(rt: &HostRuntime, name: &str) -> bool {
    match fs::metadata(rt, name) {
        Ok(_) => false,
        Err(fault) => fault.kind() == ErrorKind::NotFound,
    }
}

/// Opens objects over files, at their first call; or, where there is a reason why no file may be
/// opened, makes objects of which every call fails for it.
#[derive(Clone, Copy)]
struct Opener<'a> {
    rt: &'a HostRuntime,
    barred: Option<Trouble>,
}

impl Opener<'_> {
    fn source(&self, name: &'static str, may_miss: bool) -> Result<Input, AllocError> {
        match self.barred {
            Some(trouble) => Ok(Input::broken(trouble)),
            None => Ok(Input::file(self.rt.clone()?, name, may_miss)),
        }
    }

    fn rules(&self) -> Result<Vec<Input>, AllocError>
        ensures { IfOk result (λ rules. length rules.items ≤ 8) }
    {
        let mut rules = Vec::new(self.rt.alloc());
        'names: for name in RULES {
            if is_missing(self.rt, name) {
                break;
            }
            rules.push(self.source(name, false)?)?;
        }
        Ok(rules)
    }

    fn disk(&self, folder: &StoreFolder, name: &'static str) -> Result<StoreFile, AllocError> {
        match self.barred {
            Some(trouble) => Ok(StoreFile::closed(trouble)),
            None => Ok(StoreFile::new(folder.share()?, name)),
        }
    }

    fn disks(&self) -> Result<Disks<StoreFile>, AllocError> {
        let folder = StoreFolder::new(self.rt.clone()?, self.rt.alloc())?;
        Ok(Disks {
            conf: self.disk(&folder, "store/conf")?,
            err_a: self.disk(&folder, "store/err_a")?,
            err_b: self.disk(&folder, "store/err_b")?,
            slot_a: self.disk(&folder, "store/slot_a")?,
            slot_b: self.disk(&folder, "store/slot_b")?,
            flt: self.disk(&folder, "store/flt")?,
        })
    }
}

/// What is handed to the top call, but for the actuators.
#[derive(Drop)]
pub struct Objects {
    pub input: Input,
    pub rules: Vec<Input>,
    pub topology: Input,
    pub out: Output<Stdout>,
    pub disks: Disks<StoreFile>,
}

impl Objects {
    /// The objects over the standard streams and the files of the folder. Where there is a reason
    /// why no file may be opened, each that is over a file fails for it.
    pub fn new(rt: &HostRuntime, barred: Option<Trouble>) -> Result<Objects, AllocError>
        ensures { IfOk result (λ objects. length objects.rules.items ≤ 8) }
    {
        let opener = Opener { rt, barred };
        Ok(Objects {
            input: Input::standard(rt.stdin()),
            rules: opener.rules()?,
            topology: opener.source("topology.txt", true)?,
            out: Output::new("standard output", rt.stdout()),
            disks: opener.disks()?,
        })
    }

    /// Why a source first failed.
    fn read_trouble(&self) -> Option<Trouble> {
        let rules = self.rules.iter().find_map(|rule| rule.trouble());
        self.input.trouble().or(rules).or(self.topology.trouble())
    }

    /// Why a disk first failed.
    fn disk_trouble(&self) -> Option<Trouble> {
        let disks = &self.disks;
        let reports = disks.err_a.trouble().or(disks.err_b.trouble());
        let slots = disks.slot_a.trouble().or(disks.slot_b.trouble());
        disks
            .conf
            .trouble()
            .or(reports)
            .or(slots)
            .or(disks.flt.trouble())
    }

    /// Why the call ended so, where one of these objects failed.
    pub fn trouble(&self, status: ToolStatus) -> Option<Trouble> {
        match status {
            ToolStatus::ReadFault => self.read_trouble(),
            ToolStatus::WriteFault => self.out.trouble(),
            ToolStatus::DiskFault => self.disk_trouble(),
            _ => None,
        }
    }
}
