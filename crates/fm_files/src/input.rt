// Where the program's bytes come from.
ghost use Rattle.std.specs.Prelude.{ℕ, List, None};
ghost use Rattle.std.specs.declared.option.Option.{Option};
ghost use Rattle.std.specs.Io.{ReadsAtMost};

use crate::failures::Failures;
use crate::trouble::Trouble;
use fm_outer::{Failed, Source};
use std::fs::File;
use std::io::{ErrorKind, Read, Stdin};
use std::{fs, io};

/// A file that was not opened yet.
#[derive(Drop)]
struct Unopened {
    rt: HostRuntime,
    name: &'static str,
    // whether a missing file is an empty one
    may_miss: bool,
}

/// What is read.
#[derive(Drop)]
enum From {
    Standard(Stdin),
    Unopened(Unopened),
    File(File),
    Nothing,
    Broken(io::Error),
}

impl Unopened {
    /// Opens it.
    fn open(&self) -> From {
        match fs::open(&self.rt, self.name) {
            Ok(file) => From::File(file),
            Err(fault) if self.may_miss && fault.kind() == ErrorKind::NotFound => From::Nothing,
            Err(fault) => From::Broken(fault),
        }
    }
}

impl From {
    /// Opens it where it was not opened yet.
    fn open(&mut self) {
        if let From::Unopened(unopened) = self {
            let opened = unopened.open();
            *self = opened;
        }
    }

    /// Reads what is open.
    fn read(&mut self, buf: &mut [u8]) -> io::Result<usize>
        ensures { ReadsAtMost result buf.new }
    {
        match self {
            From::Standard(stdin) => stdin.read(buf),
            From::File(file) => file.read(buf),
            From::Nothing => Ok(0),
            From::Unopened(_) => Err(io::Error::from(ErrorKind::NotFound)),
            From::Broken(fault) => Err(*fault),
        }
    }
}

/// A source: standard input, a file, or one of which every call fails. A file is opened at the
/// first call.
#[derive(Drop)]
pub struct Input {
    name: &'static str,
    from: From,
    failures: Failures,
}

impl Input {
    /// Standard input.
    pub fn standard(stdin: Stdin) -> Input {
        Input {
            name: "standard input",
            from: From::Standard(stdin),
            failures: Failures::new(),
        }
    }

    /// The file of that name. Where it is missing it is an empty one, or else a failure.
    pub fn file(rt: HostRuntime, name: &'static str, may_miss: bool) -> Input {
        Input {
            name,
            from: From::Unopened(Unopened { rt, name, may_miss }),
            failures: Failures::new(),
        }
    }

    /// A source of which every call fails, for this reason.
    pub fn broken(trouble: Trouble) -> Input {
        Input {
            name: trouble.name,
            from: From::Broken(trouble.fault),
            failures: Failures::new(),
        }
    }

    /// Why it first failed, if it did.
    pub fn trouble(&self) -> Option<Trouble> {
        self.failures.first()
    }
}

impl Source for Input {
    ghost left = { λ _. None };

    ghost failures = { λ s. s.failures.count };

    fn next(&mut self, buf: &mut [u8]) -> Result<usize, Failed> {
        self.from.open();
        match self.from.read(buf) {
            Ok(count) => self.failures.told(Ok(count)),
            Err(fault) => self.failures.told(Err(Trouble {
                name: self.name,
                fault,
            })),
        }
    }
}
