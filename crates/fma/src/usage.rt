// What is told where the words are no command.

use std::alloc::{AllocError, Global};

/// A command: its words, and what it does.
#[derive(Clone, Copy)]
struct CommandHelp {
    words: &'static str,
    does: &'static str,
}

/// The commands that are built.
const COMMANDS: [CommandHelp; 17] = [
    CommandHelp {
        words: "init NAMESPACE",
        does: "makes a store of dx0.esc and on, and of topology.txt; NAMESPACE is a UUID",
    },
    CommandHelp {
        words: "accept",
        does: "keeps each report of standard input in the folder store, and answers it",
    },
    CommandHelp {
        words: "fmd -1",
        does: "as accept, then diagnoses, takes what is faulty out of use, and sums up",
    },
    CommandHelp {
        words: "fmadm faulty",
        does: "tells which cases are solved and not yet repaired, with their suspects",
    },
    CommandHelp {
        words: "fmadm config",
        does: "tells the store's namespace, and what its rule files come to",
    },
    CommandHelp {
        words: "fmadm repaired PATH",
        does: "keeps that the resource at PATH was repaired, and takes it back into use",
    },
    CommandHelp {
        words: "fmadm replaced PATH",
        does: "keeps that what is at PATH and below was replaced, and takes it back into use",
    },
    CommandHelp {
        words: "fmadm acquit UUID",
        does: "keeps that the suspects of the case UUID are acquitted",
    },
    CommandHelp {
        words: "fmadm rotate",
        does: "goes on in a new error journal of the store, and tells the number of its entries",
    },
    CommandHelp {
        words: "fmdump [-e] [-V] [-c PATTERN] [-u UUID] [-t TIME] [-T TIME]",
        does: "tells what was said of cases, or with -e the entries since the last rotation",
    },
    CommandHelp {
        words: "explain UUID",
        does: "tells of the case UUID which events each of its suspects accounts for",
    },
    CommandHelp {
        words: "gen N",
        does: "makes 1,200 reports and a tick of the number N, and does with them as fmd -1",
    },
    CommandHelp {
        words: "gen -l N",
        does: "writes the lines of these, and keeps nothing",
    },
    CommandHelp {
        words: "replay",
        does: "counts the reports of standard input by class, and keeps nothing",
    },
    CommandHelp {
        words: "esc",
        does: "lists what dx0.esc and on come to over topology.txt",
    },
    CommandHelp {
        words: "esc -b",
        does: "writes what they come to as compiled files, one after another",
    },
    CommandHelp {
        words: "esc -l",
        does: "lists the compiled files of standard input",
    },
];

/// The commands, one a line with its words and what it does, and where the manual is.
pub fn usage_text(alloc: Global) -> Result<String, AllocError> {
    let mut text = String::new(alloc);
    text.push_str("fma: no command of these words. The commands:\n")?;
    for CommandHelp { words, does } in COMMANDS {
        let line = format!(in alloc; "  {words}  {does}\n")?;
        text.push_str(line.as_str())?;
    }
    text.push_str("The manual is README.md and docs/FORMATS.md, beside the program's source.\n")?;
    Ok(text)
}
