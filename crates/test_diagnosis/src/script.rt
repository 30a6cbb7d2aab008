// What stays from line to line of a script, and what its lines do.
use crate::fields::{Fields, spell};
use crate::rows::{show_row, show_rows};
use crate::steps::{begin, repeat, show_kept, show_load, take};
use std::alloc::{AllocError, Global};
use test_text_modules::{Setup, run};
use test_words::{Named, Script, ScriptFault, first_word, show_difference, small_in};

/// A piece of the text of a rule file.
#[derive(Drop)]
struct RulePiece {
    name: String,
    text: String,
}

/// What stays from line to line: the pieces of rule files, the bytes that have names, the fields of
/// a lawful state, and the module.
#[derive(Drop)]
pub struct Held {
    pieces: Vec<RulePiece>,
    named: Named,
    lawful: String,
    setup: Setup,
}

/// The text whose lines are the words.
fn lines_of(alloc: Global, words: &str) -> Result<String, AllocError> {
    let mut text = String::new(alloc);
    for word in words.split_whitespace() {
        write!(text, "{word}\n")?;
    }
    Ok(text)
}

/// The number of a configuration that a word says; 0 where there is none.
fn configuration_in(word: &str) -> Result<u32, ScriptFault> {
    if word.is_empty() {
        return Ok(0);
    }
    small_in(word)
}

impl Held {
    /// No rule file, and no bytes have a name.
    pub fn new(alloc: Global) -> Held {
        Held {
            pieces: Vec::new(alloc),
            named: Named::new(alloc),
            lawful: String::new(alloc),
            setup: Setup::new(alloc),
        }
    }

    /// The text of a rule file: its pieces, each on a line of its own.
    fn text_of(&self, alloc: Global, name: &str) -> Result<String, AllocError> {
        let mut text = String::new(alloc);
        for piece in self.pieces.as_slice() {
            if piece.name.as_str() == name {
                let more = piece.text.as_str();
                write!(text, "{more}\n")?;
            }
        }
        Ok(text)
    }

    /// The texts of the rule files of these names.
    fn texts_of(&self, alloc: Global, names: &str) -> Result<Vec<String>, ScriptFault> {
        let mut texts = Vec::new(alloc);
        for name in names.split_whitespace() {
            texts.push(self.text_of(alloc, name)?)?;
        }
        Ok(texts)
    }

    /// Puts a piece behind the text of a rule file.
    fn add(&mut self, alloc: Global, name: &str, text: &str) -> Result<(), ScriptFault> {
        let name = String::from_str(alloc, name)?;
        let text = String::from_str(alloc, text)?;
        self.pieces.push(RulePiece { name, text })?;
        Ok(())
    }

    /// Puts what another rule file has, and one more piece, behind the text of one.
    fn add_like(&mut self, alloc: Global, name: &str, rest: &str) -> Result<(), ScriptFault> {
        let (other, text) = first_word(rest);
        let before = self.text_of(alloc, other)?;
        self.add(alloc, name, before.as_str())?;
        self.add(alloc, name, text)
    }

    /// The module has this one rule file, as its configuration of a number.
    fn single(&mut self, alloc: Global, rest: &str, out: &mut String) -> Result<(), ScriptFault> {
        let (name, number) = first_word(rest);
        self.setup.number = Some(configuration_in(number)?);
        self.setup.rules = self.texts_of(alloc, name)?;
        begin(alloc, &mut self.setup, None, out)
    }

    /// The module has these rule files as the list of its configurations.
    fn listed(&mut self, alloc: Global, names: &str, out: &mut String) -> Result<(), ScriptFault> {
        self.setup.number = None;
        self.setup.rules = self.texts_of(alloc, names)?;
        begin(alloc, &mut self.setup, None, out)
    }

    /// Whether the state loads that has these fields in place of those of the lawful one.
    fn load_but(&self, alloc: Global, changed: &str, out: &mut String) -> Result<(), ScriptFault> {
        let fields = Fields {
            changed,
            lawful: self.lawful.as_str(),
        };
        let bytes = spell(alloc, &fields)?;
        show_load(alloc, &self.setup, &bytes, out)
    }

    /// Whether the module's state is saved as these bytes.
    fn show_saved(&self, alloc: Global, words: &str, out: &mut String) -> Result<(), ScriptFault> {
        let wanted = self.named.bytes_in(alloc, words)?;
        let ended = run(alloc, &self.setup, self.setup.last())?;
        show_difference(&ended.state, &wanted, out)
    }

    /// Answers a line that leaves all as it was.
    fn ask(
        &self,
        alloc: Global,
        word: &str,
        rest: &str,
        out: &mut String,
    ) -> Result<(), ScriptFault> {
        match word {
            "rows" => show_rows(alloc, &self.setup, out),
            "row" => show_row(alloc, &self.setup, rest, out),
            "kept" => show_kept(alloc, &self.setup, out),
            "saves" => self.show_saved(alloc, rest, out),
            "but" => self.load_but(alloc, rest, out),
            _ => show_load(alloc, &self.setup, &self.named.bytes_in(alloc, rest)?, out),
        }
    }

    /// Answers a line that changes the module, or the fields of a lawful state.
    fn change(
        &mut self,
        alloc: Global,
        word: &str,
        rest: &str,
        out: &mut String,
    ) -> Result<(), ScriptFault> {
        match word {
            "module" => self.single(alloc, rest, out),
            "modules" => self.listed(alloc, rest, out),
            "state" => {
                let bytes = self.named.bytes_in(alloc, rest)?;
                begin(alloc, &mut self.setup, Some(bytes), out)
            }
            "lawful" => {
                self.lawful = String::from_str(alloc, rest)?;
                self.load_but(alloc, "", out)
            }
            _ => repeat(alloc, &mut self.setup, rest, out),
        }
    }
}

impl Script for Held {
    fn set(&mut self, alloc: Global, word: &str, rest: &str) -> Result<bool, ScriptFault> {
        let (name, behind) = first_word(rest);
        match word {
            "topology" => self.setup.topology = lines_of(alloc, rest)?,
            "rules" => self.add(alloc, name, behind)?,
            "like" => self.add_like(alloc, name, behind)?,
            _ => return Ok(false),
        }
        Ok(true)
    }

    fn answer(
        &mut self,
        rt: &HostRuntime,
        line: &str,
        out: &mut String,
    ) -> Result<(), ScriptFault> {
        let alloc = rt.alloc();
        let (word, rest) = first_word(line);
        match word {
            "bytes" => {
                self.named.define(alloc, rest)?;
                Ok(out.push_str("ok")?)
            }
            "rows" | "row" | "kept" | "saves" | "loads" | "but" => {
                self.ask(alloc, word, rest, out)
            }
            "module" | "modules" | "state" | "lawful" | "repeat" => {
                self.change(alloc, word, rest, out)
            }
            _ => take(alloc, &mut self.setup, line, out),
        }
    }
}
