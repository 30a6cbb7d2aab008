// Which rules a module has, in which state it begins, and which entries it takes.
use std::alloc::Global;
use test_words::ScriptFault;

/// A module that takes entries: the texts of its topology and of its rule files, the number of its
/// one configuration or none where the files are a list of them, the bytes of the state in which it
/// begins, if it isn't the first one, and the entries as lines.
#[derive(Drop)]
pub struct Setup {
    pub topology: String,
    pub rules: Vec<String>,
    pub number: Option<u32>,
    pub state: Option<Vec<u8>>,
    pub entries: Vec<String>,
}

impl Setup {
    /// No texts, and no entries.
    pub fn new(alloc: Global) -> Setup {
        Setup {
            topology: String::new(alloc),
            rules: Vec::new(alloc),
            number: None,
            state: None,
            entries: Vec::new(alloc),
        }
    }

    /// The text of the first rule file.
    pub(crate) fn first_rules(&self) -> Result<&str, ScriptFault> {
        match self.rules.first() {
            Some(text) => Ok(text.as_str()),
            None => Err(ScriptFault::Words),
        }
    }

    /// The number of the entry that is taken last.
    pub fn last(&self) -> u64 {
        (self.entries.len() as u64).saturating_sub(1)
    }
}
