//! Texts of any length.

ghost use Rattle.std.specs.Prelude.{◌≡◌, IfOk, IsTrue};
ghost use Rattle.std.specs.Str.{is_utf8};

use crate::copies::Copies;
use crate::no_memory::NoMemory;
use std::alloc::Global;
use std::marker::Model;

/// A text, which contracts see as its bytes.
#[derive(Debug, Drop)]
pub struct Text {
    text: String,
}

impl Model for Text {
    ghost use Rattle.std.specs.Prelude.{ℕ, List, IsTrue, string_bytes};
    ghost use Rattle.std.specs.Str.{is_utf8};

    ghost Value = { List ℕ };

    ghost view = { λ t. string_bytes t.text };

    ghost invariant = { λ t. IsTrue (is_utf8 (string_bytes t.text)) };
}

impl Text {
    /// The text with these bytes, copied.
    pub fn new(alloc: Global, text: &str) -> Result<Text, NoMemory>
        ensures { IfOk result (λ t. t ≡ text.now) }
    {
        let text = String::from_str(alloc, text)?;
        Ok(Text { text })
    }

    /// What was put in.
    pub fn get(&self) -> &str
        ensures bytes { result.now ≡ self.now }
        ensures utf8 { IsTrue (is_utf8 self.now) }
    {
        self.text.as_str()
    }
}

impl Copies for Text {
    fn copy(&self, alloc: Global) -> Result<Text, NoMemory> {
        Text::new(alloc, self.get())
    }
}
