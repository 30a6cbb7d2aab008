ghost use Rattle.std.specs.Prelude.{◌≡◌, ◌≤◌, ◌==◌, refl, length, IfOk, IsTrue, Some, nat_eq};
ghost use Rattle.std.specs.Prelude.{if◌then◌else◌};
ghost use Rattle.std.specs.Ordering.{nat_cmp};
ghost use Rattle.std.specs.Cmp.{partial_equiv_from_equiv};
ghost use Rattle.std.specs.Cmp.Lexicographic.{pointwise, slice_cmp, nat_list_eq_equiv};
ghost use Rattle.std.specs.Cmp.Lexicographic.{nat_list_cmp_total, texts_ties, texts_po};
ghost use Rattle.std.specs.Cmp.Rules.{hashing};
ghost use Rattle.std.specs.Hash as fed;
ghost use Rattle.std.proofs.Common.{rules};
ghost use Rattle.fm_name.specs.Class.{is_class};
ghost use Rattle.fm_name.specs.Category.{category_of, category_named, is_ereport};
ghost use Rattle.std.specs.List.{before_first, position};

use crate::grammar::spells_class;
use crate::inline_text::InlineText;
use fm_bytes::{Copies, NoMemory};
use std::alloc::Global;
use std::cmp::Ordering;
use std::fmt;
use std::hash::{Hash, Hasher};
use std::marker::Model;

/// What the first component of a class says of its events.
#[derive(Clone, Copy, Debug, PartialEq, Eq, Drop)]
pub enum Category {
    Ereport,
    Error,
    Fault,
    Defect,
    Upset,
    List,
    Serd,
}

impl Category {
    /// The same category.
    pub fn copy(&self) -> Category
        ensures { result ≡ self.now }
    {
        *self
    }
}

/// A class: two or more components joined by dots. Contracts see its text, as bytes.
#[derive(Debug, Drop)]
pub struct Class {
    text: InlineText,
}

impl Model for Class {
    ghost use Rattle.std.specs.Prelude.{ℕ, List, IsTrue};
    ghost use Rattle.fm_name.specs.Class.{is_class};

    ghost Value = { List ℕ };

    ghost view = { λ c. c.text };

    ghost invariant = { λ c. IsTrue (is_class c.text) };
}

/// Reads a class; None where the text is no class.
pub fn read_class(alloc: Global, text: &str) -> Result<Option<Class>, NoMemory>
    ensures { IfOk result (λ found. found ≡ (if is_class text.now then Some text.now else None)) }
{
    if !spells_class(text.as_bytes()) {
        return Ok(None);
    }
    let text = InlineText::new(alloc, text)?;
    Ok(Some(Class { text }))
}

/// The place of the first dot.
fn first_dot(text: &[u8]) -> Option<usize>
    ensures { result ≡ position (λ b. b == 46) text.now }
{
    text.iter().position(|b| *b == b'.')
}

/// The bytes before the first dot.
fn first_component(text: &[u8]) -> &[u8]
    ensures { result.now ≡ before_first (λ b. b == 46) text.now }
{
    match first_dot(text) {
        Some(at) => &text[..at],
        None => text,
    }
}

/// The category that a first component names.
fn category_named(word: &[u8]) -> Option<Category>
    ensures { result ≡ category_named word.now }
{
    if word == "ereport".as_bytes() {
        Some(Category::Ereport)
    } else if word == "error".as_bytes() {
        Some(Category::Error)
    } else if word == "fault".as_bytes() {
        Some(Category::Fault)
    } else if word == "defect".as_bytes() {
        Some(Category::Defect)
    } else if word == "upset".as_bytes() {
        Some(Category::Upset)
    } else if word == "list".as_bytes() {
        Some(Category::List)
    } else if word == "serd".as_bytes() {
        Some(Category::Serd)
    } else {
        None
    }
}

impl Class {
    /// What the first component names; None where that is no category.
    #[tactic(auto, unfolding(crate::specs::Category::category_of))]
    pub fn category(&self) -> Option<Category>
        ensures { result ≡ category_of self.now }
    {
        category_named(first_component(self.text.as_str().as_bytes()))
    }

    /// Whether the class is of what detectors report: its first component is `ereport`.
    pub fn is_ereport(&self) -> bool
        ensures { result ≡ is_ereport self.now }
    {
        match self.category() {
            Some(Category::Ereport) => {
                // for the proof alone: that the text is a class
                let _ = &self.text;
                true
            }
            _ => false,
        }
    }

    /// The text that was read, of at most 255 bytes.
    #[tactic(auto, unfolding(crate::specs::Class::is_class))]
    pub fn text(&self) -> &str
        ensures same { result.now ≡ self.now }
        ensures class { IsTrue (is_class self.now) }
        ensures short { length self.now ≤ 255 }
    {
        let text = self.text.as_str();
        prove!(text.len() <= 255);
        text
    }

    /// An equal class.
    pub fn copy(&self) -> Result<Class, NoMemory>
        ensures { IfOk result (λ class. class ≡ self.now) }
    {
        let text = self.text.copy()?;
        Ok(Class { text })
    }
}

impl Copies for Class {
    fn copy(&self, _alloc: Global) -> Result<Class, NoMemory> {
        self.copy()
    }
}

impl PartialEq for Class {
    ghost eq = { pointwise nat_eq };

    ghost laws = { partial_equiv_from_equiv nat_list_eq_equiv };

    fn eq(&self, other: &Class) -> bool {
        self.text.as_str() == other.text.as_str()
    }
}

impl Eq for Class {
    ghost laws = { nat_list_eq_equiv };
}

impl PartialOrd for Class {
    ghost partial_cmp = { λ x y. Some (slice_cmp nat_cmp x y) };

    ghost laws = { texts_po };

    fn partial_cmp(&self, other: &Class) -> Option<Ordering> {
        Some(self.cmp(other))
    }
}

impl Ord for Class {
    ghost cmp = { slice_cmp nat_cmp };

    ghost total = { nat_list_cmp_total };

    ghost matches_partial_cmp = { λ x y. refl };

    ghost matches_eq = { texts_ties };

    fn cmp(&self, other: &Class) -> Ordering {
        self.text.as_str().cmp(other.text.as_str())
    }
}

impl Hash for Class {
    ghost hash_input = { fed.str };

    ghost respects_eq = { Prim.search (hashing, rules) };

    fn hash<H: Hasher>(&self, state: &mut H) {
        self.text.as_str().hash(state);
    }
}

impl fmt::Display for Class {
    ghost output = { λ class. Some class };

    fn fmt<W: fmt::Write>(&self, f: &mut fmt::Formatter<W>) -> fmt::Result {
        f.write_str(self.text.as_str())
    }
}
