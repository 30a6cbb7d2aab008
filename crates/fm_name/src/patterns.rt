ghost use Rattle.std.specs.Prelude.{◌≡◌, ◌&&◌, IfOk, IsTrue, Some, nat_lt, nat_eq, length};
ghost use Rattle.std.specs.Prelude.{if◌then◌else◌};
ghost use Rattle.std.specs.List.{starts_with};
ghost use Rattle.fm_name.specs.Pattern.{is_prefix_pattern, is_pattern, prefix_matches};
ghost use Rattle.fm_name.specs.Pattern.{pattern_matches};

use crate::classes::Class;
use crate::grammar::{joins_components, spells_class};
use fm_bytes::{Copies, NoMemory};
use std::alloc::Global;
use std::fmt;
use std::marker::Model;

/// A pattern of classes: `*`, a class, or components and then `.*`. Contracts see its text, as
/// bytes.
#[derive(Debug, Drop)]
pub struct Pattern {
    text: String,
}

impl Model for Pattern {
    ghost use Rattle.std.specs.Prelude.{ℕ, List, IsTrue, string_bytes};
    ghost use Rattle.fm_name.specs.Pattern.{is_pattern};

    ghost Value = { List ℕ };

    ghost view = { λ p. string_bytes p.text };

    ghost invariant = { λ p. IsTrue (is_pattern (string_bytes p.text)) };
}

/// Whether the bytes are components and then `.*`.
#[tactic(auto, unfolding(crate::specs::Pattern::is_prefix_pattern))]
fn spells_prefix(bytes: &[u8]) -> bool
    ensures { result ≡ is_prefix_pattern bytes.now }
{
    bytes.ends_with(".*".as_bytes()) && joins_components(&bytes[..bytes.len() - 2])
}

/// Whether the bytes are a pattern.
#[tactic(auto, unfolding(crate::specs::Pattern::is_pattern))]
fn spells_pattern(bytes: &[u8]) -> bool
    ensures { result ≡ is_pattern bytes.now }
{
    bytes == "*".as_bytes() || spells_class(bytes) || spells_prefix(bytes)
}

/// Reads a pattern; None where the text is no pattern.
pub fn read_pattern(alloc: Global, text: &str) -> Result<Option<Pattern>, NoMemory>
    ensures { IfOk result (λ found. found ≡ (if is_pattern text.now then Some text.now else None)) }
{
    if !spells_pattern(text.as_bytes()) {
        return Ok(None);
    }
    let text = String::from_str(alloc, text)?;
    Ok(Some(Pattern { text }))
}

/// Whether the class begins with the prefix and is longer.
fn goes_on(class: &[u8], prefix: &[u8]) -> bool
    ensures { result ≡ (nat_lt (length prefix.now) (length class.now)
        && starts_with nat_eq class.now prefix.now) }
{
    prefix.len() < class.len() && class.starts_with(prefix)
}

/// Whether the pattern is `X.*` and the class goes on after `X.`.
#[tactic(auto, unfolding(crate::specs::Pattern::prefix_matches))]
fn begins_class(pattern: &[u8], class: &[u8]) -> bool
    ensures { result ≡ prefix_matches pattern.now class.now }
{
    pattern.ends_with(".*".as_bytes()) && goes_on(class, &pattern[..pattern.len() - 1])
}

impl Pattern {
    /// Whether a class is one of those that the pattern stands for. Takes no memory.
    #[tactic(auto, unfolding(crate::specs::Pattern::pattern_matches))]
    pub fn matches(&self, class: &Class) -> bool
        ensures { result ≡ pattern_matches self.now class.now }
    {
        let pattern = self.text.as_bytes();
        let class = class.text().as_bytes();
        pattern == "*".as_bytes() || begins_class(pattern, class) || pattern == class
    }

    /// The text that was read.
    pub fn text(&self) -> &str
        ensures same { result.now ≡ self.now }
        ensures pattern { IsTrue (is_pattern self.now) }
    {
        self.text.as_str()
    }

    /// An equal pattern.
    pub fn copy(&self) -> Result<Pattern, NoMemory>
        ensures { IfOk result (λ pattern. pattern ≡ self.now) }
    {
        let text = self.text.clone()?;
        Ok(Pattern { text })
    }
}

impl Copies for Pattern {
    fn copy(&self, _alloc: Global) -> Result<Pattern, NoMemory> {
        self.copy()
    }
}

impl fmt::Display for Pattern {
    ghost output = { λ pattern. Some pattern };

    fn fmt<W: fmt::Write>(&self, f: &mut fmt::Formatter<W>) -> fmt::Result {
        f.write_str(self.text.as_str())
    }
}
