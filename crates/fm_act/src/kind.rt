//! Kinds of actuators.

ghost use Rattle.std.specs.Prelude.{◌≡◌, ◌==◌, IfOk, IsTrue, Some, None, if◌then◌else◌};
ghost use Rattle.std.specs.List.{slice_split, list_all};
ghost use Rattle.fm_name.specs.Class.{is_piece, is_component};

use fm_bytes::{NoMemory, Text};
use std::alloc::Global;
use std::marker::Model;

/// The last name of the paths that an actuator is for: a component. Contracts see its text.
#[derive(Debug, Drop)]
pub struct ActKind {
    text: Text,
}

impl Model for ActKind {
    ghost use Rattle.std.specs.Prelude.{ℕ, List, IsTrue};
    ghost use Rattle.fm_name.specs.Class.{is_component};

    ghost Value = { List ℕ };

    ghost view = { λ k. k.text };

    ghost invariant = { λ k. IsTrue (is_component k.text) };
}

/// Whether the bytes are pieces joined by single hyphens, in one pass. A piece is one or more
/// letters, digits or `_`.
#[tactic(auto, using(fm_name::proofs::Scanning::pieces_start))]
fn joins_pieces(bytes: &[u8]) -> bool
    ensures { result ≡ list_all is_piece (slice_split (λ b. b == 45) bytes.now) }
{
    let mut begun = false;
    'bytes: for byte in bytes {
        if byte.is_ascii_alphanumeric() || *byte == b'_' {
            begun = true;
        } else {
            if !begun || *byte != b'-' {
                return false;
            }
            begun = false;
        }
    }
    begun
}

/// Whether the text is a component.
#[tactic(auto, unfolding(fm_name::specs::Class::is_component))]
fn is_component(text: &str) -> bool
    ensures { result ≡ is_component text.now }
{
    text.len() <= 32 && joins_pieces(text.as_bytes())
}

impl ActKind {
    /// Reads a kind; None where the text is no component.
    pub fn read(alloc: Global, text: &str) -> Result<Option<ActKind>, NoMemory>
        ensures { IfOk result
            (λ found. found ≡ (if is_component text.now then Some text.now else None)) }
    {
        if !is_component(text) {
            return Ok(None);
        }
        let text = Text::new(alloc, text)?;
        Ok(Some(ActKind { text }))
    }

    /// The text.
    pub fn text(&self) -> &str
        ensures same { result.now ≡ self.now }
        ensures component { IsTrue (is_component self.now) }
    {
        self.text.get()
    }
}
