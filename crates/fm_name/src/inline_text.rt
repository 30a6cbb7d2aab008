//! A text that takes no memory where it is short.

ghost use Rattle.std.specs.Prelude.{◌≡◌, IfOk};

use arrayvec::ArrayString;
use fm_bytes::NoMemory;
use std::alloc::Global;
use std::fmt;
use std::marker::Model;

/// Where a text stands: in the value itself up to 24 bytes, and else in a block of its own.
#[derive(Drop)]
enum Place {
    Short(ArrayString<24>),
    Long(String),
}

/// A text, which contracts see as its bytes.
#[derive(Drop)]
pub(crate) struct InlineText {
    place: Place,
}

impl Model for InlineText {
    ghost use Rattle.std.specs.Prelude.{ℕ, List};
    ghost use Rattle.fm_name.specs.InlineText.{placed_bytes};

    ghost Value = { List ℕ };

    ghost view = { λ t. placed_bytes t.place };
}

impl InlineText {
    /// The same text, kept.
    pub(crate) fn new(alloc: Global, text: &str) -> Result<InlineText, NoMemory>
        ensures { IfOk result (λ kept. kept ≡ text.now) }
    {
        let place = match ArrayString::from(text) {
            Ok(short) => Place::Short(short),
            Err(_) => Place::Long(String::from_str(alloc, text)?),
        };
        Ok(InlineText { place })
    }

    /// The text.
    pub(crate) fn as_str(&self) -> &str
        ensures { result.now ≡ self.now }
    {
        match &self.place {
            Place::Short(short) => short.as_str(),
            Place::Long(long) => long.as_str(),
        }
    }

    /// An equal text.
    pub(crate) fn copy(&self) -> Result<InlineText, NoMemory>
        ensures { IfOk result (λ text. text ≡ self.now) }
    {
        let place = match &self.place {
            Place::Short(short) => Place::Short(*short),
            Place::Long(long) => Place::Long(long.clone()?),
        };
        Ok(InlineText { place })
    }
}

/// As the text itself shows.
impl fmt::Debug for InlineText {
    fn fmt<W: fmt::Write>(&self, f: &mut fmt::Formatter<W>) -> fmt::Result {
        fmt::Debug::fmt(&self.as_str(), f)
    }
}
