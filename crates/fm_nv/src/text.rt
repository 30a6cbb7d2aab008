//! A text of a list.

use fm_bytes::Text;

/// A text, which contracts see as its bytes.
pub type NvText = Text;
