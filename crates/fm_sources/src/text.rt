//! The text of a source.

ghost use Rattle.std.specs.Prelude.{◌≤◌, ◌^◌, IfOk, IfErr};
ghost use Rattle.fm_sources.specs.Texts.{GaveText, TextCause};

use crate::faults::TextFault;
use fm_outer::Source;
use std::alloc::Global;

/// The most bytes that are asked of a source at once.
const PIECE_LEN: usize = 4096;

/// Reads a source to its end, or until it gave more bytes than the limit.
#[tactic(auto, using(crate::proofs::Texts::reading))]
pub fn read_text<S: Source>(
    alloc: Global,
    source: &mut S,
    limit: usize,
) -> Result<Vec<u8>, TextFault>
    requires { limit ≤ 2 ^ 32 }
    ensures gave { IfOk result
        (λ text. GaveText S.Source limit source.old source.new text.items) }
    ensures cause { IfErr result (TextCause S.Source source.old source.new) }
{
    let mut piece = [0; PIECE_LEN];
    let mut text = Vec::new(alloc);
    'pieces: while text.len() <= limit {
        let Ok(count) = source.next(&mut piece) else {
            return Err(TextFault::Read);
        };
        if count == 0 {
            return Ok(text);
        }
        text.extend_from_slice(&piece[..count])?;
    }
    Ok(text)
}
