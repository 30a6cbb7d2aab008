//! Compiled files from the input to their listing.

ghost use Rattle.std.specs.Prelude.{◌≤◌, ◌^◌, length, IfOk, IfErr};
ghost use Rattle.fm_sources.specs.Texts.{GaveText};
ghost use Rattle.fm_esc.specs.InputListing.{InputCause, IsListed};

use crate::faults::InputFault;
use ev_listing::put_files;
use fm_outer::Source;
use std::alloc::Global;

/// The most bytes that are asked of the input at once.
const PIECE_LEN: usize = 4096;

/// The most bytes of compiled files that are taken.
const INPUT_LIMIT: usize = 1 << 40;

/// The listing of compiled files: a line for each that is good, up to the first bad one, and the
/// place of that one's first byte.
#[derive(Drop)]
pub struct InputListing {
    pub text: Vec<u8>,
    pub bad: Option<u64>,
}

/// Reads the input to its end, or until it gave more than 2^40 bytes.
#[tactic(auto, using(fm_sources::proofs::Texts::reading))]
fn read_whole<S: Source>(alloc: Global, input: &mut S) -> Result<Vec<u8>, InputFault>
    ensures gave { IfOk result (λ bytes. GaveText S.Source (2 ^ 40) input.old input.new bytes.items
        × (length bytes.items ≤ 2 ^ 40)) }
    ensures cause { IfErr result (InputCause S.Source input.old input.new) }
{
    let mut piece = [0; PIECE_LEN];
    let mut bytes = Vec::new(alloc);
    'pieces: while bytes.len() <= INPUT_LIMIT {
        let Ok(count) = input.next(&mut piece) else {
            return Err(InputFault::Read);
        };
        if count == 0 {
            return Ok(bytes);
        }
        bytes.extend_from_slice(&piece[..count])?;
    }
    Err(InputFault::Full)
}

/// Reads the input to its end, and lists the compiled files in it up to the first bad one.
pub fn list_input<S: Source>(alloc: Global, input: &mut S) -> Result<InputListing, InputFault>
    ensures listed { IfOk result (λ l. IsListed S.Source input.old input.new l.text.items l.bad) }
    ensures refused { IfErr result (InputCause S.Source input.old input.new) }
{
    let bytes = read_whole(alloc, input)?;
    let mut text = Vec::new(alloc);
    match put_files(alloc, bytes.as_slice(), &mut text)? {
        None => Ok(InputListing { text, bad: None }),
        Some(place) => Ok(InputListing {
            text,
            bad: Some(place as u64),
        }),
    }
}
