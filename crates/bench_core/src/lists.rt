// A list of numbers, written and read.
use fm_nv::{read_nv, write_nv};
use std::alloc::{AllocError, Global};

/// The spelling of a list of so many unsigned numbers under the names `n00000`, `n00001` and so on.
fn spelled(alloc: Global, count: u16) -> Result<Vec<u8>, AllocError> {
    let mut bytes = Vec::new(alloc);
    bytes.extend_from_slice(&count.to_be_bytes())?;
    for number in 0..count {
        let name = format!(in alloc; "n{number:05}")?;
        bytes.push(6)?;
        bytes.extend_from_slice(name.as_bytes())?;
        bytes.push(2)?;
        bytes.extend_from_slice(&u64::from(number).to_be_bytes())?;
    }
    Ok(bytes)
}

/// Reads a list of so many pairs and writes it again: whether the bytes are the same.
pub fn read_and_write(alloc: Global, count: u16) -> Result<bool, AllocError> {
    let bytes = spelled(alloc, count)?;
    let Ok(Some((list, _))) = read_nv(alloc, bytes.as_slice()) else {
        return Ok(false);
    };
    let mut written = Vec::new(alloc);
    if write_nv(&list, &mut written).is_err() {
        return Err(AllocError);
    }
    Ok(written == bytes)
}
