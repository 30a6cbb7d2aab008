// An error journal of reports, as bytes.
use std::alloc::{AllocError, Global};

/// Appends the record of the report with this number: one of 20 classes at one of 200 paths.
fn put_report(alloc: Global, number: u32, out: &mut Vec<u8>) -> Result<(), AllocError> {
    let class = number % 20;
    let path = number % 200;
    let class = format!(in alloc; "ereport.cpu.c{class}")?;
    let path = format!(in alloc; "hc:///chassis=0/cpu={path}")?;
    let length = class.len().saturating_add(path.len()).saturating_add(15);
    let length = u32::try_from(length).map_err(|_| AllocError)?;
    out.push(1)?;
    out.extend_from_slice(&length.to_be_bytes())?;
    out.push(1)?;
    put_text(&class, out)?;
    put_text(&path, out)?;
    out.extend_from_slice(&u64::from(number).to_be_bytes())?;
    out.extend_from_slice(b"\0\0")?;
    Ok(())
}

/// Appends a text behind its length in two bytes.
fn put_text(text: &str, out: &mut Vec<u8>) -> Result<(), AllocError> {
    let length = u16::try_from(text.len()).map_err(|_| AllocError)?;
    out.extend_from_slice(&length.to_be_bytes())?;
    out.extend_from_slice(text.as_bytes())?;
    Ok(())
}

/// A journal of so many reports, numbered from 0 on.
pub fn journal(alloc: Global, count: u32) -> Result<Vec<u8>, AllocError> {
    let mut bytes = b"FMAJRNL1\0\0\0\0\0\0\0\0".to_vec(alloc)?;
    for number in 0..count {
        put_report(alloc, number, &mut bytes)?;
    }
    bytes.push(0)?;
    Ok(bytes)
}
