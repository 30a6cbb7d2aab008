// Numbers and texts in bytes, by their places; `None` where they end outside.

/// The bytes from a place to another.
pub fn piece(bytes: &[u8], from: usize, to: usize) -> &[u8] {
    match bytes.get(from..to) {
        Some(piece) => piece,
        None => b"",
    }
}

/// Whether these bytes stand at a place.
pub fn stands_at(bytes: &[u8], at: usize, wanted: &[u8]) -> bool {
    piece(bytes, at, at.saturating_add(wanted.len())) == wanted
}

/// The number that the bytes spell, whose first byte counts most.
fn number_of(bytes: &[u8]) -> u64 {
    let mut number = 0u64;
    for byte in bytes {
        number = number.wrapping_mul(256).wrapping_add(u64::from(*byte));
    }
    number
}

/// The number of so many bytes at a place.
pub fn spelled_at(bytes: &[u8], at: usize, width: usize) -> Option<u64> {
    Some(number_of(bytes.get(at..at.saturating_add(width))?))
}

/// The place behind so many bytes.
pub fn behind(bytes: &[u8], at: usize, count: u64) -> Option<usize> {
    let end = at.saturating_add(count as usize);
    if end <= bytes.len() { Some(end) } else { None }
}

/// The place behind the text at a place, whose length has so many bytes.
pub fn behind_text(bytes: &[u8], at: usize, width: usize) -> Option<usize> {
    let length = spelled_at(bytes, at, width)?;
    behind(bytes, at.saturating_add(width), length)
}

/// The place behind so many long texts.
pub fn behind_texts(bytes: &[u8], at: usize, count: u64) -> Option<usize> {
    let mut end = at;
    for _ in 0..count {
        end = behind_text(bytes, end, 4)?;
    }
    Some(end)
}
