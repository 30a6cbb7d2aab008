ghost use Rattle.std.specs.Prelude.{◌≡◌, ◌==◌, nat_le, length};
ghost use Rattle.std.specs.List.{slice_split, list_all};
ghost use Rattle.fm_name.specs.Class.{is_piece_byte, is_piece, components_of, is_component};
ghost use Rattle.fm_name.specs.Class.{are_components, starts_with_letter, is_class};

/// Whether a byte may stand in a piece.
pub fn is_in_piece(byte: u8) -> bool
    ensures { result ≡ is_piece_byte byte }
{
    byte.is_ascii_alphanumeric() || byte == b'_'
}

/// Whether the first byte is a letter.
pub fn begins_with_letter(bytes: &[u8]) -> bool
    ensures { result ≡ starts_with_letter bytes.now }
{
    match bytes {
        [] => false,
        [first, ..] => first.is_ascii_alphabetic(),
    }
}

/// Whether the bytes are one or more components joined by dots, in one pass. Most bytes are
/// letters, so these are tried first.
#[tactic(auto, using(crate::proofs::Scanning::scan_start))]
pub fn joins_components(bytes: &[u8]) -> bool
    ensures { result ≡ are_components bytes.now }
{
    let mut size: u32 = 0;
    let mut begun = false;
    for byte in bytes {
        if byte.is_ascii_alphabetic() || is_in_piece(*byte) {
            if size == 32 {
                return false;
            }
            size += 1;
            begun = true;
        } else {
            if !begun {
                return false;
            }
            begun = false;
            if *byte == b'.' {
                size = 0;
            } else {
                if *byte != b'-' || size == 32 {
                    return false;
                }
                size += 1;
            }
        }
    }
    begun
}

/// Whether a dot stands in the bytes.
fn has_dot(bytes: &[u8]) -> bool
    ensures { result ≡ nat_le 2 (length (components_of bytes.now)) }
{
    bytes.contains(&b'.')
}

/// Whether the bytes are a class.
#[tactic(auto, unfolding(crate::specs::Class::is_class))]
pub fn spells_class(bytes: &[u8]) -> bool
    ensures { result ≡ is_class bytes.now }
{
    bytes.len() <= 255 && (begins_with_letter(bytes) && (has_dot(bytes) && joins_components(bytes)))
}

/// Whether the bytes are pieces joined by single hyphens, in one pass.
#[tactic(auto, using(crate::proofs::Scanning::pieces_start))]
fn joins_pieces(bytes: &[u8]) -> bool
    ensures { result ≡ list_all is_piece (slice_split (λ b. b == 45) bytes.now) }
{
    let mut begun = false;
    for byte in bytes {
        if is_in_piece(*byte) {
            begun = true;
        } else {
            if !begun || *byte != b'-' {
                return false;
            }
            begun = false;
        }
    }
    begun
}

/// Whether the bytes are one component.
#[tactic(auto, unfolding(crate::specs::Class::is_component))]
pub fn spells_component(bytes: &[u8]) -> bool
    ensures { result ≡ is_component bytes.now }
{
    bytes.len() <= 32 && joins_pieces(bytes)
}
