ghost use Rattle.std.specs.Prelude.{◌≡◌, ◌==◌, ◌&&◌, ◌||◌, ◌<◌, ◌≤◌, ◌∷◌, IsTrue, IfSome, IfNone};
ghost use Rattle.std.specs.Prelude.{false, slice_index, length, take, option_map};
ghost use Rattle.std.specs.List.{list_all, position_or_len, before_first, after_first};
ghost use Rattle.fm_topo.specs.Fault.{parent_of};
ghost use Rattle.fm_topo.specs.Line.{content_of, is_clean_byte, is_blank_byte, is_skipped};
ghost use Rattle.fm_topo.specs.Line.{parted_words, path_of, words_of};
ghost use Rattle.fm_topo.specs.Word.{word_end, words_left};

/// Where a byte stands first, or the length where it does not stand.
pub fn find_byte(text: &[u8], byte: u8) -> usize
    ensures same { result ≡ position_or_len (λ b. b == byte) text.now }
    ensures bound { result ≤ length text.now }
{
    for (at, other) in text.iter().enumerate() {
        if *other == byte {
            return at;
        }
    }
    text.len()
}

/// What stands before a byte and behind it, where it stands.
pub fn cut_at(text: &[u8], byte: u8) -> Option<(&[u8], &[u8])>
    requires { IsTrue (list_all is_clean_byte text.now) }
    ensures none { IfNone result (position_or_len (λ b. b == byte) text.now ≡ length text.now) }
    ensures some { IfSome result
        (λ parts. (position_or_len (λ b. b == byte) text.now < length text.now)
        × (parts.0.now ≡ before_first (λ b. b == byte) text.now)
        × (parts.1.now ≡ after_first (λ b. b == byte) text.now)) }
    ensures clean { IfSome result (λ parts. IsTrue (list_all is_clean_byte parts.0.now)
        × IsTrue (list_all is_clean_byte parts.1.now)) }
{
    let at = find_byte(text, byte);
    if at < text.len() {
        Some((&text[..at], &text[at + 1..]))
    } else {
        None
    }
}

/// A line without the carriage return at its end.
#[tactic(auto, unfolding(crate::specs::Line::content_of))]
pub fn content(line: &[u8]) -> &[u8]
    ensures { result.now ≡ content_of line.now }
{
    if line.len() > 0 && line[line.len() - 1] == b'\r' {
        &line[..line.len() - 1]
    } else {
        line
    }
}

/// Whether a line has no byte that lines do not have.
pub fn is_clean(content: &[u8]) -> bool
    ensures { result ≡ list_all is_clean_byte content.now }
{
    content.iter().all(|b| (*b >= 32 && *b <= 126) || *b == 9)
}

/// Whether a line is blank.
fn is_blank(content: &[u8]) -> bool
    ensures { result ≡ list_all is_blank_byte content.now }
{
    content.iter().all(|b| *b == b' ' || *b == b'\t')
}

/// Whether a line is a comment.
fn is_comment(content: &[u8]) -> bool
    ensures { result ≡ (slice_index content.now 0 == 35) }
{
    match content {
        [] => false,
        [first, ..] => *first == b'#',
    }
}

/// Whether a line is skipped.
#[tactic(auto, unfolding(crate::specs::Line::is_skipped))]
pub fn skips(content: &[u8]) -> bool
    ensures { result ≡ is_skipped content.now }
{
    is_blank(content) || is_comment(content)
}

/// Bytes of a line as text.
#[tactic(auto, using(crate::proofs::Pieces::clean_utf8))]
pub fn text_of(bytes: &[u8]) -> &str
    requires { IsTrue (list_all is_clean_byte bytes.now) }
    ensures { result.now ≡ bytes.now }
{
    match std::str::from_utf8(bytes) {
        Ok(text) => text,
        Err(_) => unreachable!(),
    }
}

/// A line as its path and what stands behind the first space.
#[tactic(auto, using(crate::proofs::Pieces::cut_lines), unfolding(crate::specs::Line::path_of))]
pub fn cut_line(content: &[u8]) -> (&[u8], Option<&[u8]>)
    requires { IsTrue (list_all is_clean_byte content.now) }
    ensures path { result.0.now ≡ path_of content.now }
    ensures words { words_left (option_map (λ s. s.now) result.1) ≡ words_of content.now }
    ensures clean_path { IsTrue (list_all is_clean_byte result.0.now) }
    ensures clean_rest { IfSome result.1 (λ rest. IsTrue (list_all is_clean_byte rest.now)) }
{
    match cut_at(content, b' ') {
        Some((path, rest)) => (path, Some(rest)),
        None => (content, None),
    }
}

/// Where the first word of a text ends.
#[tactic(auto, using(crate::proofs::Pieces::word_length))]
fn first_word_end(text: &[u8]) -> usize
    ensures same { result ≡ word_end false text.now }
    ensures bound { result ≤ length text.now }
{
    let mut quoted = false;
    for (at, byte) in text.iter().enumerate() {
        if *byte == b' ' && !quoted {
            return at;
        }
        if *byte == b'"' {
            quoted = !quoted;
        }
    }
    text.len()
}

/// The first word of a text, and what is left behind the space after it.
#[tactic(auto, using(crate::proofs::Pieces::cut_words))]
pub fn cut_word(text: &[u8]) -> (&[u8], Option<&[u8]>)
    requires { IsTrue (list_all is_clean_byte text.now) }
    ensures words { parted_words false text.now
        ≡ result.0.now ∷ words_left (option_map (λ s. s.now) result.1) }
    ensures clean_word { IsTrue (list_all is_clean_byte result.0.now) }
    ensures clean_rest { IfSome result.1 (λ rest. IsTrue (list_all is_clean_byte rest.now)) }
    ensures shorter { IfSome result.1 (λ rest. length rest.now < length text.now) }
{
    let at = first_word_end(text);
    if at < text.len() {
        (&text[..at], Some(&text[at + 1..]))
    } else {
        (text, None)
    }
}

/// What stands before the last slash of a path.
#[tactic(auto, using(crate::proofs::Pieces::all_take))]
pub fn parent(path: &[u8]) -> &[u8]
    ensures same { result.now ≡ parent_of path.now }
    ensures clean { IsTrue (list_all is_clean_byte path.now)
        → IsTrue (list_all is_clean_byte result.now) }
{
    let mut last = 0;
    for (at, byte) in path.iter().enumerate() {
        if *byte == b'/' {
            last = at;
        }
    }
    &path[..last]
}
