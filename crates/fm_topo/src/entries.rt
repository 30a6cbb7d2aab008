ghost use Rattle.std.specs.Prelude.{◌≡◌, ◌==◌, ◌&&◌, ◌+◌, ◌<◌, ◌≤◌, IsTrue, IfOk, IfErr, OnOk};
ghost use Rattle.std.specs.Prelude.{IfSome, OnSome, fold, false, is_some, if◌then◌else◌, Some};
ghost use Rattle.std.specs.Prelude.{None, nat_lt, length, option_map};
ghost use Rattle.std.specs.List.{list_all};
ghost use Rattle.std.specs.BTreeMap.{btree_map_len};
ghost use Rattle.fm_name.specs.Path.{is_path};
ghost use Rattle.fm_topo.specs.Fault.{parent_of, lacks_parent, set_fault, entry_fault, line_fault};
ghost use Rattle.fm_topo.specs.Line.{is_clean_byte, content_of, path_of, parted_words, words_of};
ghost use Rattle.fm_topo.specs.Property.{is_property, with_word, properties_of};
ghost use Rattle.fm_topo.specs.LineStop.{IsLineStop};
ghost use Rattle.fm_topo.specs.Topology.{has_path, with_line};
ghost use Rattle.fm_topo.specs.Word.{words_left};

use crate::bytes::{content, cut_line, cut_word, is_clean, parent, skips, text_of};
use crate::faults::TopoKind;
use crate::keys::Key;
use crate::properties::Properties;
use crate::values::{TopoText, TopoValue};
use crate::words::read_property;
use fm_bytes::NoMemory;
use fm_name::read_fmri;
use std::alloc::Global;
use std::collections::BTreeMap;

/// Why the reading of a line stops: at a fault, or for want of memory.
#[derive(Debug, Drop)]
pub enum LineStop {
    At(TopoKind),
    Memory,
}

impl From<NoMemory> for LineStop {
    ghost use Rattle.std.specs.Prelude.{◌≡◌};
    ghost use Rattle.fm_topo.specs.declared.entries.LineStop.TheVariants.{Memory};

    ghost from_gives = { λ _ e. e ≡ Memory };

    fn from(_: NoMemory) -> LineStop {
        LineStop::Memory
    }
}

/// The pairs of the words of a line, and how many words there were.
#[derive(Debug, Drop)]
struct Pairs {
    map: BTreeMap<TopoText, TopoValue>,
    count: usize,
}

/// Puts a word into a map, and tells whether it is a property.
#[tactic(auto, using(crate::proofs::Meanings::one_word))]
fn add_word(
    alloc: Global,
    map: &mut BTreeMap<TopoText, TopoValue>,
    word: &[u8],
) -> Result<bool, NoMemory>
    requires { IsTrue (list_all is_clean_byte word.now) }
    ensures same { IfOk result (λ added. added ≡ is_property word.now) }
    ensures put { IfOk result
        (λ added. IsTrue added → map.new.entries ≡ with_word map.old.entries word.now) }
{
    match read_property(alloc, word)? {
        Some((name, value)) => {
            map.insert(name, value)?;
            Ok(true)
        }
        None => Ok(false),
    }
}

/// Puts the words of a text into a map, and counts them; None where one is no property. It calls
/// itself for the words behind the first, of which a line has at most about a thousand.
#[tactic(auto, using(crate::proofs::Meanings::all_words))]
fn add_words(
    alloc: Global,
    map: &mut BTreeMap<TopoText, TopoValue>,
    text: &[u8],
) -> Result<Option<usize>, NoMemory>
    requires { IsTrue (list_all is_clean_byte text.now) }
    ensures all { IfOk result
        (λ found. is_some found ≡ list_all is_property (parted_words false text.now)) }
    ensures pairs { IfOk result
        (λ found. OnSome found
        (map.new.entries ≡ fold with_word map.old.entries (parted_words false text.now))) }
    ensures count { IfOk result
        (λ found. IfSome found (λ count. count ≡ length (parted_words false text.now))) }
    ensures bound { IfOk result (λ found. IfSome found (λ count. count ≤ length text.now + 1)) }
{
    let (word, behind) = cut_word(text);
    if !add_word(alloc, map, word)? {
        return Ok(None);
    }
    match behind {
        Some(rest) => match add_words(alloc, map, rest)? {
            Some(count) => Ok(Some(count + 1)),
            None => Ok(None),
        },
        None => Ok(Some(1)),
    }
}

/// Reads the words of a line; None where one is no property.
#[tactic(auto, unfolding(crate::specs::Property::properties_of))]
fn read_words(alloc: Global, text: Option<&[u8]>) -> Result<Option<Pairs>, NoMemory>
    requires { IfSome text (λ rest. IsTrue (list_all is_clean_byte rest.now)) }
    ensures all { IfOk result
        (λ found. is_some found
        ≡ list_all is_property (words_left (option_map (λ s. s.now) text.entry))) }
    ensures pairs { IfOk result
        (λ found. IfSome found
        (λ pairs. pairs.map.entries
        ≡ properties_of (words_left (option_map (λ s. s.now) text.entry)))) }
    ensures count { IfOk result
        (λ found. IfSome found
        (λ pairs. pairs.count ≡ length (words_left (option_map (λ s. s.now) text.entry)))) }
{
    let mut map = BTreeMap::new(alloc);
    match text {
        Some(text) => match add_words(alloc, &mut map, text)? {
            Some(count) => Ok(Some(Pairs { map, count })),
            None => Ok(None),
        },
        None => Ok(Some(Pairs { map, count: 0 })),
    }
}

/// The path that a text of a line is, where it is one.
fn read_path(alloc: Global, text: &[u8]) -> Result<Option<Key>, NoMemory>
    requires { IsTrue (list_all is_clean_byte text.now) }
    ensures { IfOk result (λ found. found ≡ (if is_path text.now then Some text.now else None)) }
{
    match read_fmri(alloc, text_of(text))? {
        Some(path) => Ok(Some(Key::new(alloc, path)?)),
        None => Ok(None),
    }
}

/// Whether a path wants a parent that is not there; `text` is its text.
fn lacks(
    alloc: Global,
    found: &BTreeMap<Key, Properties>,
    path: &Key,
    text: &[u8],
) -> Result<bool, NoMemory>
    requires same { text.now ≡ path.now }
    requires clean { IsTrue (list_all is_clean_byte text.now) }
    ensures { IfOk result (λ lacks. lacks ≡ lacks_parent found.now.entries path.now) }
{
    if path.path().depth() < 2 {
        return Ok(false);
    }
    match read_path(alloc, parent(text))? {
        Some(above) => Ok(!found.contains_key(&above)),
        None => Ok(true),
    }
}

/// Whether a path is among those found. One comparison tells it of a path behind all of them, as
/// each is where the lines are in path order.
fn is_found(found: &BTreeMap<Key, Properties>, path: &Key) -> bool
    ensures { result ≡ has_path found.now.entries path.now }
{
    if let Some((last, _)) = found.last_key_value() {
        if last.cmp(path).is_lt() {
            return false;
        }
    }
    found.contains_key(path)
}

/// The fault of a path with properties among those of earlier lines. A name stands twice where the
/// map has fewer names than the line has words.
#[tactic(auto, unfolding(crate::specs::Fault::set_fault))]
fn fault_of(
    alloc: Global,
    found: &BTreeMap<Key, Properties>,
    path: &Key,
    text: &[u8],
    pairs: &Pairs,
) -> Result<Option<TopoKind>, NoMemory>
    requires same { text.now ≡ path.now }
    requires clean { IsTrue (list_all is_clean_byte text.now) }
    ensures { IfOk result
        (λ fault. fault ≡ set_fault found.now.entries path.now
        (nat_lt (length pairs.now.map.entries) pairs.now.count)) }
{
    if is_found(found, path) || pairs.map.len() < pairs.count {
        return Ok(Some(TopoKind::Twice));
    }
    if lacks(alloc, found, path, text)? {
        return Ok(Some(TopoKind::Parent));
    }
    if found.len() >= 65536 {
        return Ok(Some(TopoKind::Count));
    }
    Ok(None)
}

/// The pairs of a map as properties.
fn properties_from(
    alloc: Global,
    map: BTreeMap<TopoText, TopoValue>,
) -> Result<Properties, NoMemory>
    ensures { IfOk result (λ properties. properties ≡ map.entries) }
{
    let items = map.into_iter().collect(alloc)?;
    Ok(Properties::from_vec(items))
}

/// Reads the path and the properties of a line.
#[tactic(auto, unfolding(crate::specs::Fault::entry_fault))]
fn read_entry(
    alloc: Global,
    found: &BTreeMap<Key, Properties>,
    content: &[u8],
) -> Result<(Key, Properties), LineStop>
    requires { IsTrue (list_all is_clean_byte content.now) }
    ensures ok { IfOk result
        (λ entry. (entry_fault found.now.entries (path_of content.now) (words_of content.now)
        ≡ None)
        × (entry.0 ≡ path_of content.now) × (entry.1 ≡ properties_of (words_of content.now))) }
    ensures err { IfErr result
        (IsLineStop (entry_fault found.now.entries (path_of content.now) (words_of content.now))) }
{
    let (text, rest) = cut_line(content);
    let Some(path) = read_path(alloc, text)? else {
        return Err(LineStop::At(TopoKind::Path));
    };
    let Some(pairs) = read_words(alloc, rest)? else {
        return Err(LineStop::At(TopoKind::Property));
    };
    if let Some(kind) = fault_of(alloc, found, &path, text, &pairs)? {
        return Err(LineStop::At(kind));
    }
    let Pairs { map, count: _ } = pairs;
    Ok((path, properties_from(alloc, map)?))
}

/// Takes one line, with which so many bytes of the text end, into the topology of the earlier ones.
#[tactic(auto, unfolding(crate::specs::Fault::line_fault, crate::specs::Topology::with_line))]
pub fn take_line(
    alloc: Global,
    found: &mut BTreeMap<Key, Properties>,
    line: &[u8],
    last: usize,
) -> Result<(), LineStop>
    ensures clean { OnOk result (line_fault found.old.entries last line.now ≡ None) }
    ensures taken { OnOk result (found.new.entries ≡ with_line found.old.entries line.now) }
    ensures err { IfErr result (IsLineStop (line_fault found.old.entries last line.now)) }
{
    let content = content(line);
    if !is_clean(content) {
        return Err(LineStop::At(TopoKind::Bytes));
    }
    if line.len() > 4096 || last > 16777216 {
        return Err(LineStop::At(TopoKind::Length));
    }
    if skips(content) {
        return Ok(());
    }
    let (path, properties) = read_entry(alloc, found, content)?;
    match found.insert(path, properties) {
        Ok(_) => Ok(()),
        Err(_) => Err(LineStop::Memory),
    }
}
