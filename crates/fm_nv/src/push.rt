//! A pair more in a list.

ghost use Rattle.std.specs.Prelude.{◌≡◌, ◌≤◌, ◌&&◌, true, Err, None, OnOk, OnErr, IfOk, IfErr};
ghost use Rattle.std.specs.Prelude.{IfNone, IfSome, IsTrue, length, nat_lt, nat_le};
ghost use Rattle.std.specs.Bool.{OnTrue};
ghost use Rattle.std.specs.List.{list_all};
ghost use Rattle.std.specs.Str.{is_utf8};
ghost use Rattle.fm_nv.specs.Data.{no_pairs, add, has, depth, data_depth};
ghost use Rattle.fm_nv.specs.Refusal.{refusal, is_within, IsWant};
ghost use Rattle.fm_nv.specs.Spelled.{is_pair_name, value_fits, is_text};
ghost use Rattle.fm_nv.specs.View.{datum};

use crate::fault::NvFault;
use crate::numbers::{NvTexts, are_few};
use crate::nv::{Content, Nv, Value};
use crate::text::NvText;
use std::alloc::Global;

impl Nv {
    /// Adds a pair at the end. The first fault in the order of the variants refuses it, and takes
    /// no memory; a list that refused a pair is as it was.
    pub fn push(&mut self, name: &str, value: Value) -> Result<(), NvFault>
        ensures ok { OnOk result (self.new ≡ add name.now (datum value) self.old) }
        ensures kept { OnErr result (self.new ≡ self.old) }
        ensures refused { IfSome (refusal name.now (datum value) self.old) (λ f. result ≡ Err f) }
        ensures allowed { IfNone (refusal name.now (datum value) self.old) (IfErr result IsWant) }
    {
        match fault_of(self, name, &value) {
            Some(fault) => Err(fault),
            None => self.append(name, value),
        }
    }

    /// Adds a pair that nothing refuses.
    fn append(&mut self, name: &str, value: Value) -> Result<(), NvFault>
        requires allowed { refusal name.now (datum value) self.old ≡ None }
        requires fits { IsTrue (value_fits (datum value)) }
        ensures ok { OnOk result (self.new ≡ add name.now (datum value) self.old) }
        ensures kept { OnErr result (self.new ≡ self.old) }
        ensures want { IfErr result IsWant }
    {
        if let Some(content) = &mut self.content {
            content.push(name, value)?;
            return Ok(());
        }
        let content = only_pair(self.alloc, name, value)?;
        self.content = Some(content);
        Ok(())
    }
}

/// A pair alone.
fn only_pair(alloc: Global, name: &str, value: Value) -> Result<Box<Content>, NvFault>
    requires { IsTrue (is_pair_name name.now) }
    ensures ok { IfOk result (λ content. content.value ≡ add name.now (datum value) no_pairs) }
    ensures want { IfErr result IsWant }
{
    let mut content = Content::new(alloc);
    content.push(name, value)?;
    Ok(Box::new(alloc, content)?)
}

/// The first fault of a pair that is to stand at the end of a list.
#[tactic(auto, unfolding(crate::specs::Refusal::refusal))]
fn fault_of(list: &Nv, name: &str, value: &Value) -> Option<NvFault>
    ensures fault { result ≡ refusal name.now (datum value.now) list.now }
    ensures fits { IfNone result (IsTrue (value_fits (datum value.now))) }
{
    if !is_sized(name) {
        return Some(NvFault::BadName);
    }
    if has_name(list, name) {
        return Some(NvFault::Twice);
    }
    if is_deeper(list, name, value) {
        return Some(NvFault::TooDeep);
    }
    if list.len() >= 65535 || !value.is_within() {
        return Some(NvFault::TooMany);
    }
    None
}

/// Whether a name has 1 to 255 bytes.
fn is_sized(name: &str) -> bool
    ensures { result ≡ (nat_lt 0 (length name.now) && nat_le (length name.now) 255) }
{
    0 < name.len() && name.len() <= 255
}

/// Whether a name is there. It isn't looked for where it is greater than all that are there, so a
/// list whose names come in the order of bytes grows in time linear in them.
#[tactic(auto, using(crate::proofs::Places::has_found, crate::proofs::Greatest::past_is_new))]
fn has_name(list: &Nv, name: &str) -> bool
    ensures { result ≡ has name.now list.now }
{
    match &list.content {
        None => false,
        Some(content) => !content.is_past(name) && content.get(name).is_some(),
    }
}

/// Whether the list would be deeper than 8.
#[tactic(auto, using(crate::proofs::Adding::depth_add))]
fn is_deeper(list: &Nv, _name: &str, value: &Value) -> bool
    ensures { result ≡ nat_lt 8 (depth (add _name.now (datum value.now) list.now)) }
{
    8 < list.depth().max(value.depth() + 1)
}

impl Value {
    /// How deep the lists of the value are.
    pub(crate) fn depth(&self) -> u64
        ensures deep { result ≡ data_depth (datum self.now) }
        ensures bound { result ≤ 8 }
    {
        match self {
            Value::List(list) => list.depth(),
            Value::Lists(lists) => lists.depth(),
            _ => 0,
        }
    }

    /// Whether its texts and its arrays are within their limits.
    fn is_within(&self) -> bool
        ensures test { result ≡ is_within (datum self.now) }
        ensures fits { OnTrue result (IsTrue (value_fits (datum self.now))) }
    {
        match self {
            Value::Bool(_) => true,
            Value::Unsigned(number) => {
                let _number = *number;
                true
            }
            Value::Signed(number) => {
                let _number = *number;
                true
            }
            Value::Text(text) => is_short(text),
            Value::List(list) => list.depth() <= 8,
            Value::Unsigneds(numbers) => are_few(numbers),
            Value::Texts(texts) => texts.as_slice().len() <= 65535 && are_short(texts),
            Value::Lists(lists) => lists.depth() <= 8 && lists.len() <= 65535,
        }
    }
}

/// Whether a text has at most 65,536 bytes.
fn is_short(text: &NvText) -> bool
    ensures test { result ≡ nat_le (length text.now) 65536 }
    ensures text { is_utf8 text.now ≡ true }
{
    text.get().len() <= 65536
}

/// Whether each text of an array has at most 65,536 bytes.
fn are_short(texts: &NvTexts) -> bool
    ensures test { result ≡ list_all (λ t. nat_le (length t) 65536) texts.now }
    ensures texts { OnTrue result (IsTrue (list_all is_text texts.now)) }
{
    let items = texts.as_slice();
    'items: for text in items {
        if !is_short(text) {
            return false;
        }
    }
    true
}
