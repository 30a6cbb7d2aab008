ghost use Rattle.std.specs.Prelude.{◌≡◌, ◌≤◌, ◌<◌, ◌==◌, refl, length, map, drop, slice_get, codes};
ghost use Rattle.std.specs.Prelude.{IfOk, IsTrue, Some, nat_eq, if◌then◌else◌};
ghost use Rattle.std.specs.Ordering.{nat_cmp};
ghost use Rattle.std.specs.Cmp.{partial_equiv_from_equiv, partial_order_from_agreeing_total};
ghost use Rattle.std.specs.List.{list_all};
ghost use Rattle.fm_name.specs.OrderLaws.{path_cmp_total, path_cmp_partial, path_cmp_ties};
ghost use Rattle.std.specs.Cmp.Lexicographic.{pointwise, slice_cmp, nat_list_eq_equiv};
ghost use Rattle.std.specs.Cmp.Lexicographic.{nat_list_cmp_total, texts_ties, texts_po};
ghost use Rattle.std.specs.Cmp.Rules.{hashing};
ghost use Rattle.std.specs.Hash as fed;
ghost use Rattle.std.proofs.Common.{rules};
ghost use Rattle.fm_name.specs.Path.{slash_texts, is_part, is_path, parts_of, names_of};
ghost use Rattle.fm_name.specs.Path.{instances_of};
ghost use Rattle.fm_name.specs.Order.{path_cmp, parts_cmp, is_under};

use crate::inline_text::InlineText;
use crate::parts::{begins_with_parts, count_texts, cut_part, part_text, read_part};
use crate::tail_order::compare_tails;
use crate::tails::joins_parts;
use arrayvec::ArrayVec;
use fm_bytes::{Copies, NoMemory};
use std::alloc::Global;
use std::cmp::Ordering;
use std::fmt;
use std::hash::{Hash, Hasher};
use std::marker::Model;

/// A path: `hc:///` and parts `name=instance` joined by slashes. Contracts see its text, as bytes.
#[derive(Debug, Drop)]
pub struct Fmri {
    text: InlineText,
}

impl Model for Fmri {
    ghost use Rattle.std.specs.Prelude.{ℕ, List, IsTrue};
    ghost use Rattle.fm_name.specs.Path.{is_path};

    ghost Value = { List ℕ };

    ghost view = { λ p. p.text };

    ghost invariant = { λ p. IsTrue (is_path p.text) };
}

/// Whether the text is a path.
#[tactic(auto, unfolding(crate::specs::Path::is_path))]
fn spells_path(text: &str) -> bool
    ensures { result ≡ is_path text.now }
{
    if text.len() > 709 {
        return false;
    }
    match text.strip_prefix("hc:///") {
        Some(tail) => joins_parts(tail.as_bytes(), 16),
        None => false,
    }
}

/// Reads a path; None where the text is no path.
pub fn read_fmri(alloc: Global, text: &str) -> Result<Option<Fmri>, NoMemory>
    ensures { IfOk result (λ found. found ≡ (if is_path text.now then Some text.now else None)) }
{
    if !spells_path(text) {
        return Ok(None);
    }
    let text = InlineText::new(alloc, text)?;
    Ok(Some(Fmri { text }))
}

/// The parts of a path, joined by slashes.
#[tactic(auto, using(crate::proofs::Cutting::some_text), unfolding(crate::specs::Path::on_path))]
fn tail_of(text: &str) -> &str
    requires { IsTrue (is_path text.now) }
    ensures same { result.now ≡ drop 6 text.now }
    ensures parts { IsTrue (list_all is_part (slash_texts result.now)) }
    ensures some { 1 ≤ length (slash_texts result.now) }
    ensures most { length (slash_texts result.now) ≤ 16 }
{
    match text.strip_prefix("hc:///") {
        Some(tail) => tail,
        None => unreachable!(),
    }
}

/// The bytes of the parts of a path, joined by slashes.
#[tactic(auto, using(crate::proofs::Alike::root_len), unfolding(crate::specs::Path::on_path))]
fn tail_bytes(text: &str) -> &[u8]
    requires { IsTrue (is_path text.now) }
    ensures same { result.now ≡ drop 6 text.now }
    ensures parts { IsTrue (list_all is_part (slash_texts result.now)) }
{
    let (_, tail) = text.as_bytes().split_at(6);
    tail
}

impl Fmri {
    /// How many parts the path has, 1 to 16.
    #[tactic(auto, using(crate::proofs::Cutting::placed), unfolding(crate::specs::Path::parts_of))]
    pub fn depth(&self) -> usize
        ensures same { result ≡ length (parts_of self.now) }
        ensures some { 1 ≤ result }
        ensures most { result ≤ 16 }
    {
        count_texts(tail_of(self.text.as_str()))
    }

    /// The name of the part at a place, counted from the root.
    #[tactic(auto, using(crate::proofs::Cutting::placed), unfolding(crate::specs::Path::parts_of))]
    pub fn name(&self, at: usize) -> &str
        requires { at < length (parts_of self.now) }
        ensures { slice_get (names_of self.now) at ≡ Some result.now }
    {
        read_part(part_text(tail_of(self.text.as_str()), at)).0
    }

    /// The instance of the part at a place, counted from the root.
    #[tactic(auto, using(crate::proofs::Cutting::placed), unfolding(crate::specs::Path::parts_of))]
    pub fn instance(&self, at: usize) -> u32
        requires { at < length (parts_of self.now) }
        ensures { slice_get (instances_of self.now) at ≡ Some result }
    {
        read_part(part_text(tail_of(self.text.as_str()), at)).1
    }

    /// The instances of the parts, from the root on, in one pass over the text.
    #[tactic(auto, unfolding(crate::specs::Path::parts_of, crate::specs::Path::instances_of))]
    pub fn instances(&self) -> ArrayVec<u32, 16>
        ensures { result.items ≡ instances_of self.now }
    {
        let mut found = ArrayVec::new();
        let mut left = Some(tail_of(self.text.as_str()));
        'parts: while let Some(tail) = left {
            let (part, rest) = cut_part(tail);
            found.push(read_part(part).1);
            left = rest;
        }
        found
    }

    /// The names of the parts, from the root on, in one pass over the text.
    #[tactic(auto, unfolding(crate::specs::Path::parts_of, crate::specs::Path::names_of))]
    pub fn names(&self) -> ArrayVec<&str, 16>
        ensures { map (λ name. name.now) result.items ≡ names_of self.now }
    {
        let mut found = ArrayVec::new();
        let mut left = Some(tail_of(self.text.as_str()));
        'parts: while let Some(tail) = left {
            let (part, rest) = cut_part(tail);
            found.push(read_part(part).0);
            left = rest;
        }
        found
    }

    /// Whether the parts of this path begin with those of another; each path is under itself. Takes
    /// no memory.
    #[tactic(auto, unfolding(crate::specs::Order::is_under, crate::specs::Path::parts_of))]
    pub fn is_under(&self, above: &Fmri) -> bool
        ensures { result ≡ is_under self.now above.now }
    {
        begins_with_parts(tail_of(self.text.as_str()), tail_of(above.text.as_str()))
    }

    /// The text that was read, of at most 709 bytes.
    #[tactic(auto, unfolding(crate::specs::Path::is_path))]
    pub fn text(&self) -> &str
        ensures same { result.now ≡ self.now }
        ensures path { IsTrue (is_path self.now) }
        ensures short { length self.now ≤ 709 }
    {
        let text = self.text.as_str();
        prove!(text.len() <= 709);
        text
    }

    /// An equal path.
    pub fn copy(&self) -> Result<Fmri, NoMemory>
        ensures { IfOk result (λ path. path ≡ self.now) }
    {
        let text = self.text.copy()?;
        Ok(Fmri { text })
    }
}

impl Copies for Fmri {
    fn copy(&self, _alloc: Global) -> Result<Fmri, NoMemory> {
        self.copy()
    }
}

impl PartialEq for Fmri {
    ghost eq = { pointwise nat_eq };

    ghost laws = { partial_equiv_from_equiv nat_list_eq_equiv };

    fn eq(&self, other: &Fmri) -> bool {
        self.text.as_str() == other.text.as_str()
    }
}

impl Eq for Fmri {
    ghost laws = { nat_list_eq_equiv };
}

impl PartialOrd for Fmri {
    ghost partial_cmp = { λ x y. Some (path_cmp x y) };

    ghost laws = { path_cmp_partial };

    fn partial_cmp(&self, other: &Fmri) -> Option<Ordering> {
        Some(self.cmp(other))
    }
}

impl Ord for Fmri {
    ghost cmp = { path_cmp };

    ghost total = { path_cmp_total };

    ghost matches_partial_cmp = { λ x y. refl };

    ghost matches_eq = { path_cmp_ties };

    #[tactic(auto, using(crate::proofs::Same::path_cmp_is), unfolding(crate::specs::Order::orders))]
    fn cmp(&self, other: &Fmri) -> Ordering
        ensures whole { result ≡ path_cmp self.now other.now }
        ensures by_parts { result ≡ parts_cmp (parts_of self.now) (parts_of other.now) }
    {
        let ours = tail_bytes(self.text.as_str());
        let theirs = tail_bytes(other.text.as_str());
        compare_tails(ours, theirs)
    }
}

impl Hash for Fmri {
    ghost hash_input = { fed.str };

    ghost respects_eq = { Prim.search (hashing, rules) };

    fn hash<H: Hasher>(&self, state: &mut H) {
        self.text.as_str().hash(state);
    }
}

impl fmt::Display for Fmri {
    ghost output = { λ path. Some path };

    fn fmt<W: fmt::Write>(&self, f: &mut fmt::Formatter<W>) -> fmt::Result {
        f.write_str(self.text.as_str())
    }
}
