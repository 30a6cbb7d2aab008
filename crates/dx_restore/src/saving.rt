//! States, saved.

ghost use Rattle.std.specs.Prelude.{◌≡◌, ◌<◌, ◌++◌, ◌^◌, length, map, flat_map, IfOk, OnOk, OnErr};
ghost use Rattle.std.specs.List.{All, list_any};
ghost use Rattle.fm_bytes.specs.Numbers.{counted_bytes};
ghost use Rattle.fm_entry.specs.WordBytes.{has_links, word_bytes};
ghost use Rattle.dx_state.specs.StateBytes.{diagnosis_bytes, open_case_bytes, moments_bytes};
ghost use Rattle.dx_explain.specs.Cases.{broken_of};
ghost use Rattle.dx_case.specs.Cases.{open_of};
ghost use Rattle.dx_restore.specs.Parts.{loaded_state, parts_state};
ghost use Rattle.dx_restore.specs.Saving.{IsLawfulSomewhere, IsShortCase, IsShortWord};
ghost use Rattle.dx_restore.specs.Saving.{IsShortEngine, AreShort};

use crate::parts::{Loaded, Parts};
use dx_case::Case;
use dx_kept::{KeptCase, put_case, put_moments, version_of};
use dx_serd::Engine;
use ev_graph::{Link, NoMemory};
use fm_bytes::{put_u8, put_u32, put_u64};
use fm_entry::{Broken, ListEvent, put_list_event};
use std::alloc::Global;

/// Appends the bytes that spell the state of some parts, which is a lawful one. Without memory
/// nothing is appended.
pub fn save(parts: &Parts<'_>, out: &mut Vec<u8>) -> Result<(), NoMemory>
    requires { IsLawfulSomewhere (parts_state parts.now) }
    ensures ok { OnOk result
        (out.new.items ≡ out.old.items ++ diagnosis_bytes (parts_state parts.now)) }
    ensures err { OnErr result (out.new.items ≡ out.old.items) }
{
    let mut bytes = Vec::new(*out.allocator());
    put_parts(parts, &mut bytes)?;
    out.extend_from_slice(&bytes)?;
    Ok(())
}

impl Loaded {
    /// Appends the bytes that spell the state of these parts, which is a lawful one. Without memory
    /// nothing is appended.
    pub fn save(&self, out: &mut Vec<u8>) -> Result<(), NoMemory>
        requires { IsLawfulSomewhere (loaded_state self.now) }
        ensures ok { OnOk result
            (out.new.items ≡ out.old.items ++ diagnosis_bytes (loaded_state self.now)) }
        ensures err { OnErr result (out.new.items ≡ out.old.items) }
    {
        let cases = kept_cases(*out.allocator(), self.cases.as_slice())?;
        let parts = Parts {
            conf: self.conf,
            time: self.time,
            next: self.next,
            cases: cases.as_slice(),
            solved: self.solved.as_slice(),
            engines: self.engines.as_slice(),
        };
        save(&parts, out)
    }
}

/// Writes the state of some parts.
fn put_parts(parts: &Parts<'_>, out: &mut Vec<u8>) -> Result<(), NoMemory>
    requires { AreShort parts.now }
    ensures { OnOk result
        (out.new.items ≡ out.old.items ++ diagnosis_bytes (parts_state parts.now)) }
{
    let marked = have_broken(parts.cases);
    put_u8(version_of(marked), out)?;
    put_u32(parts.conf, out)?;
    put_u64(parts.time, out)?;
    put_u64(parts.next, out)?;
    put_cases(parts.cases, marked, out)?;
    put_words(parts.solved, out)?;
    put_engines(parts.engines, out)
}

/// Whether some case has broken links.
fn have_broken(cases: &[KeptCase]) -> bool
    ensures { result ≡ list_any (λ c. has_links c.broken) cases.now }
{
    cases.iter().any(|case| case.broken().len() > 0)
}

/// The link as one that is broken.
fn broken_of(link: &Link) -> Broken
    ensures { result ≡ broken_of link.now }
{
    Broken {
        instance: link.instance,
        effect: link.effect,
    }
}

/// The links as links that are broken.
fn broken_links(alloc: Global, links: &[Link]) -> Result<Vec<Broken>, NoMemory>
    ensures { IfOk result (λ v. v.items ≡ map broken_of links.now) }
{
    let broken = links.iter().map(broken_of).collect(alloc)?;
    Ok(broken)
}

/// A case as it is kept. What it observed and its broken links are fewer than 2^32 each, as in each
/// lawful state.
pub fn kept_case(alloc: Global, case: &Case) -> Result<KeptCase, NoMemory>
    requires { IsShortCase case.now }
    ensures { IfOk result (λ kept. kept ≡ open_of case.now) }
{
    let entries = Vec::from_slice(alloc, case.reports())?;
    let observed = Vec::from_slice(alloc, case.observed())?;
    let broken = broken_links(alloc, case.broken())?;
    Ok(KeptCase::new(case.number(), case.opened(), entries, observed, broken))
}

/// Cases as they are kept.
fn kept_cases(alloc: Global, cases: &[Case]) -> Result<Vec<KeptCase>, NoMemory>
    requires { All IsShortCase cases.now }
    ensures { IfOk result (λ kept. kept.items ≡ map open_of cases.now) }
{
    let mut kept = Vec::with_capacity(alloc, cases.len())?;
    for case in cases {
        kept.push(kept_case(alloc, case)?)?;
    }
    Ok(kept)
}

/// Writes each of some open cases.
fn put_each_case(cases: &[KeptCase], marked: bool, out: &mut Vec<u8>) -> Result<(), NoMemory>
    ensures { OnOk result (out.new.items
        ≡ out.old.items ++ flat_map (open_case_bytes marked) cases.now) }
{
    for case in cases {
        put_case(case, marked, out)?;
    }
    Ok(())
}

/// Writes open cases behind their number.
#[tactic(auto, unfolding(fm_bytes::specs::Numbers::u64_bytes))]
fn put_cases(cases: &[KeptCase], marked: bool, out: &mut Vec<u8>) -> Result<(), NoMemory>
    ensures { OnOk result (out.new.items
        ≡ out.old.items ++ counted_bytes 8 (open_case_bytes marked) cases.now) }
{
    put_u64(cases.len() as u64, out)?;
    put_each_case(cases, marked, out)
}

/// Writes each of some words.
fn put_each_word(words: &[ListEvent], out: &mut Vec<u8>) -> Result<(), NoMemory>
    requires { All IsShortWord words.now }
    ensures { OnOk result (out.new.items ≡ out.old.items ++ flat_map word_bytes words.now) }
{
    for word in words {
        put_list_event(word, out)?;
    }
    Ok(())
}

/// Writes words behind their number.
#[tactic(auto, unfolding(fm_bytes::specs::Numbers::u64_bytes))]
fn put_words(words: &[ListEvent], out: &mut Vec<u8>) -> Result<(), NoMemory>
    requires { All IsShortWord words.now }
    ensures { OnOk result
        (out.new.items ≡ out.old.items ++ counted_bytes 8 word_bytes words.now) }
{
    put_u64(words.len() as u64, out)?;
    put_each_word(words, out)
}

/// Writes the moments of each of some engines.
fn put_each_engine(engines: &[Engine], out: &mut Vec<u8>) -> Result<(), NoMemory>
    requires { All IsShortEngine engines.now }
    ensures { OnOk result (out.new.items
        ≡ out.old.items ++ flat_map (λ r. moments_bytes r.kept) engines.now) }
{
    let alloc = *out.allocator();
    for engine in engines {
        let moments = engine.moments(alloc)?;
        put_moments(moments.as_slice(), out)?;
    }
    Ok(())
}

/// Writes the number of engines, and the moments of each.
#[tactic(auto, unfolding(fm_bytes::specs::Numbers::u32_bytes))]
fn put_counted_engines(engines: &[Engine], out: &mut Vec<u8>) -> Result<(), NoMemory>
    requires few { length engines.now < 2 ^ 32 }
    requires kept { All IsShortEngine engines.now }
    ensures { OnOk result (out.new.items
        ≡ out.old.items ++ counted_bytes 4 (λ r. moments_bytes r.kept) engines.now) }
{
    put_u32(engines.len() as u32, out)?;
    put_each_engine(engines, out)
}

/// Writes the moments of engines behind their number.
fn put_engines(engines: &[Engine], out: &mut Vec<u8>) -> Result<(), NoMemory>
    requires few { length engines.now < 2 ^ 32 }
    requires kept { All IsShortEngine engines.now }
    ensures { OnOk result (out.new.items
        ≡ out.old.items ++ counted_bytes 4 moments_bytes (map (λ r. r.kept) engines.now)) }
{
    put_counted_engines(engines, out)?;
    Ok(())
}
