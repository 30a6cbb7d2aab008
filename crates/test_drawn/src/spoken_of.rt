// What the second opinion says of cases, as text.
use crate::rules::{DrawnRules, RootKind, bit_of, path_of};
use crate::stories::Cut;
use fm_entry::{ListKind, Mark};
use std::alloc::{AllocError, Global};
use test_text_modules::{kind_text, link_text, mark_text};
use test_words::ScriptFault;

/// A suspect: a root, how sure it is in percent, and what became of it.
#[derive(Clone, Copy, Drop)]
pub struct Blame {
    pub root: u32,
    pub certainty: u64,
    pub mark: Mark,
}

/// What is said of a case that is not open any more.
#[derive(Drop)]
pub struct Said {
    pub number: u64,
    pub observed: u32,
    pub cuts: Vec<Cut>,
    pub suspects: Vec<Blame>,
}

impl Said {
    /// Whether some suspect is present.
    pub fn is_any_present(&self) -> bool {
        self.suspects
            .iter()
            .any(|blame| blame.mark == Mark::Present)
    }
}

fn put_head(kind: &str, number: u64, time: u64, text: &mut String) -> Result<(), AllocError> {
    if !text.is_empty() {
        text.push_str("; ")?;
    }
    write!(text, "{kind} dx0/{number} at {time} under 0")
}

fn put_observed(rules: &DrawnRules, bits: u32, text: &mut String) -> Result<(), AllocError> {
    let mut at = 0usize;
    for number in 0..4 {
        if bits & bit_of(number) != 0 {
            let front = link_text(at, " of ");
            let class = rules.class_of(number);
            let path = path_of(number);
            write!(text, "{front}{class} {path}")?;
            at = at.saturating_add(1);
        }
    }
    Ok(())
}

/// The links in order of instance and effect.
fn in_order(
    alloc: Global,
    rules: &DrawnRules,
    cuts: &[Cut],
) -> Result<Vec<(u32, u32)>, ScriptFault> {
    let mut links = Vec::with_capacity(alloc, cuts.len())?;
    for cut in cuts {
        links.push((cut.arrow, rules.node_of(cut.report)))?;
    }
    links.as_mut_slice().sort_unstable();
    Ok(links)
}

fn put_cuts(links: &[(u32, u32)], text: &mut String) -> Result<(), AllocError> {
    for (at, link) in links.iter().enumerate() {
        let front = link_text(at, " less ");
        let instance = link.0;
        let effect = link.1;
        write!(text, "{front}{instance}-{effect}")?;
    }
    Ok(())
}

fn put_blame(
    rules: &DrawnRules,
    at: usize,
    blame: Blame,
    text: &mut String,
) -> Result<(), AllocError> {
    let front = link_text(at, " by ");
    let root = rules.root(blame.root);
    let is_upset = root.kind == RootKind::Upset;
    let certainty = if is_upset { 0 } else { blame.certainty };
    let class = rules.class_of(blame.root);
    let path = path_of(blame.root);
    let mark = mark_text(blame.mark);
    write!(text, "{front}{certainty}% {class} {path} {mark}")?;
    if root.retire && !is_upset {
        text.push_str(" retire")?;
    }
    Ok(())
}

fn put_blames(rules: &DrawnRules, blames: &[Blame], text: &mut String) -> Result<(), AllocError> {
    for (at, blame) in blames.iter().enumerate() {
        put_blame(rules, at, *blame, text)?;
    }
    Ok(())
}

/// Puts a word of a case.
pub fn put_said(
    alloc: Global,
    rules: &DrawnRules,
    kind: ListKind,
    time: u64,
    said: &Said,
    text: &mut String,
) -> Result<(), ScriptFault> {
    put_head(kind_text(kind), said.number, time, text)?;
    put_observed(rules, said.observed, text)?;
    let links = in_order(alloc, rules, said.cuts.as_slice())?;
    put_cuts(links.as_slice(), text)?;
    put_blames(rules, said.suspects.as_slice(), text)?;
    Ok(())
}

/// Puts the word of a case of a report at a path that the graph does not have.
pub fn put_unknown(
    rules: &DrawnRules,
    number: u64,
    time: u64,
    report: u32,
    text: &mut String,
) -> Result<(), AllocError> {
    put_head("undiagnosable", number, time, text)?;
    let class = rules.class_of(report);
    write!(text, " of {class} hc:///chassis=1")
}
