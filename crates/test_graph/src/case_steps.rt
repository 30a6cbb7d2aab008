// What a case is opened with, and the steps that it takes.
use crate::words::{links_in, longs_in, numbers_in};
use ev_graph::Link;
use fm_entry::Broken;
use std::alloc::Global;
use test_words::{ScriptFault, first_word, number_in, small_in};

/// A first report: its node, when it comes, and the links that it breaks.
#[derive(Drop)]
pub struct Opening {
    pub node: u32,
    pub moment: u64,
    pub broken: Vec<Link>,
}

/// A step of a case.
#[derive(Drop)]
pub enum CaseStep {
    Move(u64),
    Join {
        node: u32,
        entry: u64,
        broken: Vec<Link>,
    },
    Finish,
}

/// What is kept of a case, and the moment that it has come to.
#[derive(Drop)]
pub struct Kept {
    pub number: u64,
    pub opened: u64,
    pub moment: u64,
    pub entries: Vec<u64>,
    pub observed: Vec<u32>,
    pub broken: Vec<Broken>,
}

/// The opening that words say, `NODE MOMENT LINK ..`.
pub fn opening_in(alloc: Global, words: &str) -> Result<Opening, ScriptFault> {
    let (node, rest) = first_word(words);
    let (moment, links) = first_word(rest);
    Ok(Opening {
        node: small_in(node)?,
        moment: number_in(moment)?,
        broken: links_in(alloc, links)?,
    })
}

/// A report that joins, `NODE ENTRY LINK ..`.
fn joining_in(alloc: Global, words: &str) -> Result<CaseStep, ScriptFault> {
    let (node, rest) = first_word(words);
    let (entry, links) = first_word(rest);
    Ok(CaseStep::Join {
        node: small_in(node)?,
        entry: number_in(entry)?,
        broken: links_in(alloc, links)?,
    })
}

/// The step that words say.
fn step_in(alloc: Global, words: &str) -> Result<CaseStep, ScriptFault> {
    let (word, rest) = first_word(words);
    match word {
        "move" => Ok(CaseStep::Move(number_in(rest)?)),
        "join" => joining_in(alloc, rest),
        "finish" => Ok(CaseStep::Finish),
        _ => Err(ScriptFault::Words),
    }
}

/// The steps of a text, with commas between them.
pub fn steps_in(alloc: Global, text: &str) -> Result<Vec<CaseStep>, ScriptFault> {
    let mut steps = Vec::new(alloc);
    for words in text.split(',') {
        if !words.trim().is_empty() {
            steps.push(step_in(alloc, words.trim())?)?;
        }
    }
    Ok(steps)
}

/// Links as they are kept.
pub fn kept_links(alloc: Global, links: &[Link]) -> Result<Vec<Broken>, ScriptFault> {
    let mut broken = Vec::new(alloc);
    for link in links {
        let Link { instance, effect } = *link;
        broken.push(Broken { instance, effect })?;
    }
    Ok(broken)
}

/// What is kept of a case of number 3 that was opened at 10 by the entries 7, 8 and 9: `MOMENT` and
/// the reports and links of two further texts.
pub fn kept_in(
    alloc: Global,
    moment: &str,
    observed: &str,
    links: &str,
) -> Result<Kept, ScriptFault> {
    let links = links_in(alloc, links)?;
    Ok(Kept {
        number: 3,
        opened: 10,
        moment: number_in(moment)?,
        entries: longs_in(alloc, "7 8 9")?,
        observed: numbers_in(alloc, observed)?,
        broken: kept_links(alloc, &links)?,
    })
}
