// What is told of a case.
use crate::words::put_numbers;
use ev_graph::Link;
use std::alloc::{AllocError, Global};
use test_words::ScriptFault;

/// What a case comes to.
#[derive(Drop)]
pub enum CaseEnd {
    Pending,
    Solved(Vec<u32>),
    Upset(Vec<u32>),
    Unexplained,
}

/// A case as plain values.
#[derive(Drop)]
pub struct CaseView {
    pub number: u64,
    pub opened: u64,
    pub time: Option<u64>,
    pub entries: Vec<u64>,
    pub observed: Vec<u32>,
    pub broken: Vec<Link>,
    pub fits: Vec<u32>,
    pub end: CaseEnd,
}

/// Puts the number of a case, when it was opened, and the moment that it has come to.
fn put_moments(view: &CaseView, line: &mut String) -> Result<(), AllocError> {
    let (number, opened) = (view.number, view.opened);
    write!(line, "{number} from {opened}")?;
    match view.time {
        Some(time) => write!(line, " at {time}"),
        None => line.push_str(" finished"),
    }
}

/// Puts the entries.
fn put_entries(entries: &[u64], line: &mut String) -> Result<(), AllocError> {
    line.push_str(", entries")?;
    for entry in entries {
        write!(line, " {entry}")?;
    }
    Ok(())
}

/// Puts the broken links, if there are some.
fn put_links(links: &[Link], line: &mut String) -> Result<(), AllocError> {
    if !links.is_empty() {
        line.push_str(", broken")?;
    }
    for link in links {
        let Link { instance, effect } = link;
        write!(line, " {instance}/{effect}")?;
    }
    Ok(())
}

/// Puts what a case comes to.
fn put_end(end: &CaseEnd, line: &mut String) -> Result<(), AllocError> {
    match end {
        CaseEnd::Pending => line.push_str(", pending"),
        CaseEnd::Unexplained => line.push_str(", unexplained"),
        CaseEnd::Solved(faults) => {
            line.push_str(", solved by")?;
            put_numbers(faults, line)
        }
        CaseEnd::Upset(upsets) => {
            line.push_str(", upset by")?;
            put_numbers(upsets, line)
        }
    }
}

/// A case as a line.
pub fn case_text(alloc: Global, view: &CaseView) -> Result<String, ScriptFault> {
    let mut line = String::new(alloc);
    put_moments(view, &mut line)?;
    put_entries(&view.entries, &mut line)?;
    line.push_str(", observed")?;
    put_numbers(&view.observed, &mut line)?;
    put_links(&view.broken, &mut line)?;
    line.push_str(", fits")?;
    put_numbers(&view.fits, &mut line)?;
    put_end(&view.end, &mut line)?;
    Ok(line)
}
