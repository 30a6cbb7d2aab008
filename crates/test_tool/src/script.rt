// A script, gone through from its first line to its last.
use crate::blocks::{Block, blocks_of};
use crate::runs::Run;
use crate::steps::step;
use crate::sweeps::sweep;
use crate::undone::Undone;
use std::alloc::Global;

/// Gives a text its name.
fn define<'a>(run: &mut Run<'a>, block: &Block<'a>) -> Result<(), Undone> {
    let (_, name) = block.words();
    let mut bytes = Vec::new(run.alloc);
    run.texts.write(run.alloc, &block.lines, &mut bytes)?;
    run.texts.define(name, bytes)
}

/// Does what a line says.
fn turn<'a>(run: &mut Run<'a>, block: &Block<'a>, out: &mut String) -> Result<(), Undone> {
    match block.words().0 {
        "text" => define(run, block),
        "==" => Ok(writeln!(out, "\n{}", block.head)?),
        "sweep" => sweep(run, block, out),
        _ => step(run, block, out),
    }
}

/// Does what the lines say, in order; of one that can't be done, that is written.
fn turns<'a>(run: &mut Run<'a>, blocks: &[Block<'a>], out: &mut String) -> Result<(), Undone> {
    for block in blocks {
        match turn(run, block, out) {
            Err(Undone::Unread) => writeln!(out, "not done: {}", block.head)?,
            done => done?,
        }
    }
    Ok(())
}

/// Does what the lines say over no texts and a machine without a store.
fn go_through(alloc: Global, blocks: &[Block<'_>], out: &mut String) -> Result<(), Undone> {
    let mut run = Run::new(alloc)?;
    turns(&mut run, blocks, out)
}

/// The blocks of a script.
fn blocks_in(alloc: Global, text: &str) -> Result<Vec<Block<'_>>, Undone> {
    let lines: Vec<&str> = text.lines().collect(alloc)?;
    Ok(blocks_of(alloc, &lines)?)
}

/// What is written of a script: of a line that can't be done, that.
pub fn written_of(alloc: Global, text: &str) -> Result<String, Undone> {
    let blocks = blocks_in(alloc, text)?;
    let mut out = String::new(alloc);
    go_through(alloc, &blocks, &mut out)?;
    Ok(out)
}
