// Sweeps: the same steps, with something else each time.
use crate::blocks::{Block, number};
use crate::disks::{ALL, is_named};
use crate::runs::Run;
use crate::steps::step;
use crate::undone::Undone;
use fm_top::DiskName;
use std::alloc::Global;
use std::collections::BTreeSet;

/// What is other each time of the machine and of what its calls are given.
#[derive(Clone, Copy)]
enum SweepChange {
    /// From this call of the disk on, each fails.
    Stop(DiskName, u64),
    /// This call of the disk fails.
    Fail(DiskName, u64),
    /// The most bytes that a call of a source gives.
    Piece(u64),
    /// Nothing.
    Nothing,
}

/// The steps of a sweep, how many images their crash names, and what they wrote, each text once.
#[derive(Drop)]
struct SweepSteps<'a> {
    blocks: Vec<Block<'a>>,
    images: usize,
    kinds: BTreeSet<String>,
}

/// How many images a crash among the steps names; one where there is none.
fn images_in(blocks: &[Block<'_>]) -> usize {
    for block in blocks {
        let (word, images) = block.words();
        if word == "crash" {
            return images.split(' ').count();
        }
    }
    1
}

/// The number of a call, and so many more: from behind where it begins with `-`, behind the last
/// where it is `end`.
fn call_in(count: u64, word: &str, more: u64) -> Result<u64, Undone> {
    let behind = count.saturating_add(more);
    match word.strip_prefix('-') {
        Some(back) => Ok(behind.saturating_sub(number(back)?)),
        None if word == "end" => Ok(behind),
        None => Ok(number(word)?.saturating_add(more)),
    }
}

/// Makes a change.
fn make(run: &mut Run<'_>, change: SweepChange) -> Result<(), Undone> {
    match change {
        SweepChange::Stop(name, call) => run.machine.stop(run.alloc, name, call),
        SweepChange::Fail(name, call) => run.machine.fail(run.alloc, name, call),
        SweepChange::Piece(piece) => {
            run.settings.piece = piece as usize;
            Ok(())
        }
        SweepChange::Nothing => Ok(()),
    }
}

/// Does the steps, and writes what they come to.
fn all_steps<'a>(run: &mut Run<'a>, blocks: &[Block<'a>], text: &mut String) -> Result<(), Undone> {
    for block in blocks {
        step(run, block, text)?;
    }
    Ok(())
}

/// Does the steps after a change.
fn steps_after<'a>(
    run: &mut Run<'a>,
    blocks: &[Block<'a>],
    change: SweepChange,
    text: &mut String,
) -> Result<(), Undone> {
    make(run, change)?;
    all_steps(run, blocks, text)
}

/// Adds what the steps write over a copy of the machine with this change and this image.
fn add_image<'a>(
    run: &mut Run<'a>,
    sweep: &mut SweepSteps<'a>,
    change: SweepChange,
    image: usize,
) -> Result<(), Undone> {
    let kept = run.branch(image)?;
    let mut text = String::new(run.alloc);
    let done = steps_after(run, &sweep.blocks, change, &mut text);
    run.put_back(kept);
    done?;
    sweep.kinds.insert(text)?;
    Ok(())
}

/// Adds what the steps write with this change, image by image.
fn add<'a>(
    run: &mut Run<'a>,
    sweep: &mut SweepSteps<'a>,
    change: SweepChange,
) -> Result<(), Undone> {
    for image in 0..sweep.images {
        add_image(run, sweep, change, image)?;
    }
    Ok(())
}

/// Does the first of the steps.
fn first_step<'a>(run: &mut Run<'a>, blocks: &[Block<'a>]) -> Result<(), Undone> {
    let mut text = String::new(run.alloc);
    match blocks.first() {
        Some(block) => step(run, block, &mut text),
        None => Ok(()),
    }
}

/// How often the first of the steps calls a disk, over a copy of the machine.
fn calls_in<'a>(run: &mut Run<'a>, blocks: &[Block<'a>], name: DiskName) -> Result<u64, Undone> {
    let kept = run.branch(0)?;
    let done = first_step(run, blocks);
    let calls = run.machine.disk(name).calls();
    run.put_back(kept);
    done?;
    Ok(calls)
}

/// Adds what they write with each number of bytes of a piece: `FROM TO`.
fn add_pieces<'a>(
    run: &mut Run<'a>,
    sweep: &mut SweepSteps<'a>,
    range: &str,
) -> Result<(), Undone> {
    let (from, to) = range.split_once(' ').ok_or(Undone::Unread)?;
    for piece in number(from)?..number(to)?.saturating_add(1) {
        add(run, sweep, SweepChange::Piece(piece))?;
    }
    Ok(())
}

/// Adds what they write where a disk stops, or fails, at each of its calls: `FROM TO`.
fn add_calls<'a>(
    run: &mut Run<'a>,
    sweep: &mut SweepSteps<'a>,
    name: DiskName,
    stops: bool,
    range: &str,
) -> Result<(), Undone> {
    let count = calls_in(run, &sweep.blocks, name)?;
    let (from, to) = range.split_once(' ').ok_or(Undone::Unread)?;
    for call in call_in(count, from, 0)?..call_in(count, to, 1)? {
        let change = match stops {
            true => SweepChange::Stop(name, call),
            false => SweepChange::Fail(name, call),
        };
        add(run, sweep, change)?;
    }
    Ok(())
}

/// Adds what they write where disks stop, or fail: `DISK FROM TO`.
fn add_disks<'a>(
    run: &mut Run<'a>,
    sweep: &mut SweepSteps<'a>,
    stops: bool,
    rest: &str,
) -> Result<(), Undone> {
    let (disks, range) = rest.split_once(' ').ok_or(Undone::Unread)?;
    for name in ALL {
        if is_named(name, disks) {
            add_calls(run, sweep, name, stops, range)?;
        }
    }
    Ok(())
}

/// Makes this line, behind the text of this name, the text `tried`.
fn define_tried(run: &mut Run<'_>, name: &str, line: &str) -> Result<(), Undone> {
    let mut bytes = run.texts.get(name)?.to_vec(run.alloc)?;
    run.texts.write(run.alloc, &[line], &mut bytes)?;
    run.texts.define("tried", bytes)
}

/// Adds what they write with each of these lines in turn, behind the text of this name, as the
/// text `tried`.
fn add_lines<'a>(
    run: &mut Run<'a>,
    sweep: &mut SweepSteps<'a>,
    name: &str,
    lines: &[&str],
) -> Result<(), Undone> {
    for line in lines {
        if line.starts_with('|') {
            define_tried(run, name, line)?;
            add(run, sweep, SweepChange::Nothing)?;
        }
    }
    Ok(())
}

/// Adds what the steps write, each time with something else.
fn add_all<'a>(
    run: &mut Run<'a>,
    sweep: &mut SweepSteps<'a>,
    block: &Block<'a>,
) -> Result<(), Undone> {
    let (_, rest) = block.words();
    let (word, rest) = rest.split_once(' ').ok_or(Undone::Unread)?;
    match word {
        "stop" => add_disks(run, sweep, true, rest),
        "fail" => add_disks(run, sweep, false, rest),
        "piece" => add_pieces(run, sweep, rest),
        "each" => add_lines(run, sweep, rest, &block.lines),
        _ => Err(Undone::Unread),
    }
}

/// Writes these texts, each behind a line of its own.
fn show_kinds(kinds: &BTreeSet<String>, out: &mut String) -> Result<(), Undone> {
    for kind in kinds {
        out.push_str("-\n")?;
        out.push_str(kind)?;
    }
    Ok(())
}

/// The sweep of a line, of which nothing is written yet.
fn sweep_of<'a>(alloc: Global, block: &Block<'a>) -> Result<SweepSteps<'a>, Undone> {
    let blocks = block.inner(alloc)?;
    let images = images_in(&blocks);
    Ok(SweepSteps {
        blocks,
        images,
        kinds: BTreeSet::new(alloc),
    })
}

/// Does a sweep, and writes its line and what its steps come to.
fn show_sweep<'a>(
    run: &mut Run<'a>,
    sweep: &mut SweepSteps<'a>,
    block: &Block<'a>,
    out: &mut String,
) -> Result<(), Undone> {
    add_all(run, sweep, block)?;
    writeln!(out, "{}", block.head)?;
    show_kinds(&sweep.kinds, out)
}

/// Does a sweep: `stop DISK FROM TO`, `fail DISK FROM TO`, `piece FROM TO` or `each TEXT`. Writes
/// each text that its steps come to once, in order of bytes.
pub fn sweep<'a>(run: &mut Run<'a>, block: &Block<'a>, out: &mut String) -> Result<(), Undone> {
    let mut sweep = sweep_of(run.alloc, block)?;
    show_sweep(run, &mut sweep, block, out)
}
