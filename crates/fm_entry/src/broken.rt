//! Broken links: links of a graph that what the reports of a case carry breaks.

ghost use Rattle.std.specs.Prelude.{◌≡◌, ◌++◌, ◌<◌, ◌^◌, Some, None, IfOk, IfErr, OnOk, length};
ghost use Rattle.fm_bytes.specs.Reading.{IsMisspelled, counted_from};
ghost use Rattle.fm_entry.specs.Words.{is_link_before, links_ascend};
ghost use Rattle.fm_entry.specs.WordBytes.{link_bytes, broken_bytes};
ghost use Rattle.fm_entry.specs.WordReading.{link_from, links_from, broken_from};

use fm_bytes::{Copies, Input, Items, NoMemory, ReadFault, put_u32};
use fm_items::{Codec, put_counted, take_counted};
use std::alloc::Global;

/// A link between an instance and one of its effects, both by their numbers in the graph of a
/// configuration.
#[derive(Clone, Copy, PartialEq, Eq, Debug, Drop)]
pub struct Broken {
    /// The number of the instance.
    pub instance: u32,
    /// The number of the event that is the instance's effect.
    pub effect: u32,
}

/// A list of broken links, which contracts see as a list.
pub type BrokenLinks = Items<Broken>;

impl Copies for Broken {
    fn copy(&self, _alloc: Global) -> Result<Broken, NoMemory> {
        Ok(*self)
    }
}

/// The spelling of broken links.
pub(crate) struct LinkCodec;

impl Codec<Broken> for LinkCodec {
    ghost fits = { λ _. Unit {0} };

    ghost spelling = { link_bytes };

    ghost reading = { link_from };

    fn put(link: &Broken, out: &mut Vec<u8>) -> Result<(), NoMemory> {
        put_u32(link.instance, out)?;
        put_u32(link.effect, out)?;
        Ok(())
    }

    #[tactic(auto, unfolding(crate::specs::WordReading::link_from))]
    fn take(input: &mut Input, _alloc: Global) -> Result<Broken, ReadFault> {
        let instance = input.take_u32()?;
        let effect = input.take_u32()?;
        Ok(Broken { instance, effect })
    }
}

/// Writes the broken links of a word, where it has any.
pub(crate) fn put_broken(links: &BrokenLinks, out: &mut Vec<u8>) -> Result<(), NoMemory>
    requires { length links.now < 2 ^ 32 }
    ensures ok { OnOk result (out.new.items ≡ out.old.items ++ broken_bytes links.now) }
{
    if links.len() > 0 {
        put_counted::<Broken, LinkCodec>(links.as_slice(), out)
    } else {
        Ok(())
    }
}

/// Reads the broken links of a word that has some, or none.
#[tactic(auto, unfolding(crate::specs::WordReading::broken_from))]
pub(crate) fn take_broken(
    input: &mut Input,
    alloc: Global,
    marked: bool,
) -> Result<BrokenLinks, ReadFault>
    ensures ok { IfOk result (λ l. broken_from marked input.old ≡ Some (l, input.new)) }
    ensures err { IfErr result (λ f. IsMisspelled f → broken_from marked input.old ≡ None) }
{
    if marked {
        take_links(input, alloc)
    } else {
        Ok(BrokenLinks::new(Vec::new(alloc)))
    }
}

/// Reads broken links, one or more, in order.
#[tactic(auto, unfolding(crate::specs::WordReading::links_from))]
fn take_links(input: &mut Input, alloc: Global) -> Result<BrokenLinks, ReadFault>
    ensures ok { IfOk result (λ l. links_from input.old ≡ Some (l, input.new)) }
    ensures err { IfErr result (λ f. IsMisspelled f → links_from input.old ≡ None) }
{
    let links = BrokenLinks::new(take_counted::<Broken, LinkCodec>(input, alloc)?);
    if links.len() > 0 && links_ascend(links.as_slice()) {
        Ok(links)
    } else {
        Err(ReadFault::NoSpelling)
    }
}

/// Whether each link stands before the next, and so before all that follow it.
fn links_ascend(links: &[Broken]) -> bool
    ensures { result ≡ links_ascend links.now }
{
    for at in 1..links.len() {
        if !is_link_before(&links[at - 1], &links[at]) {
            return false;
        }
    }
    true
}

/// Whether a link stands before another.
fn is_link_before(x: &Broken, y: &Broken) -> bool
    ensures { result ≡ is_link_before x.now y.now }
{
    x.instance < y.instance || (x.instance == y.instance && x.effect < y.effect)
}
