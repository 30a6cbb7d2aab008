//! Events that a case observed, written and read.

ghost use Rattle.std.specs.Prelude.{◌≡◌};
ghost use Rattle.fm_entry.specs.WordBytes.{event_bytes};
ghost use Rattle.fm_entry.specs.WordReading.{event_from};

use crate::parts::{class, path};
use fm_bytes::{Input, Items, NoMemory, ReadFault, put_short_text};
use fm_items::Codec;
use fm_name::EventName;
use std::alloc::Global;

/// A list of events, each a class at a path, which contracts see as a list.
pub type EventNames = Items<EventName>;

/// The spelling of events: the class and the path as short texts.
pub struct EventCodec;

impl Codec<EventName> for EventCodec {
    ghost fits = { λ _. Unit {0} };

    ghost spelling = { event_bytes };

    ghost reading = { event_from };

    fn put(event: &EventName, out: &mut Vec<u8>) -> Result<(), NoMemory> {
        put_short_text(event.class.text(), out)?;
        put_short_text(event.path.text(), out)?;
        Ok(())
    }

    #[tactic(auto, unfolding(crate::specs::WordReading::event_from))]
    fn take(input: &mut Input, alloc: Global) -> Result<EventName, ReadFault> {
        let class = class(input, alloc)?;
        let path = path(input, alloc)?;
        Ok(EventName { class, path })
    }
}
