//! Engines, written and read: the class and path, N, T and the node of the trip.

ghost use Rattle.std.specs.Prelude.{◌≡◌};
ghost use Rattle.ev_file.specs.Files.{engine_bytes};
ghost use Rattle.ev_file.specs.FileReading.{engine_from};

use ev_graph::EngineSpec;
use fm_bytes::{Input, NoMemory, ReadFault, put_u32, put_u64};
use fm_entry::EventCodec;
use fm_items::Codec;
use std::alloc::Global;

/// The spelling of engines.
pub(crate) struct EngineCodec;

impl Codec<EngineSpec> for EngineCodec {
    ghost fits = { λ _. Unit {0} };

    ghost spelling = { engine_bytes };

    ghost reading = { engine_from };

    fn put(engine: &EngineSpec, out: &mut Vec<u8>) -> Result<(), NoMemory> {
        EventCodec::put(&engine.name, out)?;
        put_u32(engine.n, out)?;
        put_u64(engine.t, out)?;
        put_u32(engine.trip, out)
    }

    #[tactic(auto, unfolding(crate::specs::FileReading::engine_from))]
    fn take(input: &mut Input, alloc: Global) -> Result<EngineSpec, ReadFault> {
        let name = EventCodec::take(input, alloc)?;
        let n = input.take_u32()?;
        let t = input.take_u64()?;
        let trip = input.take_u32()?;
        Ok(EngineSpec { name, n, t, trip })
    }
}
