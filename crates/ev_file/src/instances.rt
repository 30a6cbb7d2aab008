//! Instances, written and read: N, K, the causes and the effects.

ghost use Rattle.std.specs.Prelude.{◌≡◌};
ghost use Rattle.ev_file.specs.Files.{instance_bytes};
ghost use Rattle.ev_file.specs.FileReading.{instance_from};

use ev_graph::Instance;
use fm_bytes::{Input, Items, NoMemory, ReadFault, put_u32};
use fm_items::{Codec, NumberCodec, put_counted, take_counted};
use std::alloc::Global;

/// The spelling of instances.
pub(crate) struct InstanceCodec;

impl Codec<Instance> for InstanceCodec {
    ghost use Rattle.std.specs.Prelude.{◌<◌, ◌^◌, length};

    ghost fits = { λ i. (length i.causes < 2 ^ 32) × (length i.effects < 2 ^ 32) };

    ghost spelling = { instance_bytes };

    ghost reading = { instance_from };

    fn put(instance: &Instance, out: &mut Vec<u8>) -> Result<(), NoMemory> {
        put_u32(instance.n, out)?;
        put_u32(instance.k, out)?;
        put_counted::<u32, NumberCodec>(instance.causes.as_slice(), out)?;
        put_counted::<u32, NumberCodec>(instance.effects.as_slice(), out)
    }

    #[tactic(auto, unfolding(crate::specs::FileReading::instance_from))]
    fn take(input: &mut Input, alloc: Global) -> Result<Instance, ReadFault> {
        let n = input.take_u32()?;
        let k = input.take_u32()?;
        let causes = take_counted::<u32, NumberCodec>(input, alloc)?;
        let effects = take_counted::<u32, NumberCodec>(input, alloc)?;
        Ok(Instance {
            causes: Items::new(causes),
            effects: Items::new(effects),
            n,
            k,
        })
    }
}
