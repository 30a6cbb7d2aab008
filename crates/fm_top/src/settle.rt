// What follows the drain of a store: actuators come to hold what is wanted, and a text is put.
ghost use Rattle.std.specs.Prelude.{map};
ghost use Rattle.fm_act.specs.Reconciled.{actuator_state};
ghost use Rattle.fm_answers.specs.Accounts.{Accounts};
ghost use Rattle.fm_answers.specs.StreamsAt.{sink_at};
ghost use Rattle.fm_top.specs.Fmd.{SettlingEnds};

use fm_act::{ActCalls, ActRefused, settle_actuators};
use fm_answers::{Stop, put_bytes};
use fm_outer::Sink;
use fm_status::Wanted;
use std::alloc::Global;

/// What is to be done once the disks are back: what is wanted out of use, and the text to be put.
#[derive(Drop)]
pub(crate) struct Settlement {
    pub(crate) wanted: Wanted,
    pub(crate) text: Vec<u8>,
}

/// Brings each actuator to hold what is wanted of its kind, and puts the text by one call; also
/// where an actuator failed, which is told then.
pub(crate) fn settle<K: Sink, A: ActCalls>(
    alloc: Global,
    settlement: &Settlement,
    acts: &mut [A],
    out: &mut K,
) -> Result<(), Stop>
    ensures ends { SettlingEnds settlement.now.wanted settlement.now.text.items
        (map (λ a. actuator_state (A.kind_text a) (A.held a) (A.act_failures a)) acts.old)
        (map (λ a. actuator_state (A.kind_text a) (A.held a) (A.act_failures a)) acts.new)
        (sink_at K.Sink out.old) (sink_at K.Sink out.new) result }
    ensures counts { Accounts Stop.Write (K.failures out.old) (K.failures out.new) result }
{
    match settle_actuators(alloc, acts, settlement.wanted.paths()) {
        Ok(()) => put_bytes(out, settlement.text.as_slice()),
        Err(ActRefused::Act { index }) => {
            put_bytes(out, settlement.text.as_slice())?;
            Err(Stop::Act { index })
        }
        Err(ActRefused::NoMemory) => Err(Stop::Memory),
    }
}
