// What an operator says of repairs, and when.
ghost use Rattle.std.specs.Prelude.{◌≡◌, ◌<◌, ◌^◌, IfOk};

use fm_bytes::NoMemory;
use fm_name::Fmri;
use std::marker::Model;
use uuid::Uuid;

/// What an operator says: the resource at a path was repaired; it was replaced, with all below it;
/// or the suspects of the case with a UUID are acquitted.
#[derive(Drop)]
pub enum Repair {
    Repaired(Fmri),
    Replaced(Fmri),
    Acquit(Uuid),
}

/// What an operator says, when, and the namespace of the UUIDs of cases.
#[derive(Drop)]
pub struct RepairOrder {
    pub namespace: [u8; 16],
    pub moment: u64,
    pub repair: Repair,
}

/// What an operator says of repairs, at a moment that an entry can have.
#[derive(Drop)]
pub struct RepairRequest {
    moment: u64,
    repair: Repair,
}

impl Model for RepairRequest {
    ghost use Rattle.std.specs.Prelude.{◌<◌, ◌^◌};
    ghost use Rattle.fm_command.specs.RepairAsked.{RepairAsked};

    ghost Value = { RepairAsked };

    ghost view = { λ r. record { moment = r.moment; repair = r.repair } };

    ghost invariant = { λ r. r.moment < 2 ^ 62 };
}

/// The same, copied.
fn copied(repair: &Repair) -> Result<Repair, NoMemory>
    ensures { IfOk result (λ copy. copy ≡ repair.now) }
{
    match repair {
        Repair::Repaired(path) => Ok(Repair::Repaired(path.copy()?)),
        Repair::Replaced(path) => Ok(Repair::Replaced(path.copy()?)),
        Repair::Acquit(uuid) => Ok(Repair::Acquit(*uuid)),
    }
}

impl RepairRequest {
    /// It is said at this moment.
    pub(crate) fn new(moment: u64, repair: Repair) -> RepairRequest
        requires { moment < 2 ^ 62 }
        ensures { result ≡ record { moment = moment; repair = repair } }
    {
        RepairRequest { moment, repair }
    }

    /// The same, of cases whose UUIDs are under this namespace.
    pub fn order(&self, namespace: [u8; 16]) -> Result<RepairOrder, NoMemory>
        ensures order { IfOk result (λ order. order ≡ record {
          namespace = namespace;
          moment = self.now.moment;
          repair = self.now.repair;
        }) }
        ensures fits { IfOk result (λ order. order.moment < 2 ^ 62) }
    {
        let repair = copied(&self.repair)?;
        Ok(RepairOrder {
            namespace,
            moment: self.moment,
            repair,
        })
    }
}
