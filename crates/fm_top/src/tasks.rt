// What a command does with a store that is open, and what is left to do once the disks are back.
use fm_admin::Repaired;
use fm_command::{AdminCommand, RepairRequest};
use fm_conclude::Conclusion;
use fm_sources::Sources;
use std::alloc::Global;
use uuid::Uuid;

/// What is done with a store once it is open.
#[derive(Drop)]
pub(crate) enum StoreTask {
    /// It takes the entry of each line of the input, and each line is answered.
    Accept,
    /// Where it keeps what was read of the sources, it does so too, and is then concluded.
    Fmd(Sources),
    /// It is drained, and what this command tells of it is told.
    Admin(AdminCommand),
    /// It is drained, and takes what an operator says, where that marks a suspect.
    Repair(RepairRequest),
    /// It is drained, and what the suspects of the case with this UUID account for is told.
    Explain(Uuid),
    /// It takes the entries that this number generates, and is then concluded.
    Generate(u64),
    /// The lines of the entries that this number generates are told.
    GeneratedLines(u64),
}

/// What is left to do once the disks are back.
#[derive(Drop)]
pub(crate) enum TaskDone {
    /// Nothing.
    Nothing,
    /// What the drained book wants is to be taken out of use, and its summary put.
    Concluded(Conclusion),
    /// This text is to be put.
    Text(Vec<u8>),
    /// What is wanted now is to be taken out of use, and the number of the entry told.
    Repaired(Repaired),
}

/// What a command over a store works with beside the disks: where memory comes from, what is done
/// with the store, the input, and the sink.
#[derive(Drop)]
pub(crate) struct Streams<'t, 'i, 'o, S, K> {
    pub(crate) alloc: Global,
    pub(crate) task: &'t StoreTask,
    pub(crate) input: &'i mut S,
    pub(crate) out: &'o mut K,
}
