//! The six disks of a store, and their names.

/// The disks of a store: the configurations, two error journals, two slots, and the fault log.
#[derive(Drop)]
pub struct Disks<D> {
    pub conf: D,
    pub err_a: D,
    pub err_b: D,
    pub slot_a: D,
    pub slot_b: D,
    pub flt: D,
}

/// Which of the six disks.
#[derive(Clone, Copy, Debug, Drop, PartialEq, Eq)]
pub enum DiskName {
    Conf,
    ErrA,
    ErrB,
    SlotA,
    SlotB,
    Flt,
}
