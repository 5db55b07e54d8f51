//! What a run with turrets leaves for its caller. Which of it goes together is in specs/Runs.antt.
//! run.rt makes it.
use disk_model::Disk;
use nc_number::{Both, NoMemory};
use nc_outside::{Reason, Turret};
use run_table::Table;

/// What a run with turrets leaves.
#[derive(Drop)]
pub struct TurretRun<D: Disk, T: Turret> {
    /// The table with the records that were made.
    pub table: Table<D>,
    /// The turrets of path 1 and path 2.
    pub turrets: Both<T>,
    /// Why it ended. An error says that it did not begin: memory ran out before the first step, or
    /// a thread was refused.
    pub end: Result<Reason, NoMemory>,
    /// How many moves of records that are on the disk each turret did not get.
    pub missed: Both<u64>,
}
