//! What a command works on besides files and text, and how it ended.
//! For this crate alone: each command takes a `Lathe` and gives an `Ended`, which control.rt makes
//! an `Outcome`.
ghost use Rattle.std.specs.Prelude.{◌≡◌};
ghost use Rattle.turret_run.specs.Runs.{none_missed};

use disk_model::Disk;
use nc_number::Both;
use nc_outside::Turret;

/// What a command works on besides files and text: the disk of the journal, and the turrets of both
/// paths.
#[derive(Drop)]
pub(crate) struct Lathe<D: Disk, T: Turret> {
    /// The disk of the journal.
    pub(crate) disk: D,
    /// The turrets of path 1 and path 2.
    pub(crate) turrets: Both<T>,
}

/// How a command ended: its status, what it worked on, and how many moves each turret missed.
#[derive(Drop)]
pub(crate) struct Ended<D: Disk, T: Turret> {
    /// The exit status of the call.
    pub(crate) status: u8,
    /// The disk and the turrets after the command.
    pub(crate) lathe: Lathe<D, T>,
    /// How many moves each turret did not take of records that are on the disk.
    pub(crate) missed: Both<u64>,
}

impl<D: Disk, T: Turret> Ended<D, T> {
    /// The end of a command that called no turret, so that none missed a move.
    pub(crate) fn at_rest(status: u8, lathe: Lathe<D, T>) -> Ended<D, T>
        ensures { result ≡ record { status = status; lathe = lathe; missed = none_missed } }
    {
        Ended {
            status,
            lathe,
            missed: Both { one: 0, two: 0 },
        }
    }
}
