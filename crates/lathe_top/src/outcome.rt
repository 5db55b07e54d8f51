//! How a call of `top` or `look_or_edit` ended, for the program that made it.
ghost use Rattle.std.specs.Prelude.{◌≡◌};
ghost use Rattle.nc_number.specs.Both.{of_path};

use disk_model::Disk;
use nc_number::{Both, Path};
use nc_outside::Turret;

/// How a call ended: its status, both disks and the turrets that were handed in, and how many moves
/// each turret missed. Only this crate makes one.
#[derive(Drop)]
pub struct Outcome<D: Disk, E: Disk, T: Turret> {
    /// The exit status of the call.
    pub(crate) status: u8,
    /// The disk of the journal.
    pub disk: D,
    /// The disk of the branch.
    pub second: E,
    /// The turret of path 1.
    pub left: T,
    /// The turret of path 2.
    pub right: T,
    /// How many moves each turret missed.
    pub(crate) missed: Both<u64>,
}

impl<D: Disk, E: Disk, T: Turret> Outcome<D, E, T> {
    /// The status of the call.
    pub fn status(&self) -> u8
        ensures { result ≡ self.now.status }
    {
        self.status
    }

    /// How many moves the turret of the path missed: those of the path's records that this call
    /// made, and that are on the disk, which the turret did not take. 0 unless the turret failed. A
    /// later `resume` goes on after these records, and does not make up for them.
    pub fn missed(&self, path: Path) -> u64
        ensures { result ≡ of_path self.now.missed path }
    {
        *self.missed.of(path)
    }
}
