//! How the program ends: with the exit status of its command. lathe_calls names the statuses, and
//! lathe_top says which one a command has.
//! For main.rt of this crate.
ghost use Rattle.std.specs.Prelude.{◌≡◌};
ghost use Rattle.std.specs.Process.{exit_status};

use disk_model::Disk;
use lathe_top::Outcome;
use nc_outside::Turret;
use std::process::{ExitCode, Termination};

/// The status of a command that ran out of memory: a copy of `Status::NoMemory` of lathe_calls
/// (src/ending.rt, which names the other copies), which this crate does not use. All change
/// together.
const NO_MEMORY: u8 = 12;

/// The end of a command, with its status. `main` has no other way to end than with one of these.
#[derive(Drop)]
pub struct Ending {
    /// The exit status.
    status: u8,
}

impl Ending {
    /// The end of a command that came to this: its status.
    pub fn behind<D: Disk, E: Disk, T: Turret>(outcome: &Outcome<D, E, T>) -> Ending
        ensures { result.status ≡ outcome.now.status }
    {
        Ending {
            status: outcome.status(),
        }
    }

    /// There was no memory for the words.
    pub fn without_memory() -> Ending
        ensures { result.status ≡ 12 }
    {
        Ending { status: NO_MEMORY }
    }
}

impl Termination for Ending {
    /// The exit status of the program is that of the command.
    fn report<R: Eprint>(self, _rt: &R) -> ExitCode
        ensures { exit_status result ≡ self.status }
    {
        ExitCode::from(self.status)
    }
}
