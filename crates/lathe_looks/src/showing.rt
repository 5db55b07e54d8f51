//! The commands that show the run whose journal is on the disk: `moves` and `state`. They write
//! nothing to the disk. The zones of a run are in zoning.rt.
ghost use Rattle.nc_restart.specs.Recovered.{IsRecovered};
ghost use Rattle.nc_verify.specs.Printed.{IsPut};
ghost use Rattle.lathe_calls.specs.Answers.{Ends};
ghost use Rattle.lathe_looks.specs.Shown.{IsShowing, IsShown, shown_text};

use crate::refusing::tell_unfound;
use crate::standing::reason_of;
use disk_model::Disk;
use lathe_calls::{Status, status_behind};
use move_list::{write_report, write_state};
use nc_outside::{PutFault, Sink};
use nc_restart::{Recovered, recover};
use std::alloc::Global;

/// What is shown of a run.
#[derive(Clone, Copy, Debug, PartialEq, Eq)]
pub enum Showing {
    /// The report of its history.
    Moves,
    /// The state of its machine.
    State,
}

/// The exit status of a command over a disk, and the disk that was handed in: what `show` and
/// `show_zones` give, and in lathe_top the making of edits.
#[derive(Drop)]
pub struct Shown<D: Disk> {
    /// The exit status.
    pub status: u8,
    /// The disk that was handed in.
    pub disk: D,
}

/// Writes the text that is asked for of the run whose journal is on the disk, or why there is none.
pub fn show<D: Disk, K: Sink>(alloc: Global, showing: Showing, disk: D, out: &mut K) -> Shown<D>
    ensures { Ends (IsShown (IsShowing showing) (D.state disk) (D.state result.disk))
        (K.state out.old) (K.state out.new) result.status }
{
    match recover(alloc, disk) {
        Ok(found) => {
            let status = status_behind(put(alloc, showing, &found, out), Status::Done as u8);
            Shown {
                status,
                disk: found.journal.into_disk(),
            }
        }
        Err((disk, fault)) => Shown {
            status: tell_unfound(fault, out),
            disk,
        },
    }
}

/// Writes the text that is asked for of a run that was found. Errors: the output failed, or out of
/// memory.
fn put<D: Disk, K: Sink>(
    alloc: Global,
    showing: Showing,
    found: &Recovered<D>,
    out: &mut K,
) -> Result<(), PutFault>
    requires { IsRecovered D.state found.now.header found.now.verified found.now.machine.machine
        found.now.entries.items found.now.journal }
    ensures { IsPut (K.state out.old) (K.state out.new)
        (shown_text showing found.now.verified found.now.entries.items) result }
{
    match showing {
        Showing::Moves => write_report(
            alloc,
            &found.verified,
            &found.entries,
            reason_of(&found.machine),
            out,
        ),
        Showing::State => write_state(&found.verified, &found.machine, out),
    }
}
