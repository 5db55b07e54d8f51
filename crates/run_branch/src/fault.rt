//! Why a branch of a run is not made: four causes.
ghost use Rattle.run_branch.specs.Faults.{IsFaultOf, IsOfBeginning};

use gate_file::GateFault;
use thiserror::Error;

/// Why a branch is not made.
#[derive(Clone, Copy, Debug, PartialEq, Eq, Drop, Error)]
pub enum BranchFault {
    /// The run has fewer meetings.
    #[error("no meeting")]
    NoMeeting,
    /// A run is on the new journal's disk: its first gate is open, and it has more than one byte.
    #[error("run there")]
    RunThere,
    /// The new journal's disk failed: its count of faults rose.
    #[error("disk fault")]
    NewDisk,
    /// There is no memory left.
    #[error("no memory")]
    NoMemory,
}

/// Why a branch is not made, by why its file of gates is not begun.
pub(crate) fn fault_of(fault: GateFault) -> BranchFault
    requires { IsOfBeginning fault }
    ensures { IsFaultOf fault result }
{
    match fault {
        GateFault::RunThere => BranchFault::RunThere,
        GateFault::DiskFault => BranchFault::NewDisk,
        GateFault::NoMemory => BranchFault::NoMemory,
        GateFault::NoRun | GateFault::Cut(_) => unreachable!(),
    }
}
