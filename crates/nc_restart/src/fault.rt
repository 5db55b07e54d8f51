//! Why a run can't be recovered: the disk, the journal, its texts or a record out of place. Tests
//! read them too.
ghost use Rattle.std.specs.Prelude.{◌≡◌};
ghost use Rattle.nc_restart.specs.Recovered.{fault_of};

use run_journal::JournalFault;
use run_records::BadRecord;
use thiserror::Error;

/// Why no run is recovered.
#[derive(Clone, Copy, Debug, PartialEq, Eq, Drop, Error)]
pub enum RestartFault {
    /// The disk failed: its count of faults rose.
    #[error("disk fault")]
    DiskFault,
    /// The file has at most one byte, or its first gate is shut.
    #[error("no run")]
    NoRun,
    /// The entry of the open gate at this offset, with the gate behind it, does not end inside the
    /// file.
    #[error("cut short at {0}")]
    Cut(u64),
    /// The file is bad at this offset, for this cause. Bytes that can't be read come before texts
    /// that are refused, and these before a record that may not stand where it stands.
    #[error("bad record at {offset}: {cause}")]
    BadRecord { offset: u64, cause: BadRecord },
    /// There is no memory left.
    #[error("no memory")]
    NoMemory,
}

/// Why no run is recovered if its journal is not opened: for the cause of the journal.
pub(crate) fn fault_of(fault: JournalFault) -> RestartFault
    ensures { result ≡ fault_of fault }
{
    match fault {
        JournalFault::DiskFault => RestartFault::DiskFault,
        JournalFault::NoRun => RestartFault::NoRun,
        JournalFault::Cut(at) => RestartFault::Cut(at),
        JournalFault::BadRecord { offset, cause } => RestartFault::BadRecord { offset, cause },
        JournalFault::NoMemory => RestartFault::NoMemory,
    }
}
