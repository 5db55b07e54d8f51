//! What can go wrong with a file of gates: why it is not begun or not opened, and that an append
//! failed.

ghost use Rattle.std.specs.Prelude.{◌≡◌};
ghost use Rattle.gate_file.specs.declared.fault.GateFault.TheVariants.{NoMemory};
ghost use Rattle.gate_file.specs.declared.fault.GateFault.TheVariants.{DiskFault as Disk};

use disk_model::Failed;
use std::alloc::{AllocError, AllocFailed};
use thiserror::Error;

/// The disk failed while a file of gates was written: its count of faults rose. The file is no
/// longer live.
#[derive(Clone, Copy, Debug, PartialEq, Eq, Drop, Error)]
#[error("disk fault")]
pub struct DiskFault;

/// Why a file of gates is not begun, or not opened.
#[derive(Clone, Copy, Debug, PartialEq, Eq, Drop, Error)]
pub enum GateFault {
    /// The disk failed: its count of faults rose.
    #[error("disk fault")]
    DiskFault,
    /// The file has at most one byte, or its first gate is shut.
    #[error("no run")]
    NoRun,
    /// The first gate is open, and the file has more than one byte.
    #[error("run there")]
    RunThere,
    /// The entry of the open gate at this offset, with the gate after it, does not end inside the
    /// file.
    #[error("cut short at {0}")]
    Cut(u64),
    /// There is no memory left.
    #[error("no memory")]
    NoMemory,
}

impl From<Failed> for GateFault {
    ghost from_gives = { λ _ fault. fault ≡ Disk };

    /// A failed call of the disk is `DiskFault`.
    fn from(_: Failed) -> GateFault {
        GateFault::DiskFault
    }
}

impl From<AllocError> for GateFault {
    ghost from_gives = { λ _ fault. fault ≡ NoMemory };

    /// No memory left is `NoMemory`.
    fn from(_: AllocError) -> GateFault {
        GateFault::NoMemory
    }
}

impl<T: Drop> From<AllocFailed<T>> for GateFault {
    ghost from_gives = { λ _ fault. fault ≡ NoMemory };

    /// No memory left is `NoMemory`; what could not be pushed is dropped.
    fn from(_: AllocFailed<T>) -> GateFault {
        GateFault::NoMemory
    }
}
