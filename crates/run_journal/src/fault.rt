//! What can go wrong with a journal: it is full, or can't be opened. `Journal::add` answers the
//! first, which callers rule out before they call it.

ghost use Rattle.std.specs.Prelude.{◌≡◌};
ghost use Rattle.gate_file.specs.declared.fault.GateFault.TheVariants.{RunThere};
ghost use Rattle.run_journal.specs.Opening.{IsFaultOf};

use gate_file::GateFault;
use run_records::BadRecord;
use thiserror::Error;

/// The journal has 4,000,000 records (`MOST_RECORDS` of nc_number), those to be written counted.
#[derive(Clone, Copy, Debug, PartialEq, Eq, Drop, Error)]
#[error("journal full")]
pub struct JournalFull;

/// Why a journal is not opened.
#[derive(Clone, Copy, Debug, PartialEq, Eq, Drop, Error)]
pub enum JournalFault {
    /// The disk failed: its count of faults rose.
    #[error("disk fault")]
    DiskFault,
    /// The file has at most one byte, or its first gate is shut.
    #[error("no run")]
    NoRun,
    /// The entry of the open gate at this offset, with the gate after it, does not end inside the
    /// file.
    #[error("cut short at {0}")]
    Cut(u64),
    /// The first body that is bad is no header, or no batch and no mark: for this cause, at this
    /// offset of the file. The causes are `NoPath`, `NoKind`, `TooManyStamps`, `WrongLength`,
    /// `WrongCount`, `NoHeader` and `BadEdit`.
    #[error("bad record at {offset}: {cause}")]
    BadRecord { offset: u64, cause: BadRecord },
    /// There is no memory left.
    #[error("no memory")]
    NoMemory,
}

/// Why a journal is not opened, by why its file of gates is not. `RunThere` is no fault of an
/// opening, and callers may not ask of it.
pub(crate) fn fault_of(fault: GateFault) -> JournalFault
    requires { fault ≡ RunThere → ⊥ }
    ensures { IsFaultOf fault result }
{
    match fault {
        GateFault::DiskFault => JournalFault::DiskFault,
        GateFault::NoRun => JournalFault::NoRun,
        GateFault::RunThere => unreachable!(),
        GateFault::Cut(at) => JournalFault::Cut(at),
        GateFault::NoMemory => JournalFault::NoMemory,
    }
}
