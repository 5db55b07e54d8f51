//! How a journal is opened: its file of gates, and then its bodies (reading.rt).

ghost use Rattle.std.specs.Prelude.{◌≡◌, length, IfOk};
ghost use Rattle.run_journal.specs.Kept.{IsFresh};
ghost use Rattle.run_journal.specs.Opening.{FindsRun, disk_opened, found_with};

use crate::batch::Batch;
use crate::fault::fault_of;
use crate::reading::{Contents, read_contents};
use crate::{Journal, JournalFault};
use disk_model::Disk;
use gate_file::GateFile;
use nc_number::ListOf;
use run_records::{EntryList, Header};
use std::alloc::Global;

/// Where the records of a journal begin in its file: for each one, in order, the offset of its
/// first byte.
pub type OffsetList = ListOf<u64>;

/// An opened journal, with what it holds.
#[derive(Drop)]
pub struct Opened<D: Disk> {
    /// The journal, which may be written.
    pub journal: Journal<D>,
    /// The header of the run.
    pub header: Header,
    /// The records, in order.
    pub entries: EntryList,
    /// For each record, where its first byte stands in the file.
    pub offsets: OffsetList,
}

/// Opens the journal on the disk. It begins with a sync, and writes nothing. `NoRun` comes where
/// the file has at most one byte or its first gate is shut, `Cut` with the offset of the first open
/// gate whose entry does not end inside the file, and `BadRecord` where the bodies are not a
/// header, batches and, if the header is of version 1, at most one raising mark, with no edit before
/// it: the first body that is bad tells offset and cause.
/// An error gives the disk back.
pub fn open_journal<D: Disk>(alloc: Global, disk: D) -> Result<Opened<D>, (D, JournalFault)>
    ensures finds { FindsRun (D.state disk) (D.state (disk_opened result)) (found_with result) }
    ensures as_many { IfOk result (λ opened. length opened.offsets ≡ length opened.entries.items) }
    ensures fresh { IfOk result (λ opened. IsFresh (length opened.entries.items) opened.journal) }
{
    let Ok(batch) = Batch::empty(alloc) else {
        return Err((disk, JournalFault::NoMemory));
    };
    match GateFile::open_file(alloc, disk) {
        Err((disk, fault)) => Err((disk, fault_of(fault))),
        Ok((file, bodies)) => match read_contents(alloc, &bodies) {
            Err(fault) => Err((file.into_disk(), fault)),
            Ok(
                Contents {
                    header,
                    version,
                    entries,
                    offsets,
                },
            ) => {
                let count = entries.len();
                Ok(Opened {
                    journal: Journal::over(file, batch, count, version),
                    header,
                    entries,
                    offsets,
                })
            }
        },
    }
}
