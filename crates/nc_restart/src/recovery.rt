//! The recovery of a run: its journal opened, its pair judged anew, its records done again.
ghost use Rattle.std.specs.Prelude.{IfOk};
ghost use Rattle.run_records.specs.Headers.{IsShort};
ghost use Rattle.nc_restart.specs.Recovered.{IsRecovered, Recovers, disk_recovered, run_found};

use crate::RestartFault;
use crate::fault::fault_of;
use crate::rebuilding::{Rebuilt, rebuild};
use disk_model::Disk;
use nc_verify::Verified;
use run_journal::{Journal, Opened, open_journal};
use run_records::{EntryList, Header};
use std::alloc::Global;
use two_path::Machine;

/// A run, as its journal has it.
#[derive(Drop)]
pub struct Recovered<D: Disk> {
    /// The version of the journal's beginning, and the texts that the run was made with.
    pub header: Header,
    /// The pair that the texts of the header are.
    pub verified: Verified,
    /// The machine behind the records. What unfinished blocks had read is lost: they begin anew.
    pub machine: Machine,
    /// The records.
    pub entries: EntryList,
    /// The journal, in which the next records go.
    pub journal: Journal<D>,
}

/// Recovers the run of which this disk has the journal. It writes nothing.
///
/// The journal is opened first, and refused as `open_journal` refuses it. Then the texts of its
/// header are judged: where they are refused the answer is `BadRecord` at offset 5, for
/// `RefusedTapes`. Then the records are done again: the first that can't follow those before it is
/// `NotLegal` at its offset, and one that can, but for which the settings leave no room, is
/// `TooManyRecords`. An error gives the disk back.
pub fn recover<D: Disk>(alloc: Global, disk: D) -> Result<Recovered<D>, (D, RestartFault)>
    ensures recovers { Recovers (D.state disk) (D.state (disk_recovered result)) (run_found result) }
    ensures short { IfOk result (λ run. IsShort run.header) }
    ensures run { IfOk result (λ run. IsRecovered D.state run.header run.verified
        run.machine.machine run.entries.items run.journal) }
{
    match open_journal(alloc, disk) {
        Err((disk, fault)) => Err((disk, fault_of(fault))),
        Ok(
            Opened {
                journal,
                header,
                entries,
                offsets,
            },
        ) => match rebuild(alloc, &header, &entries, &offsets) {
            Err(fault) => Err((journal.into_disk(), fault)),
            Ok(Rebuilt { pair, machine }) => Ok(Recovered {
                header,
                verified: pair,
                machine,
                entries,
                journal,
            }),
        },
    }
}
