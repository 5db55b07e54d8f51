//! The pair of a run, from its header, and the machine behind its records, which are done again.
//! For recovery.rt of this crate.
ghost use Rattle.std.specs.Prelude.{◌≡◌, ◌≤◌, length, IfOk, IfErr};
ghost use Rattle.run_records.specs.Headers.{IsShort};
ghost use Rattle.nc_restart.specs.Pair.{texts_of, IsPairOf, opening_of};
ghost use Rattle.nc_restart.specs.History.{IsBehind};
ghost use Rattle.nc_restart.specs.Reading.{RefusesReading};

use crate::RestartFault;
use crate::pair::pair_of;
use crate::replay::{OutOfPlace, replay};
use nc_number::NoMemory;
use nc_verify::Verified;
use run_journal::OffsetList;
use run_records::{EntryList, Header};
use std::alloc::Global;
use two_path::Machine;

/// A pair, and its machine behind the records of a run.
#[derive(Drop)]
pub(crate) struct Rebuilt {
    /// The pair that the texts of the header are.
    pub(crate) pair: Verified,
    /// Its machine behind the records.
    pub(crate) machine: Machine,
}

/// A machine of the pair before its first turn, with room for so many records.
fn opening_machine(alloc: Global, pair: &Verified, n: usize) -> Result<Machine, NoMemory>
    ensures machine { IfOk result (λ machine. machine.machine ≡ opening_of pair.now) }
    ensures room { IfOk result (λ machine. n ≤ machine.room) }
{
    let mut machine = Machine::new(alloc, pair.left(), pair.right(), pair.settings())?;
    machine.reserve(n)?;
    Ok(machine)
}

/// The pair of the header, and its machine behind these records, which begin at these offsets of
/// the journal's file. A record out of place is told by its offset.
pub(crate) fn rebuild(
    alloc: Global,
    header: &Header,
    entries: &EntryList,
    offsets: &OffsetList,
) -> Result<Rebuilt, RestartFault>
    requires short { IsShort header.now }
    requires as_many { length offsets.now ≡ length entries.now.items }
    ensures pair { IfOk result (λ rebuilt. IsPairOf (texts_of header.now) rebuilt.pair) }
    ensures behind { IfOk result (λ rebuilt. IsBehind rebuilt.pair entries.now.items rebuilt.machine.machine) }
    ensures refused { IfErr result (RefusesReading header.now entries.now.items offsets.now) }
{
    let pair = match pair_of(alloc, header) {
        Ok(pair) => pair,
        Err(fault) => return Err(fault),
    };
    let mut machine = match opening_machine(alloc, &pair, entries.len()) {
        Ok(machine) => machine,
        Err(NoMemory) => return Err(RestartFault::NoMemory),
    };
    match replay(&mut machine, &pair, entries) {
        Ok(()) => Ok(Rebuilt { pair, machine }),
        Err(OutOfPlace { index, cause }) => {
            let offset = offsets.as_slice()[index];
            Err(RestartFault::BadRecord { offset, cause })
        }
    }
}
