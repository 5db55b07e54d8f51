//! How the records of a run are done again, each checked at its place.
//! For rebuilding.rt of this crate.
ghost use Rattle.std.specs.Prelude.{◌≡◌, ◌≤◌, ◌<◌, ◌+◌, ◌++◌, [], ◌∷◌, List, length, OnOk, IfErr};
ghost use Rattle.nc_number.specs.declared.limits.TheConstants.{MOST_RECORDS};
ghost use Rattle.run_records.specs.Entries.{Entry};
ghost use Rattle.two_path.specs.Joined.{AreAtTheirWaits};
ghost use Rattle.two_path.specs.Machine.{without_reads};
ghost use Rattle.nc_restart.specs.Pair.{opening_of};
ghost use Rattle.nc_restart.specs.History.{IsBehind, IsOutOfPlace, IsOutOfPlaceAt};

use nc_moves::MoveList;
use nc_verify::Verified;
use run_records::{BadRecord, Entry, EntryList};
use two_path::{Illegal, Machine, histories_are_runs};

/// The record of this index is the first that may not stand where it stands.
#[derive(Drop)]
pub(crate) struct OutOfPlace {
    /// Its index, counted from 0.
    pub(crate) index: usize,
    /// Why it may not stand there.
    pub(crate) cause: BadRecord,
}

/// Does one record more again, where it may stand there: it is the machine's step, and the settings
/// allow one record more. The list is lent for its moves, which nobody asks for.
fn redo(
    machine: &mut Machine,
    pair: &Verified,
    entry: &Entry,
    moves: &mut MoveList,
) -> Result<(), BadRecord>
    requires room { 0 < machine.old.room }
    requires few { machine.old.machine.count ≤ MOST_RECORDS }
    requires no_reads { without_reads machine.old.machine ≡ machine.old.machine }
    requires waits { AreAtTheirWaits pair.now.left.order pair.now.right.order machine.old.machine }
    ensures done { OnOk result ((before : List Entry) → IsBehind pair.now before machine.old.machine
        → IsBehind pair.now (before ++ entry.now ∷ []) machine.new.machine) }
    ensures bad { IfErr result (λ cause. (before : List Entry) → IsBehind pair.now before machine.old.machine
        → IsOutOfPlace pair.now before entry.now cause) }
    ensures room { machine.old.machine.count + machine.old.room ≤ machine.new.machine.count + machine.new.room }
{
    histories_are_runs();
    let full = machine.count() >= pair.settings().records;
    match machine.apply_into(pair.left(), pair.right(), entry, moves) {
        Err(Illegal) => Err(BadRecord::NotLegal),
        Ok(_answer) => if full {
            Err(BadRecord::TooManyRecords)
        } else {
            Ok(())
        },
    }
}

/// Does the records again, over a machine of the pair before its first turn, with room for all of
/// them. It takes no memory.
pub(crate) fn replay(
    machine: &mut Machine,
    pair: &Verified,
    entries: &EntryList,
) -> Result<(), OutOfPlace>
    requires opening { machine.old.machine ≡ opening_of pair.now }
    requires room { length entries.now.items ≤ machine.old.room }
    ensures behind { OnOk result (IsBehind pair.now entries.now.items machine.new.machine) }
    ensures bad { IfErr result (λ bad. IsOutOfPlaceAt pair.now entries.now.items bad.index bad.cause) }
{
    let mut moves = MoveList::empty();
    for index in 0..entries.len() {
        let entry = entries.get(index);
        if let Err(cause) = redo(machine, pair, &entry, &mut moves) {
            let cause: BadRecord = cause;
            return Err(OutOfPlace { index, cause });
        }
    }
    Ok(())
}
