//! How edits are made in a run that was recovered: room first, then the journal raised, the records,
//! and one batch.
ghost use Rattle.std.specs.Prelude.{◌≡◌, ℕ, ◌+◌, ◌≤◌, ◌++◌, List, length, nat_le, is_ok, None, OnOk};
ghost use Rattle.disk_model.specs.Device.{HasCause, Reads};
ghost use Rattle.disk_model.specs.Moments.{LeavesOnly, Uses};
ghost use Rattle.nc_number.specs.declared.limits.TheConstants.{MOST_PENDING};
ghost use Rattle.run_records.specs.Entries.{Entry};
ghost use Rattle.run_records.specs.declared.header.Header.{Header};
ghost use Rattle.run_records.specs.declared.version.Version.{Version};
ghost use Rattle.run_journal.specs.Batches.{batch_bytes};
ghost use Rattle.run_journal.specs.Stands.{Pends, Holds, Stands, StandsEither};
ghost use Rattle.nc_restart.specs.History.{IsHistory};
ghost use Rattle.nc_restart.specs.Recovered.{IsRecovered};
ghost use Rattle.run_edits.specs.Made.{MakesEdits, records_of};
ghost use Rattle.run_edits.specs.Writing.{IsCalm, MayMake, MayTake, mark_size};

use disk_model::Disk;
use edit_texts::{EditList, PathEdit};
use gate_file::DiskFault;
use nc_number::Failing;
use nc_restart::Recovered;
use run_journal::{Journal, a_held_journal_leaves_its_records};
use run_records::Version;
use two_path::Machine;

/// What came of edits: the disk of the journal, and whether they were written.
#[derive(Drop)]
pub struct Made<D: Disk> {
    /// The disk, which is given back in any case.
    pub disk: D,
    /// Ok if all edits stand on the disk; else the fault, or that memory ran out.
    pub result: Result<(), Failing<DiskFault>>,
}

/// Whether the settings of a run allow a record more for each of the edits.
pub fn has_room<D: Disk>(run: &Recovered<D>, edits: &EditList) -> bool
    requires { IsRecovered D.state run.now.header run.now.verified
        run.now.machine.machine run.now.entries.items run.now.journal }
    ensures { result ≡ nat_le (length run.now.entries.items + length edits.now) run.now.verified.settings.records }
{
    run.entries.len() + edits.as_slice().len() <= run.verified.settings().records as usize
}

/// Makes edits in a run behind which no alarm stands, and gives the disk back. Without edits it
/// makes no call of the disk. Where there is no memory it makes none either.
pub fn make_edits<D: Disk>(run: Recovered<D>, edits: &EditList) -> Made<D>
    requires run { IsRecovered D.state run.header run.verified run.machine.machine run.entries.items run.journal }
    requires calm { run.machine.machine.alarm ≡ None }
    requires room { length run.entries.items + length edits.now ≤ run.verified.settings.records }
    // The records of the edits may follow those of the run.
    ensures history { IsHistory run.verified (run.entries.items ++ records_of edits.now) }
    ensures made { MakesEdits D.state run.header run.entries.items (records_of edits.now)
        run.journal.file.disk result.disk result.result }
{
    let Recovered {
        header: _,
        verified: _,
        machine,
        entries: _,
        journal,
    } = run;
    let mut machine = machine;
    let mut journal = journal;
    let result = make_all(&mut machine, &mut journal, edits.as_slice());
    Made {
        disk: journal.into_disk(),
        result,
    }
}

/// Makes all edits in the run of a machine and its journal.
fn make_all<D: Disk>(
    machine: &mut Machine,
    journal: &mut Journal<D>,
    edits: &[PathEdit],
) -> Result<(), Failing<DiskFault>>
    requires journal { MayTake (length edits.now) journal.old }
    requires machine { IsCalm (length edits.now) machine.old.machine }
    requires few { length edits.now ≤ MOST_PENDING }
    ensures { (header : Header) (found : List Entry)
        → ((bytes : List ℕ) → Reads (D.state journal.old.file.disk) bytes
        → Holds header journal.old.version found (D.state journal.old.file.disk) journal.old.file.end)
        → MakesEdits D.state header found (records_of edits.now) journal.old.file.disk journal.new.file.disk result }
{
    a_held_journal_leaves_its_records::<D>();
    if edits.is_empty() {
        return Ok(());
    }
    if machine.reserve(edits.len()).is_err() {
        return Err(Failing::NoMemory);
    }
    match write_edits(machine, journal, edits) {
        Ok(()) => Ok(()),
        Err(fault) => Err(Failing::Fault(fault)),
    }
}

/// Raises a journal of version 1, and writes a record for each of the edits, as one batch.
fn write_edits<D: Disk>(
    machine: &mut Machine,
    journal: &mut Journal<D>,
    edits: &[PathEdit],
) -> Result<(), DiskFault>
    requires journal { MayTake (length edits.now) journal.old }
    requires machine { MayMake (length edits.now) machine.old }
    requires few { length edits.now ≤ MOST_PENDING }
    ensures any_moment { (header : Header) (entries : List Entry)
        → Holds header journal.old.version entries (D.state journal.old.file.disk) journal.old.file.end
        → LeavesOnly (StandsEither header entries (records_of edits.now))
        (D.state journal.old.file.disk) (D.state journal.new.file.disk) }
    ensures whole { OnOk result ((header : Header) (entries : List Entry)
        → Holds header journal.old.version entries (D.state journal.old.file.disk) journal.old.file.end
        → (c : List ℕ) → (D.state journal.new.file.disk).image c → Stands header (entries ++ records_of edits.now) c) }
    ensures cause { HasCause (D.state journal.old.file.disk) (D.state journal.new.file.disk) result }
    ensures uses { Uses 8 (journal.old.file.end + mark_size journal.old.version + 6 + length (batch_bytes (records_of edits.now)))
        (D.state journal.old.file.disk) (D.state journal.new.file.disk) }
{
    a_held_journal_leaves_its_records::<D>();
    raise_first(journal)?;
    note_edits(machine, journal, edits);
    journal.flush()?;
    Ok(())
}

/// Raises a journal of version 1 to version 2, in which edits may stand; one of version 2 stays.
fn raise_first<D: Disk>(journal: &mut Journal<D>) -> Result<(), DiskFault>
    requires { MayTake 0 journal.old }
    ensures raised { OnOk result ((header : Header) (entries : List Entry)
        → Holds header journal.old.version entries (D.state journal.old.file.disk) journal.old.file.end
        → Holds header Version.Two entries (D.state journal.new.file.disk) journal.new.file.end) }
    ensures any_moment { (header : Header) (entries : List Entry)
        → Holds header journal.old.version entries (D.state journal.old.file.disk) journal.old.file.end
        → LeavesOnly (Stands header entries) (D.state journal.old.file.disk) (D.state journal.new.file.disk) }
    ensures version { OnOk result (journal.new.version ≡ Version.Two) }
    ensures batch { journal.new.batch ≡ journal.old.batch }
    ensures count { journal.new.count ≡ journal.old.count }
    ensures live { journal.new.file.live ≡ is_ok result }
    ensures end { OnOk result (journal.new.file.end ≤ journal.old.file.end + mark_size journal.old.version) }
    ensures cause { HasCause (D.state journal.old.file.disk) (D.state journal.new.file.disk) result }
    ensures uses { Uses 4 (journal.old.file.end + mark_size journal.old.version + 1) (D.state journal.old.file.disk) (D.state journal.new.file.disk) }
{
    a_held_journal_leaves_its_records::<D>();
    if journal.version() == Version::Two {
        return Ok(());
    }
    journal.raise()?;
    Ok(())
}

/// Has the machine make the record of each edit, which is then to be written.
fn note_edits<D: Disk>(machine: &mut Machine, journal: &mut Journal<D>, edits: &[PathEdit])
    requires journal { MayTake (length edits.now) journal.old }
    requires raised { journal.old.version ≡ Version.Two }
    requires machine { MayMake (length edits.now) machine.old }
    requires few { length edits.now ≤ MOST_PENDING }
    ensures pends { Pends Version.Two (records_of edits.now) journal.new.batch }
    ensures file { journal.new.file ≡ journal.old.file }
    ensures version { journal.new.version ≡ Version.Two }
{
    for what in edits {
        let entry = machine.edit(what.path, &what.edit);
        journal.add(&entry).unwrap();
    }
}
