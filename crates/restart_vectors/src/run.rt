//! A run of a header's pair on a disk in memory, to its end or after its recovery.
//! The rows of this crate use it.
ghost use Rattle.run_records.specs.Headers.{IsShort};
ghost use Rattle.nc_restart.specs.Recovered.{IsRecovered};
ghost use Rattle.run_table.specs.Kept.{IsVerdictOf};

use crate::record_text::history_text;
use crate::texts::pair_of;
use crate::turns::{Count, step_on};
use disk_model::{Disk, FuseDisk, MemoryDisk};
use nc_restart::{Recovered, RestartFault, recover};
use nc_verify::Verified;
use run_records::{EntryList, Header};
use run_table::{Parts, Table};
use std::alloc::{AllocError, Global};
use std::test::Fail;

/// A disk of these bytes, which lets so many calls pass.
fn disk_of(alloc: Global, bytes: &[u8], passes: u64) -> Result<FuseDisk, Fail> {
    let disk = MemoryDisk::of_bytes(alloc, bytes.to_vec(alloc)?, 10_000, &[])?;
    Ok(FuseDisk::new(disk, passes))
}

/// A table of a run of the pair that begins on the disk, or the disk if it fails.
fn begun<D: Disk>(alloc: Global, pair: Verified, header: &Header, disk: D) -> Result<Table<D>, D>
    requires short { IsShort header.now }
    requires verdict { IsVerdictOf header.now pair }
{
    match Table::begin(alloc, pair, disk, header) {
        Ok(table) => Ok(table),
        Err((disk, _fault)) => Err(disk),
    }
}

/// A table of a run of the header's pair that begins on the disk, or the disk if it fails.
pub(crate) fn begun_on<D: Disk + Drop>(
    alloc: Global,
    header: &Header,
    disk: D,
) -> Result<Result<Table<D>, D>, Fail>
    requires { IsShort header.now }
{
    match pair_of(alloc, header) {
        Ok(pair) => Ok(begun(alloc, pair, header, disk)),
        Err(fail) => Err(fail),
    }
}

/// Runs the table until it stops, or both paths have ended.
fn run_on<D: Disk>(table: &mut Table<D>, from: Count) -> Result<Count, Fail> {
    table.prepare(1_000)?;
    Ok(step_on(table, from))
}

/// The disk that is left of a table.
pub(crate) fn disk_left<D: Disk>(table: Table<D>) -> D {
    let Parts {
        verified: _,
        machine: _,
        entries: _,
        halt: _,
        disk,
    } = table.into_parts();
    disk
}

/// The history that is left of a table.
fn history_left<D: Disk + Drop>(alloc: Global, table: Table<D>) -> Result<String, AllocError> {
    history_text(alloc, &table.into_parts().entries)
}

/// The history of a table after its run has gone to its end.
fn finished<D: Disk + Drop>(alloc: Global, table: Table<D>, from: Count) -> Result<String, Fail> {
    let mut table = table;
    let ran = run_on(&mut table, from);
    let history = history_left(alloc, table);
    let _count = ran?;
    Ok(history?)
}

/// The history of a run that begins on this disk and goes to its end.
fn run_whole(alloc: Global, header: &Header, bytes: &[u8]) -> Result<String, Fail>
    requires { IsShort header.now }
{
    match begun_on(alloc, header, disk_of(alloc, bytes, 1_000_000)?)? {
        Ok(table) => finished(alloc, table, Count::of(&EntryList::empty(alloc))),
        Err(_disk) => Err(Fail::new("no run begins")),
    }
}

/// The table of a run that was recovered.
fn table_of<D: Disk>(run: Recovered<D>) -> Table<D>
    requires { IsRecovered D.state run.header run.verified run.machine.machine run.entries.items run.journal }
{
    let Recovered {
        header: _,
        verified,
        machine,
        entries,
        journal,
    } = run;
    Table::from_recovered(verified, machine, entries, journal)
}

/// The history of a run that goes on after its recovery, to its end.
fn went_on<D: Disk + Drop>(alloc: Global, run: Recovered<D>) -> Result<String, Fail>
    requires { IsRecovered D.state run.header run.verified run.machine.machine run.entries.items run.journal }
{
    let from = Count::of(&run.entries);
    finished(alloc, table_of(run), from)
}

/// The history to which a restart over these bytes comes. If they hold no run, a new one begins.
pub(crate) fn restarted(alloc: Global, header: &Header, bytes: &[u8]) -> Result<String, Fail>
    requires { IsShort header.now }
{
    match recover(alloc, disk_of(alloc, bytes, 1_000_000)?) {
        Ok(run) => went_on(alloc, run),
        Err((_disk, RestartFault::NoRun)) => run_whole(alloc, header, bytes),
        Err((_disk, fault)) => Err(Fail::new(format_args!("{fault}"))),
    }
}

/// The history that these bytes hold, or the cause for which there is none.
pub(crate) fn recovered(alloc: Global, bytes: &[u8]) -> Result<String, Fail> {
    match recover(alloc, disk_of(alloc, bytes, 1_000_000)?) {
        Ok(run) => Ok(history_found(alloc, run)?),
        Err((_disk, fault)) => Ok(format!(in alloc; "{fault}")?),
    }
}

/// The history of a run that was recovered.
fn history_found(alloc: Global, run: Recovered<FuseDisk>) -> Result<String, AllocError> {
    history_text(alloc, &run.entries)
}
