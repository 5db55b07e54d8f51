//! Tests of a crash in a run: a journal in batches of one record and of three, with an edit, is
//! stopped after a number of calls of its disk, and is then recovered.
ghost use Rattle.std.specs.Prelude.{◌≡◌, None};
ghost use Rattle.run_records.specs.Entries.{edit_of};
ghost use Rattle.run_records.specs.Headers.{IsShort};

use crate::run::recovered;
use crate::step_rows::header_of_blocks;
use common_vars::CommonNumber;
use disk_model::{Crash, Disk, FuseDisk, MemoryDisk};
use nc_number::{MOST_PENDING, Path, Value, Var};
use run_journal::Journal;
use run_records::{Edit, Entry, EntryKind, Header, StampList, Version};
use std::alloc::Global;
use std::test::Fail;

/// A row: the version of the journal, after how many calls the disk stops, and what is recovered
/// after a crash that keeps what was written, one that loses it, and one that fills it. The
/// beginning makes 8 calls, and each flush 4: a write, a sync, a write of the gate, and a sync. The
/// mark that raises a journal of version 1 makes 4 too, and changes no history.
const ROWS: &str = "\
2 0|no run|no run|no run
2 7||no run|
2 10|||
2 11|1 did 0||1 did 0
2 13|1 did 0|1 did 0|1 did 0
2 15|1 did 0, 1 edits #500 7000000|1 did 0|1 did 0, 1 edits #500 7000000
2 17|1 did 0, 1 edits #500 7000000|1 did 0, 1 edits #500 7000000|1 did 0, 1 edits #500 7000000
2 19|1 did 0, 1 edits #500 7000000, 2 did 2, 1 ended, 2 ended|1 did 0, 1 edits #500 7000000|1 did 0, 1 edits #500 7000000, 2 did 2, 1 ended, 2 ended
2 20|1 did 0, 1 edits #500 7000000, 2 did 2, 1 ended, 2 ended|1 did 0, 1 edits #500 7000000, 2 did 2, 1 ended, 2 ended|1 did 0, 1 edits #500 7000000, 2 did 2, 1 ended, 2 ended
1 7||no run|
1 11|1 did 0||1 did 0
1 14|1 did 0|1 did 0|1 did 0
1 15|1 did 0|1 did 0|1 did 0
1 17|1 did 0|1 did 0|1 did 0
1 19|1 did 0, 1 edits #500 7000000|1 did 0|1 did 0, 1 edits #500 7000000
1 20|1 did 0, 1 edits #500 7000000|1 did 0, 1 edits #500 7000000|1 did 0, 1 edits #500 7000000
1 23|1 did 0, 1 edits #500 7000000, 2 did 2, 1 ended, 2 ended|1 did 0, 1 edits #500 7000000|1 did 0, 1 edits #500 7000000, 2 did 2, 1 ended, 2 ended
1 24|1 did 0, 1 edits #500 7000000, 2 did 2, 1 ended, 2 ended|1 did 0, 1 edits #500 7000000, 2 did 2, 1 ended, 2 ended|1 did 0, 1 edits #500 7000000, 2 did 2, 1 ended, 2 ended";

/// Adds a record of a step of this kind to those that pend, with this stamp if there is one.
fn add<D: Disk>(journal: &mut Journal<D>, path: Path, kind: EntryKind, stamp: Option<u32>)
    requires { edit_of kind ≡ None }
{
    let mut stamps = StampList::empty();
    if let Some(stamp) = stamp {
        stamps.push(stamp);
    }
    if journal.is_live() && journal.pending() < MOST_PENDING {
        let _full = journal.add(&Entry::of_step(path, kind, stamps));
    }
}

/// Adds an edit to the records that pend: #500 of path 1 gets 7.
fn add_edit<D: Disk>(journal: &mut Journal<D>) {
    if journal.is_live() && journal.pending() < MOST_PENDING && journal.version() == Version::Two {
        let edit = Edit::Common {
            variable: CommonNumber::new(500),
            to: Value::of_units(7).map_or(Var::Vacant, |value| Var::Is(value)),
        };
        let _full = journal.add(&Entry::of_edit(Path::One, &edit));
    }
}

/// Raises a journal of version 1, as far as the disk lets it.
fn raise<D: Disk>(journal: &mut Journal<D>) {
    if journal.is_live() && journal.pending() == 0 && journal.version() == Version::One {
        let _failed = journal.raise();
    }
}

/// Writes the records that pend, as far as the disk lets it.
fn flush<D: Disk>(journal: &mut Journal<D>) {
    if journal.is_live() {
        let _failed = journal.flush();
    }
}

/// Writes the run of both tapes, which is edited after its first record, as far as the disk lets
/// it.
fn put_run<D: Disk>(journal: &mut Journal<D>) {
    add(journal, Path::One, EntryKind::Did, Some(0));
    flush(journal);
    raise(journal);
    add_edit(journal);
    flush(journal);
    add(journal, Path::Two, EntryKind::Did, Some(2));
    add(journal, Path::One, EntryKind::Ended, None);
    add(journal, Path::Two, EntryKind::Ended, None);
    flush(journal);
}

/// The disk after a run was written on it.
fn disk_of_run(alloc: Global, disk: FuseDisk, header: &Header) -> FuseDisk
    requires { IsShort header.now }
{
    match Journal::begin(alloc, disk, header) {
        Err((disk, _fault)) => disk,
        Ok(begun) => {
            let mut journal = begun;
            put_run(&mut journal);
            journal.into_disk()
        }
    }
}

/// What is recovered if the disk stops after so many calls, and then comes a crash.
fn history_left(alloc: Global, header: &Header, passes: u64, pick: Crash) -> Result<String, Fail>
    requires { IsShort header.now }
{
    let disk = MemoryDisk::new(alloc, 1_000, 100, &[])?;
    let stopped = disk_of_run(alloc, FuseDisk::new(disk, passes), header);
    recovered(alloc, stopped.into_inner().crash(pick).bytes())
}

/// What is recovered after each of the three crashes, as a row has it.
fn row_found(alloc: Global, header: &Header, start: &str) -> Result<String, Fail>
    requires { IsShort header.now }
{
    let (_, passes) = start.split_once(' ').ok_or("a version and calls")?;
    let passes = passes.parse::<u64>()?;
    let kept = history_left(alloc, header, passes, Crash::Kept)?;
    let lost = history_left(alloc, header, passes, Crash::Lost)?;
    let filled = history_left(alloc, header, passes, Crash::Fill(7))?;
    Ok(format!(in alloc; "{start}|{kept}|{lost}|{filled}")?)
}

/// The row as it is found: what is recovered of its journals, after what the row begins with.
fn found(alloc: Global, row: &str) -> Result<String, Fail> {
    let version = if row.starts_with('1') {
        Version::One
    } else {
        Version::Two
    };
    let (start, _) = row.split_once('|').unwrap_or((row, ""));
    match header_of_blocks(alloc, version, "", "#500=#500+1~M30", "#500=#500+1~M30") {
        Ok(header) => row_found(alloc, &header, start),
        Err(fail) => Err(fail),
    }
}

#[test]
fn a_stop_leaves_a_run_that_is_recovered(rt: HostRuntime) -> Result<(), Fail> {
    let alloc = rt.alloc();
    for row in ROWS.lines() {
        assert_eq!(&rt; found(alloc, row)?.as_str(), row);
    }
    Ok(())
}
