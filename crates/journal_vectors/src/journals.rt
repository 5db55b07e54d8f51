//! Tests of journals (run_journal): where each record stands, why a journal is refused, and what a
//! stop leaves. rows.rt makes the calls of a row of these, and looks for records by `put_records`.
ghost use Rattle.run_records.specs.Headers.{IsShort};

use crate::bytes::bytes_of;
use crate::rows::holds;
use common_vars::CommonNumber;
use disk_model::{FuseDisk, MemoryDisk};
use nc_number::{Path, Value, Var};
use run_journal::{Journal, Opened, open_journal};
use run_records::{Edit, Entry, EntryKind, Header, StampList, Version, take_header};
use std::alloc::{AllocError, Global};
use std::test::Fail;

/// `HELD|DISK|CALLS|ANSWERS|LOOK CRASH FOUND, ..`. A header has 64 bytes, so that the body behind
/// it stands at 74. `journal 1 2` begins a journal and writes a batch of one record and then one of
/// two; its answers are for each batch how many records were to be written, whether they were, and
/// how many were then still to be written, and how many records the journal counts. `raise` raises
/// the journal, and `edit` writes a batch of one edit. The beginning makes 8 calls of the disk, and
/// each batch and the raising mark 4: a write, a sync, a write of the gate, and a sync.
const ROWS: &str = "\
HEADER 01 00000000 00||||records still bad record at 74: wrong count
HEADER 01 00000001 00 00||||records still bad record at 74: wrong count
HEADER 01 000000c4 41 65x010100 00||||records still bad record at 74: wrong count
HEADER 01 00000004 01030100 00||||records still bad record at 75: no path
HEADER 01 00000004 01010600 00||||records still bad record at 75: no kind
HEADER 01 00000088 01010121 132x00 00||||records still bad record at 75: too many stamps
HEADER 01 00000003 010101 00||||records still bad record at 75: wrong length
HEADER 01 00000001 01 00||||records still bad record at 75: wrong length
HEADER 01 00000005 0101010000 00||||records still bad record at 74: wrong length
HEADER 01 00000004 02010100 00||||records still bad record at 78: wrong length
HEADER 01 00000005 0201010003 00||||records still bad record at 78: no path
HEADER 01 00000004 01010100 01 00000004 01030100 01 00000001 00 00||||records still bad record at 84: no path
01 00000040 5457494e0009 TEXTS 01 00000004 01030100 00||||records still bad record at 5: no header
01 00000040 5457494e0003 TEXTS 01 00000004 01030100 00||||records still bad record at 5: no header
HEADER 01 00000004 010301||||records still cut short at 69
HEADER 01 00000016 01 SEVEN 00||||records still bad record at 75: no kind
HEADER 01 00000003 010106 00||||records still bad record at 75: no kind
HEADER 01 00000003 010306 00||||records still bad record at 75: no path
HEADER 01 00000016 01 010605 0001 16x00 00||||records still bad record at 75: no kind
HEADER 01 00000019 02 010100 SEVEN 00||||records still bad record at 78: no kind
HEADER 01 00000003 ff0002 00||||offsets still 0 at left 23 count 0 pending 0 live true version 2
HEADER 01 00000003 ff0002 01 00000016 01 SEVEN 00||||offsets still 1 at 83 left 23 count 1 pending 0 live true version 2
HEADER 01 00000004 01010100 01 00000003 ff0002 01 00000016 01 SEVEN 00||||offsets still 2 at 75 92 left 23 count 2 pending 0 live true version 2
HEADER 01 00000003 ff0002 01 00000016 01 010605 0001 16x00 00||||records still bad record at 83: bad edit
HEADER 01 00000003 ff0002 01 00000003 ff0002 00||||records still bad record at 82: wrong count
HEADER 01 00000003 ff0002 01 00000004 01010100 01 00000003 ff0002 00||||records still bad record at 91: wrong count
HEADER 01 00000003 ff0001 00||||records still bad record at 74: wrong count
HEADER 01 00000002 ff00 00||||records still bad record at 74: wrong count
HEADER 01 00000004 ff000200 00||||records still bad record at 74: wrong count
HEADER2 01 00000003 ff0002 00||||records still bad record at 74: wrong count
HEADER2 00||||offsets still 0 at left 23 count 0 pending 0 live true version 2
HEADER2 01 0000002b 02 G54 SEVEN 00||||offsets still 2 at 75 96 left 23 count 2 pending 0 live true version 2
HEADER2 01 0000002e 03 G54 010100 SEVEN 00||||offsets still 3 at 75 96 99 left 23 count 3 pending 0 live true version 2
HEADER2 01 00000016 01 010605 0001 16x00 00||||records still bad record at 75: bad edit
HEADER2 01 0000002b 02 G54 010604 01f4 8x00 0000000000000001 00||||records still bad record at 96: bad edit
HEADER2 01 0000002a 02 G54 010604 01f4 15x00 00||||records still bad record at 96: wrong length
HEADER2 01 00000003 010106 00||||records still bad record at 75: wrong length
HEADER2 01 00000004 01010700 00||||records still bad record at 75: no kind
HEADER2 01 00000017 01 SEVEN 00 00||||records still bad record at 74: wrong length
HEADER2 01 00000541 40 64xSEVEN 00||||records still 64
||||records still no run
01||||records still no run
00ffff||||records still no run
HEADER 01 00000004 01010100 01 0000000e 03 010100 02010100000001 020100 01 00000004 01020400 00||||offsets still 5 at 75 84 87 94 103 left 23 count 5 pending 0 live true version 1
|room 1000|journal 64 0|64 done 0 0 done 0 count 64|bytes still HEADER 01 000000c1 40 64x010100 00
HEADER 01 000000c1 40 64x010100 00||journal 64 0|run there|records still 64
|room 1000 passes 0|journal 1 2|disk fault|records kept no run, lost no run, sevens no run
|room 1000 passes 6|journal 1 2|disk fault|records kept no run, lost no run, sevens no run
|room 1000 passes 7|journal 1 2|disk fault|records kept 0, lost no run, sevens 0
|room 1000 passes 8|journal 1 2|1 failed 1 1 failed 1 count 1|records kept 0, lost 0, sevens 0
|room 1000 passes 10|journal 1 2|1 failed 1 1 failed 1 count 1|records kept 0, lost 0, sevens 0
|room 1000 passes 11|journal 1 2|1 failed 1 1 failed 1 count 1|records kept 1, lost 0, sevens 1
|room 1000 passes 12|journal 1 2|1 done 0 2 failed 2 count 3|records kept 1, lost 1, sevens 1
|room 1000 passes 13|journal 1 2|1 done 0 2 failed 2 count 3|records kept 1, lost 1, sevens 1
|room 1000 passes 14|journal 1 2|1 done 0 2 failed 2 count 3|records kept 1, lost 1, sevens 1
|room 1000 passes 15|journal 1 2|1 done 0 2 failed 2 count 3|records kept 3, lost 1, sevens 3
|room 1000 passes 16|journal 1 2|1 done 0 2 done 0 count 3|records kept 3, lost 3, sevens 3
|room 1000|journal 1 raise edit|1 done 0 raised 1 done 0 count 2|bytes still HEADER 01 00000004 01010100 01 00000003 ff0002 01 00000016 01 SEVEN 00
|room 1000|journal edit|0 done 0 count 0|bytes still HEADER 00
|room 1000|journal raise raise|raised not raised count 0|bytes still HEADER 01 00000003 ff0002 00
|room 1000 passes 12|journal 1 raise edit|1 done 0 not raised 0 failed 0 count 1|version kept 1, lost 1, sevens 1
|room 1000 passes 14|journal 1 raise edit|1 done 0 not raised 0 failed 0 count 1|version kept 1, lost 1, sevens 1
|room 1000 passes 15|journal 1 raise edit|1 done 0 not raised 0 failed 0 count 1|version kept 2, lost 1, sevens 2
|room 1000 passes 15|journal 1 raise edit|1 done 0 not raised 0 failed 0 count 1|records kept 1, lost 1, sevens 1
|room 1000 passes 16|journal 1 raise edit|1 done 0 raised 1 failed 1 count 2|version kept 2, lost 2, sevens 2
|room 1000 passes 16|journal 1 raise edit|1 done 0 raised 1 failed 1 count 2|records kept 1, lost 1, sevens 1
|room 1000 passes 19|journal 1 raise edit|1 done 0 raised 1 failed 1 count 2|records kept 2, lost 1, sevens 2";

/// One record more is to be written, of path 1 and without a stamp.
fn add_one(journal: &mut Journal<FuseDisk>) {
    if journal.is_live() && journal.pending() < 64 {
        let entry = Entry::of_step(Path::One, EntryKind::Did, StampList::empty());
        let _full = journal.add(&entry);
    }
}

/// One edit more is to be written, if there may be edits: #500 of path 1 gets 7.
fn add_edit(journal: &mut Journal<FuseDisk>) {
    if journal.is_live() && journal.pending() < 64 && journal.version() == Version::Two {
        let edit = Edit::Common {
            variable: CommonNumber::new(500),
            to: Value::of_units(7).map_or(Var::Vacant, |value| Var::Is(value)),
        };
        let _full = journal.add(&Entry::of_edit(Path::One, &edit));
    }
}

/// Writes what is to be written, and tells whether it could.
fn flush_all(journal: &mut Journal<FuseDisk>) -> &'static str {
    if journal.is_live() && journal.flush().is_ok() {
        "done"
    } else {
        "failed"
    }
}

/// Raises the journal, and tells whether it did.
fn raised(journal: &mut Journal<FuseDisk>) -> &'static str {
    if journal.is_live()
        && journal.version() == Version::One
        && journal.pending() == 0
        && journal.raise().is_ok()
    {
        "raised"
    } else {
        "not raised"
    }
}

/// Writes a batch of so many records, or of one edit, and puts what became of it.
fn put_batch(
    said: &mut String,
    journal: &mut Journal<FuseDisk>,
    batch: &str,
) -> Result<(), AllocError> {
    if batch == "edit" {
        add_edit(journal);
    }
    for _ in 0..batch.parse::<u64>().unwrap_or(0).min(64) {
        add_one(journal);
    }
    let before = journal.pending();
    let done = flush_all(journal);
    let after = journal.pending();
    write!(said, "{before} {done} {after} ")
}

/// Writes batches of so many records each, and puts what became of them.
fn put_batches(
    said: &mut String,
    journal: &mut Journal<FuseDisk>,
    batches: &str,
) -> Result<(), AllocError> {
    for batch in batches.split(' ') {
        if batch == "raise" {
            write!(said, "{} ", raised(journal))?;
        } else {
            put_batch(said, journal, batch)?;
        }
    }
    write!(said, "count {}", journal.count())
}

/// Begins a journal of this header on the disk, and writes the batches as far as the disk lets it.
fn begun(
    alloc: Global,
    said: &mut String,
    disk: FuseDisk,
    header: &Header,
    batches: &str,
) -> Result<FuseDisk, Fail>
    requires { IsShort header.now }
{
    match Journal::begin(alloc, disk, header) {
        Err((disk, fault)) => {
            write!(said, "{fault}")?;
            Ok(disk)
        }
        Ok(begun) => {
            let mut journal = begun;
            put_batches(said, &mut journal, batches)?;
            Ok(journal.into_disk())
        }
    }
}

/// Begins a journal on the disk, and writes the batches.
pub(crate) fn recorded(
    alloc: Global,
    said: &mut String,
    disk: FuseDisk,
    batches: &str,
) -> Result<FuseDisk, Fail> {
    let bytes = bytes_of(alloc, "5457494e0001 TEXTS")?;
    let header = take_header(alloc, bytes.as_slice())?;
    begun(alloc, said, disk, &header, batches)
}

/// Where each record of an opened journal stands, and what else it knows.
fn put_offsets(out: &mut String, opened: &Opened<MemoryDisk>) -> Result<(), AllocError> {
    out.push_str(" at")?;
    for offset in opened.offsets.as_slice() {
        write!(out, " {offset}")?;
    }
    let left = opened.header.left.as_slice().len();
    let count = opened.journal.count();
    let pending = opened.journal.pending();
    let live = opened.journal.is_live();
    let version = opened.journal.version().number();
    write!(
        out,
        " left {left} count {count} pending {pending} live {live} version {version}"
    )
}

/// How many records an opened journal has, and where they stand if that is looked for; or its
/// version.
fn put_opened(out: &mut String, opened: &Opened<MemoryDisk>, look: &str) -> Result<(), AllocError> {
    if look == "version" {
        return write!(out, "{}", opened.journal.version().number());
    }
    write!(out, "{}", opened.entries.len())?;
    if look == "offsets" {
        put_offsets(out, opened)?;
    }
    Ok(())
}

/// What an opening finds, or why there is no journal.
pub(crate) fn put_records(
    alloc: Global,
    out: &mut String,
    disk: MemoryDisk,
    look: &str,
) -> Result<(), AllocError> {
    match open_journal(alloc, disk) {
        Ok(opened) => put_opened(out, &opened, look),
        Err((_disk, fault)) => write!(out, "{fault}"),
    }
}

#[test]
fn a_stop_leaves_a_batch_in_whole_or_not_and_a_bad_one_is_refused(
    rt: HostRuntime,
) -> Result<(), Fail> {
    for row in ROWS.lines() {
        assert!(&rt; holds(rt.alloc(), row)?, "{row}");
    }
    Ok(())
}
