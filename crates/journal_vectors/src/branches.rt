//! Tests of branches (run_branch): what is written of a run up to one of its meetings, and what a
//! stop leaves. rows.rt makes the calls of a row of these by `branched`.
ghost use Rattle.run_records.specs.Headers.{IsShort};

use crate::bytes::bytes_of;
use crate::rows::holds;
use disk_model::FuseDisk;
use run_branch::branch;
use run_records::{EntryList, Header, take_entry, take_header};
use std::alloc::Global;
use std::test::Fail;

/// `HELD|DISK|CALLS|ANSWERS|LOOK CRASH FOUND, ..`. `branch 1 2 RECORD RECORD ..` makes a branch up
/// to the second meeting of a run with these records, whose header is of version 1; `63x010100` is
/// a record 63 times. Of a record `01` is path 1, and behind it `01` is a block, `02` an arrival at
/// a wait, `03` a meeting, and `04` the end; a last `00` says that it has no stamps. A new journal
/// takes 8 calls of the disk: a sync, a look at the length, a write of the shut gate, a sync, a
/// write of all that stands behind it, a sync, the write of the gate, and a sync. Where a shut gate
/// is there, a look at it stands for the two calls that write it.
const ROWS: &str = "\
|room 1000|branch 1 0 010200 020300 010100 020200 010300 010200 020300 010400|0 records|bytes still BRANCHED 00
|room 1000|branch 1 1 010200 020300 010100 020200 010300 010200 020300 010400|2 records|bytes still BRANCHED 01 00000007 02 010200 020300 00
|room 1000|branch 1 2 010200 020300 010100 020200 010300 010200 020300 010400|5 records|bytes still BRANCHED 01 00000010 05 010200 020300 010100 020200 010300 00
|room 1000|branch 1 3 010200 020300 010100 020200 010300 010200 020300 010400|7 records|bytes still BRANCHED 01 00000016 07 010200 020300 010100 020200 010300 010200 020300 00
|room 1000|branch 1 4 010200 020300 010100 020200 010300 010200 020300 010400|no meeting|bytes still
|room 1000|branch 1 4294967295 010200 020300|no meeting|bytes still
|room 1000|branch 1 1 010100 010400 020500|no meeting|bytes still
|room 1000|branch 1 1|no meeting|bytes still
|room 1000|branch 1 0|0 records|bytes still BRANCHED 00
|room 1000 passes 0|branch 1 4 010200 020300 010400|no meeting|bytes still
|room 1000 passes 0|branch 1 1 010200 020300 010400|disk fault|bytes still
|room 1000|branch 1 1 010300 010400|1 records|bytes still BRANCHED 01 00000004 01 010300 00
|room 1000|branch 1 1 02010100000001 010200 020300|3 records|bytes still BRANCHED 01 0000000e 03 02010100000001 010200 020300 00
|room 1000|branch 2 1 SEVEN 010200 020300 G54|3 records|bytes still BRANCHED 01 0000001c 03 SEVEN 010200 020300 00
|room 1000|branch 1 1 010100 SEVEN 010200 020300|4 records|bytes still BRANCHED 01 0000001f 04 010100 SEVEN 010200 020300 00
|room 1000|branch 1 1 010200 020300|2 records|version still 2
|room 1000|branch 1 1 62x010100 010200 020300|64 records|bytes still BRANCHED 01 000000c1 40 62x010100 010200 020300 00
|room 1000|branch 1 1 63x010100 010200 020300|65 records|bytes still BRANCHED 01 000000c1 40 63x010100 010200 01 00000004 01 020300 00
|room 1000|branch 1 1 128x010100 010200 020300|130 records|bytes still BRANCHED 01 000000c1 40 64x010100 01 000000c1 40 64x010100 01 00000007 02 010200 020300 00
BRANCHED 00||branch 1 1 010200 020300|run there|bytes still BRANCHED 00
HEADER 01 00000004 01010100 00||branch 1 1 010200 020300|run there|bytes still HEADER 01 00000004 01010100 00
HEADER 00||branch 1 2 010200 020300|no meeting|bytes still HEADER 00
HEADER 00|fails 1|branch 1 1 010200 020300|disk fault|records kept 0, lost 0, sevens 0
HEADER 00|fails 3|branch 1 1 010200 020300|disk fault|records kept 0, lost 0, sevens 0
0700||branch 1 1 010200 020300|run there|bytes still 0700
07||branch 1 1 010200 020300|2 records|bytes still BRANCHED 01 00000007 02 010200 020300 00
00ffff||branch 1 1 010200 020300|2 records|bytes still BRANCHED 01 00000007 02 010200 020300 00
|room 1000 passes 1|branch 1 1 63x010100 010200 020300|disk fault|records kept no run, lost no run, sevens no run
|room 1000 passes 2|branch 1 1 63x010100 010200 020300|disk fault|records kept no run, lost no run, sevens no run
|room 1000 passes 3|branch 1 1 63x010100 010200 020300|disk fault|records kept no run, lost no run, sevens no run
|room 1000 passes 4|branch 1 1 63x010100 010200 020300|disk fault|records kept no run, lost no run, sevens no run
|room 1000 passes 5|branch 1 1 63x010100 010200 020300|disk fault|records kept no run, lost no run, sevens no run
|room 1000 passes 6|branch 1 1 63x010100 010200 020300|disk fault|records kept no run, lost no run, sevens no run
|room 1000 passes 7|branch 1 1 63x010100 010200 020300|disk fault|records kept 65, lost no run, sevens 65
|room 1000 passes 8|branch 1 1 63x010100 010200 020300|65 records|records kept 65, lost 65, sevens 65
|room 1000 fails 5|branch 1 1 63x010100 010200 020300|disk fault|records kept no run, lost no run, sevens no run
|room 1000 fails 6|branch 1 1 63x010100 010200 020300|disk fault|records kept no run, lost no run, sevens no run
|room 1000 fails 7|branch 1 1 63x010100 010200 020300|disk fault|records kept no run, lost no run, sevens 65
|room 1000 fails 8|branch 1 1 63x010100 010200 020300|disk fault|records kept 65, lost no run, sevens 65
00ffff|fails 4|branch 1 1 63x010100 010200 020300|disk fault|records kept no run, lost no run, sevens no run
00ffff|fails 6|branch 1 1 63x010100 010200 020300|disk fault|records kept no run, lost no run, sevens 65
00ffff|fails 7|branch 1 1 63x010100 010200 020300|disk fault|records kept 65, lost no run, sevens 65";

/// Puts the record that stands in front into the list, if there is one.
fn put_record(list: &mut EntryList, bytes: &[u8]) -> Result<(), Fail> {
    list.reserve(1)?;
    if let Ok((entry, _size)) = take_entry(bytes) {
        list.push(entry);
    }
    Ok(())
}

/// Puts the record that the word writes into the list, as often as the number before the `x` says,
/// at most 200 times.
fn put_word(alloc: Global, list: &mut EntryList, word: &str) -> Result<(), Fail> {
    let (times, digits) = word.split_once('x').unwrap_or(("1", word));
    let bytes = bytes_of(alloc, digits)?;
    for _time in 0..times.parse::<u32>().unwrap_or(0).min(200) {
        put_record(list, bytes.as_slice())?;
    }
    Ok(())
}

/// The records that the words write.
fn entries_of(alloc: Global, words: &str) -> Result<EntryList, Fail> {
    let mut list = EntryList::empty(alloc);
    for word in words.split(' ') {
        put_word(alloc, &mut list, word)?;
    }
    Ok(list)
}

/// Makes a branch on the disk, and puts how many records it has, or why there is none.
fn made(
    alloc: Global,
    said: &mut String,
    disk: FuseDisk,
    header: &Header,
    entries: &EntryList,
    n: u32,
) -> Result<FuseDisk, Fail>
    requires { IsShort header.now }
{
    if entries.len() > 1000 {
        return Ok(disk);
    }
    match branch(alloc, header, entries, disk, n) {
        Ok((disk, count)) => {
            write!(said, "{count} records")?;
            Ok(disk)
        }
        Err((disk, fault)) => {
            write!(said, "{fault}")?;
            Ok(disk)
        }
    }
}

/// Makes a branch on the disk of a run of these records.
pub(crate) fn branched(
    alloc: Global,
    said: &mut String,
    disk: FuseDisk,
    run: &str,
) -> Result<FuseDisk, Fail> {
    let (version, rest) = run.split_once(' ').unwrap_or((run, ""));
    let (n, words) = rest.split_once(' ').unwrap_or((rest, ""));
    let mark = if version == "1" {
        "5457494e0001 SHORT"
    } else {
        "5457494e0002 SHORT"
    };
    let bytes = bytes_of(alloc, mark)?;
    let header = take_header(alloc, bytes.as_slice())?;
    let entries = entries_of(alloc, words)?;
    made(
        alloc,
        said,
        disk,
        &header,
        &entries,
        n.parse().unwrap_or(u32::MAX),
    )
}

#[test]
fn a_stop_leaves_a_branch_in_whole_or_no_run(rt: HostRuntime) -> Result<(), Fail> {
    for row in ROWS.lines() {
        assert!(&rt; holds(rt.alloc(), row)?, "{row}");
    }
    Ok(())
}
