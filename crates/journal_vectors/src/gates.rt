//! Tests of files of gates (gate_file): what is written, what an opening finds, and what a stop
//! leaves. rows.rt makes the calls of a row of these, and looks for bodies by `put_bodies`.
use crate::bytes::{bytes_of, put_digits};
use crate::rows::holds;
use disk_model::{Disk, FuseDisk, MemoryDisk};
use gate_file::{BodyList, GateFile, LONGEST_BODY};
use std::alloc::{AllocError, Global};
use std::test::Fail;

/// `HELD|DISK|CALLS|ANSWERS|LOOK CRASH FOUND, ..`. `create BODY, BODY` begins a file of the first
/// body and appends the others, `fill BODY, BODY; BODY` begins one of all bodies before the `;` at
/// once and appends those behind it, and `append BODY` opens the file and appends one. An opening
/// makes 4 calls of the disk, and an append a write, a sync, the write of the gate, and a sync. Of
/// a `list` each body has its length, and its bytes where they are few. The sizes of the long
/// bodies end just before, at and behind the end of a window of 65,536 bytes, and one is longer
/// than two.
const ROWS: &str = "\
|room 38|create 41, 01010100, 01020100, 0101010100000001|done done done done|bytes still FOUR 00
THREE 00 00000008 0101010100000001 00||||bodies still 3
THREE 01 00000008 0101010100000001 00||||bodies still 4
THREE 07 00000008 0101010100000001 00||||bodies still 4
THREE ff 00000008 0101010100000001 00||||bodies still 4
THREE 01 00000008 01||||bodies still cut short at 24
THREE 01 00000008 0101010100000001||||bodies still cut short at 24
THREE 01 0000||||bodies still cut short at 24
THREE||||bodies still cut short at 15
||||bodies still no run
01||||bodies still no run
00ffff||||bodies still no run
01 ffffffff||||bodies still cut short at 0
FOUR 00||||list still 4 bodies 1:41 4:01010100 4:01020100 8:0101010100000001 faults 0
FOUR 00|passes 4|append 01010100|failed|bodies kept 4, lost 4, sevens 4
FOUR 00|passes 5|append 01010100|failed|bodies kept 4, lost 4, sevens 4
FOUR 00|passes 6|append 01010100|failed|bodies kept 4, lost 4, sevens 4
FOUR 00|passes 7|append 01010100|failed|bodies kept 5, lost 4, sevens 5
FOUR 00|passes 8|append 01010100|done|bodies kept 5, lost 5, sevens 5
FOUR 00|fails 5|append 01010100|failed|bodies kept 4, lost 4, sevens 4
FOUR 00|fails 6|append 01010100|failed|bodies kept 4, lost 4, sevens 4
FOUR 00|fails 7|append 01010100|failed|bodies kept 4, lost 4, sevens 5
FOUR 00|fails 8|append 01010100|failed|bodies kept 5, lost 4, sevens 5
FOUR 00|fails 5|append 01010100|failed|bytes sevens FOUR 00 9x07
FOUR 00|fails 6|append 01010100|failed|bytes sevens FOUR 00 9x07
FOUR 00|fails 7|append 01010100|failed|bytes sevens FOUR 07 00000004 01010100 00
FOUR 00|fails 8|append 01010100|failed|bytes sevens FOUR 07 00000004 01010100 00
|fails 2|create 41|disk fault|bodies kept no run, lost no run, sevens no run
|fails 3|create 41|disk fault|bodies kept no run, lost no run, sevens no run
|fails 4|create 41|disk fault|bodies kept no run, lost no run, sevens no run
|fails 5|create 41|disk fault|bodies kept no run, lost no run, sevens no run
|fails 6|create 41|disk fault|bodies kept no run, lost no run, sevens no run
|fails 7|create 41|disk fault|bodies kept no run, lost no run, sevens 1
|fails 8|create 41|disk fault|bodies kept 1, lost no run, sevens 1
00ffff|fails 3|create 41|disk fault|bodies kept no run, lost no run, sevens no run
00ffff|fails 4|create 41|disk fault|bodies kept no run, lost no run, sevens no run
00ffff|fails 5|create 41|disk fault|bodies kept no run, lost no run, sevens no run
00ffff|fails 6|create 41|disk fault|bodies kept no run, lost no run, sevens 1
00ffff|fails 7|create 41|disk fault|bodies kept 1, lost no run, sevens 1
FOUR 00|fails 1|create 41|disk fault|bodies kept 4, lost 4, sevens 4
FOUR 00|fails 3|create 41|disk fault|bodies kept 4, lost 4, sevens 4
||create 41|done|bodies still 1
09||create 41|done|bodies still 1
00ffff||create 41|done|bodies still 1
FOUR 00||create 41|run there|bodies still 4
0700||create 41|run there|bytes still 0700
|room 300000|create 65526x41, 0102, 0304|done done done|list still 3 bodies 65526: 2:0102 2:0304 faults 0
|room 300000|create 65530x41, 0102, 0304|done done done|list still 3 bodies 65530: 2:0102 2:0304 faults 0
|room 300000|create 65531x41, 0102, 0304|done done done|list still 3 bodies 65531: 2:0102 2:0304 faults 0
|room 300000|create 65532x41, 0102, 0304|done done done|list still 3 bodies 65532: 2:0102 2:0304 faults 0
|room 300000|create 140000x41, 0102, 0304|done done done|list still 3 bodies 140000: 2:0102 2:0304 faults 0
|room 300000|create 0x41, 0102, 0304|done done done|list still 3 bodies 0: 2:0102 2:0304 faults 0
|room 300000|create 1x41, 0102, 0304|done done done|list still 3 bodies 1:41 2:0102 2:0304 faults 0
|room 7|fill 41|done|bytes still 01 00000001 41 00
|room 16|fill 41, 01010100|done|bytes still 01 00000001 41 01 00000004 01010100 00
|room 25|fill 41, 01010100, 01020100|done|bytes still THREE 00
|room 38|fill 41, 01010100, 01020100, 0101010100000001|done|bytes still FOUR 00
|room 38|fill 41, 01010100; 01020100, 0101010100000001|done done done|bytes still FOUR 00
|room 37|fill 41, 01010100, 01020100, 0101010100000001|disk fault|bodies still no run
||fill 41, 01010100, 01020100|done|list still 3 bodies 1:41 4:01010100 4:01020100 faults 0
09||fill 41, 42|done|bytes still 01 00000001 41 01 00000001 42 00
00ffff||fill 41, 42|done|bytes still 01 00000001 41 01 00000001 42 00
FOUR 00||fill 41, 42|run there|bytes still FOUR 00
0700||fill 41, 42|run there|bytes still 0700
|fails 1|fill 41, 42|disk fault|bodies kept no run, lost no run, sevens no run
|fails 2|fill 41, 42|disk fault|bodies kept no run, lost no run, sevens no run
|fails 3|fill 41, 42|disk fault|bodies kept no run, lost no run, sevens no run
|fails 4|fill 41, 42|disk fault|bodies kept no run, lost no run, sevens no run
|fails 5|fill 41, 42|disk fault|bodies kept no run, lost no run, sevens no run
|fails 6|fill 41, 42|disk fault|bodies kept no run, lost no run, sevens no run
|fails 7|fill 41, 42|disk fault|bodies kept no run, lost no run, sevens 2
|fails 8|fill 41, 42|disk fault|bodies kept 2, lost no run, sevens 2
|fails 7|fill 41, 42|disk fault|bytes sevens 07 00000001 41 01 00000001 42 00
00ffff|fails 5|fill 41, 42|disk fault|bodies kept no run, lost no run, sevens no run
00ffff|fails 6|fill 41, 42|disk fault|bodies kept no run, lost no run, sevens 2
00ffff|fails 7|fill 41, 42|disk fault|bodies kept 2, lost no run, sevens 2
FOUR 00|fails 1|fill 41, 42|disk fault|bytes kept FOUR 00, lost FOUR 00, sevens FOUR 00
FOUR 00|fails 3|fill 41, 42|disk fault|bytes kept FOUR 00, lost FOUR 00, sevens FOUR 00
|room 300000|fill 65532x41, 140000x41, 0x41, 0102|done|list still 4 bodies 65532: 140000: 0: 2:0102 faults 0";

/// The most bytes of a body of a row that a file is begun with.
const MOST_BYTES: usize = 200_000;

/// Appends a body as far as the file is live, and tells whether that was done. A file stays live
/// exactly where it was.
fn append(file: &mut GateFile<FuseDisk>, body: &[u8]) -> &'static str {
    if !file.is_live() || body.len() > LONGEST_BODY {
        return "refused";
    }
    let done = file.append(body).is_ok();
    if done != file.is_live() {
        return "neither";
    }
    if done { "done" } else { "failed" }
}

/// Opens the file on the disk, and appends the body.
pub(crate) fn appended(
    alloc: Global,
    said: &mut String,
    disk: FuseDisk,
    body: &str,
) -> Result<FuseDisk, Fail> {
    let body = bytes_of(alloc, body)?;
    match GateFile::open_file(alloc, disk) {
        Ok((file, _bodies)) => {
            let mut file = file;
            said.push_str(append(&mut file, body.as_slice()))?;
            Ok(file.into_disk())
        }
        Err((disk, fault)) => {
            write!(said, "{fault}")?;
            Ok(disk)
        }
    }
}

/// Appends the bodies, one behind the other.
fn append_all(
    alloc: Global,
    said: &mut String,
    file: &mut GateFile<FuseDisk>,
    bodies: &str,
) -> Result<(), AllocError> {
    for text in bodies.split(", ") {
        let body = bytes_of(alloc, text)?;
        said.push(' ')?;
        said.push_str(append(file, body.as_slice()))?;
    }
    Ok(())
}

/// Begins a file of the first body, and appends the others.
pub(crate) fn created(
    alloc: Global,
    said: &mut String,
    disk: FuseDisk,
    bodies: &str,
) -> Result<FuseDisk, Fail> {
    let (first, others) = bodies.split_once(", ").unwrap_or((bodies, ""));
    let body = bytes_of(alloc, first)?;
    if body.len() > MOST_BYTES {
        return Ok(disk);
    }
    match GateFile::create(alloc, disk, body.as_slice()) {
        Ok(file) => gone_on(alloc, said, file, others),
        Err((disk, fault)) => {
            write!(said, "{fault}")?;
            Ok(disk)
        }
    }
}

/// Tells that the file was begun, appends the other bodies, and gives the disk back.
fn gone_on(
    alloc: Global,
    said: &mut String,
    file: GateFile<FuseDisk>,
    others: &str,
) -> Result<FuseDisk, Fail> {
    let mut file = file;
    said.push_str("done")?;
    if !others.is_empty() {
        append_all(alloc, said, &mut file, others)?;
    }
    Ok(file.into_disk())
}

/// The bodies as a list.
fn list_of(alloc: Global, texts: &str) -> Result<BodyList, AllocError> {
    let mut bodies = BodyList::empty(alloc);
    bodies.reserve(2, 16)?;
    for text in texts.split(", ") {
        let body = bytes_of(alloc, text)?;
        if body.len() <= MOST_BYTES {
            bodies.push(body.as_slice())?;
        }
    }
    Ok(bodies)
}

/// Begins a file of all bodies before the `;` at once, and appends those behind it.
pub(crate) fn filled(
    alloc: Global,
    said: &mut String,
    disk: FuseDisk,
    bodies: &str,
) -> Result<FuseDisk, Fail> {
    let (first, others) = bodies.split_once("; ").unwrap_or((bodies, ""));
    let list = list_of(alloc, first)?;
    if list.is_empty() {
        return Ok(disk);
    }
    match GateFile::create_filled(alloc, disk, &list) {
        Ok(file) => gone_on(alloc, said, file, others),
        Err((disk, fault)) => {
            write!(said, "{fault}")?;
            Ok(disk)
        }
    }
}

/// The bodies, each with its length, and with its bytes where they are few.
fn put_list(out: &mut String, bodies: &BodyList) -> Result<(), AllocError> {
    out.push_str(" bodies")?;
    for index in 0..bodies.len() {
        let body = bodies.body(index);
        write!(out, " {}:", body.len())?;
        if body.len() <= 16 {
            put_digits(out, body)?;
        }
    }
    if bodies.get(bodies.len()).is_some() {
        out.push_str(" and more")?;
    }
    Ok(())
}

/// How many bodies an opened file has, or a list of them, and how often its disk failed.
fn put_opened(
    out: &mut String,
    bodies: &BodyList,
    look: &str,
    faults: u64,
) -> Result<(), AllocError> {
    write!(out, "{}", bodies.len())?;
    if look == "list" {
        put_list(out, bodies)?;
        write!(out, " faults {faults}")?;
    }
    Ok(())
}

/// What an opening finds, or why there are no bodies.
pub(crate) fn put_bodies(
    alloc: Global,
    out: &mut String,
    disk: MemoryDisk,
    look: &str,
) -> Result<(), AllocError> {
    match GateFile::open_file(alloc, disk) {
        Ok((file, bodies)) => put_opened(out, &bodies, look, file.into_disk().faults()),
        Err((_disk, fault)) => write!(out, "{fault}"),
    }
}

#[test]
fn a_stop_leaves_the_bodies_of_a_file_with_the_new_one_or_without(
    rt: HostRuntime,
) -> Result<(), Fail> {
    for row in ROWS.lines() {
        assert!(&rt; holds(rt.alloc(), row)?, "{row}");
    }
    Ok(())
}
