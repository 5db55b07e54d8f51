//! A row of a table of tests that speaks of one disk, and whether what it says holds. The tables of
//! disks.rt, gates.rt, journals.rt and branches.rt are tried by `holds`.
use crate::branches::branched;
use crate::bytes::bytes_of;
use crate::devices::{disk_of, left_of};
use crate::disks::put_answers;
use crate::gates::{appended, created, filled, put_bodies};
use crate::journals::{put_records, recorded};
use disk_model::{Disk, FuseDisk, MemoryDisk};
use std::alloc::{AllocError, Global};
use std::test::Fail;

/// The parts between the strokes of a row. Those that are not there are empty.
pub(crate) fn columns(row: &str) -> [&str; 5] {
    let mut parts = row.split("|");
    let first = parts.next().unwrap_or("");
    let second = parts.next().unwrap_or("");
    let third = parts.next().unwrap_or("");
    let fourth = parts.next().unwrap_or("");
    [first, second, third, fourth, parts.next().unwrap_or("")]
}

/// Makes the calls on the disk, and puts what they answer.
fn used(alloc: Global, said: &mut String, disk: FuseDisk, calls: &str) -> Result<FuseDisk, Fail> {
    let (name, rest) = calls.split_once(' ').unwrap_or((calls, ""));
    match name {
        "append" => appended(alloc, said, disk, rest),
        "branch" => branched(alloc, said, disk, rest),
        "create" => created(alloc, said, disk, rest),
        "fill" => filled(alloc, said, disk, rest),
        "journal" => recorded(alloc, said, disk, rest),
        _ => {
            let mut disk = disk;
            put_answers(alloc, said, &mut disk, calls)?;
            Ok(disk)
        }
    }
}

/// What a look at the disk finds.
fn found(alloc: Global, disk: MemoryDisk, look: &str) -> Result<String, AllocError> {
    let mut out = String::new(alloc);
    match look {
        "faults" => write!(&mut out, "{}", disk.faults())?,
        "bodies" | "list" => put_bodies(alloc, &mut out, disk, look)?,
        _ => put_records(alloc, &mut out, disk, look)?,
    }
    Ok(out)
}

/// Whether a look at the disk finds that.
fn is_found(alloc: Global, disk: MemoryDisk, look: &str, wanted: &str) -> Result<bool, AllocError> {
    if look == "bytes" {
        let bytes = bytes_of(alloc, wanted)?;
        return Ok(disk.bytes() == bytes.as_slice());
    }
    let found = found(alloc, disk, look)?;
    Ok(found.as_str() == wanted)
}

/// Whether the calls give the answers of the row, and one crash leaves what is wanted.
fn leaves(alloc: Global, row: &str, crash: &str) -> Result<bool, Fail> {
    let [held, made, calls, answers, left] = columns(row);
    let (look, _) = left.split_once(' ').unwrap_or((left, ""));
    let (pick, wanted) = crash.split_once(' ').unwrap_or((crash, ""));
    let mut said = String::new(alloc);
    let disk = disk_of(alloc, held, made)?;
    let disk = used(alloc, &mut said, disk, calls)?;
    if said.as_str() != answers {
        return Ok(false);
    }
    Ok(is_found(alloc, left_of(disk, pick), look, wanted)?)
}

/// Whether a row holds: `HELD|DISK|CALLS|ANSWERS|LOOK CRASH FOUND, ..`. The calls are made once for
/// each crash. What a look finds is the `bytes` of the disk, its `faults`, how many `bodies` a file
/// of gates has or a `list` of them, how many `records` a journal has or with their `offsets`, or
/// its `version`; or why there are none.
pub(crate) fn holds(alloc: Global, row: &str) -> Result<bool, Fail> {
    let (_, crashes) = columns(row)[4].split_once(' ').unwrap_or(("", ""));
    for crash in crashes.split(", ") {
        if !leaves(alloc, row, crash)? {
            return Ok(false);
        }
    }
    Ok(true)
}
