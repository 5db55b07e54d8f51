//! Tests of disks in memory (disk_model): what each call answers, and what a crash leaves. rows.rt
//! makes the calls of a row of these by `put_answers`.
use crate::bytes::{bytes_of, number, put_digits};
use crate::rows::holds;
use disk_model::{Disk, Failed, FuseDisk, MemoryDisk};
use std::alloc::{AllocError, Global};
use std::test::Fail;

/// `HELD|DISK|CALLS|ANSWERS|LOOK CRASH FOUND, ..`: a disk (see `disk_of`), the calls and what each
/// answers, and the bytes that each crash (see `left_of`) leaves, or how often the disk below the
/// fuse failed. `616263646566` is `abcdef` and `58595a` is `XYZ`; `read 5 4` reads 4 bytes at 5,
/// and `write greatest` writes at the greatest number that there is.
const ROWS: &str = "\
616263646566|calls 10|write 4 58595a|done|bytes kept 6162636458595a, lost 616263646566, dots 616263642e2e2e
616263646566|calls 10|write 4 58595a, sync|done done|bytes kept 6162636458595a, lost 6162636458595a, sevens 6162636458595a
616263646566|calls 10|write 4 58595a, len, read 5 4, read 9 4|done 7 2:595a0000 0:00000000|bytes still 6162636458595a
|room 4 calls 10 fails 2 and 4|sync, sync, sync, sync, sync, faults|done failed done failed done 2|faults still 2
|room 4 calls 3|sync, sync, sync, sync, sync|done done done failed failed|bytes still
|room 4 calls 10|write 0 31323334, write 1 32333435, write greatest 31, faults|done failed failed 2|bytes still 31323334
|room 4 calls 10 passes 2|sync, sync, sync, sync, sync, faults, write 0 31|done done failed failed failed 3 failed|faults still 0
|room 4 calls 10 passes 2|sync, sync, sync, sync, sync, faults, write 0 31|done done failed failed failed 3 failed|bytes still";

/// The word for whether a call of a disk was done.
fn word_of(done: Result<(), Failed>) -> &'static str {
    if done.is_ok() { "done" } else { "failed" }
}

/// Reads so many bytes, eight at most: how many there are, and the room that they were read into.
fn put_read(out: &mut String, disk: &mut FuseDisk, at: u64, count: u64) -> Result<(), AllocError> {
    let mut room = [0; 8];
    let into = &mut room[..count.min(8) as usize];
    if let Ok(read) = disk.read_at(at, into) {
        write!(out, "{read}:")?;
    }
    put_digits(out, into)
}

/// Makes one call, and puts its answer behind the others.
fn put_answer(
    alloc: Global,
    out: &mut String,
    disk: &mut FuseDisk,
    call: &str,
) -> Result<(), AllocError> {
    let (name, rest) = call.split_once(' ').unwrap_or((call, ""));
    let (at, what) = rest.split_once(' ').unwrap_or((rest, ""));
    match name {
        "sync" => out.push_str(word_of(disk.sync())),
        "write" => {
            let bytes = bytes_of(alloc, what)?;
            out.push_str(word_of(disk.write_at(number(at), bytes.as_slice())))
        }
        "len" => write!(out, "{}", disk.len().unwrap_or(0)),
        "read" => put_read(out, disk, number(at), number(what)),
        "faults" => write!(out, "{}", disk.faults()),
        _none => Ok(()),
    }
}

/// Makes the calls, and puts their answers.
pub(crate) fn put_answers(
    alloc: Global,
    out: &mut String,
    disk: &mut FuseDisk,
    calls: &str,
) -> Result<(), AllocError> {
    for call in calls.split(", ") {
        if !out.is_empty() {
            out.push(' ')?;
        }
        put_answer(alloc, out, disk, call)?;
    }
    Ok(())
}

#[test]
fn disks_answer_their_calls_and_keep_what_a_crash_leaves(rt: HostRuntime) -> Result<(), Fail> {
    for row in ROWS.lines() {
        assert!(&rt; holds(rt.alloc(), row)?, "{row}");
    }
    assert!(&rt; MemoryDisk::new(rt.alloc(), 1 << 62, 1, &[]).is_err());
    Ok(())
}
