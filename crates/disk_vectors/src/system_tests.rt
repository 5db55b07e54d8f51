//! Tests of a `FileDisk` over the files of the system: a journal that is made, held and shown, and
//! files that can't be written.
use crate::answers::{is_count, is_done};
use disk_model::{Disk, Failed};
use real_outside::{Access, FileDisk, SystemFolder};
use std::fs;
use std::fs::File;
use std::rt::Files;
use std::test::Fail;

/// The name of a file that is made and removed.
const NAME: &str = "file_disk_test.journal";

/// The name of a file that several have open at once.
const SHARED: &str = "shared_file_disk_test.journal";

/// A file that is not there yet, call for call with its answer: a read asks for four bytes.
const LOOKED_FOR: &str = "len 0, read 0 0, sync done";

/// The calls of a file as it is made: a write has two bytes.
const MADE: &str = "write 2 done, sync done, len 4, faults 0";

/// The calls of a file that is opened once more to be written, while the one that made it has it.
const HELD: &str = "len failed, sync failed, read 1 failed, write 0 failed, faults 4";

/// The calls of a file that is looked at while another has it: its first gate is shut, and no more
/// of it counts.
const SHOWN: &str = "sync done, len 1, read 0 1, read 1 0, faults 0";

/// The calls of a file that is opened after the first one was closed. No byte may stand at or past
/// 2^62.
const OPENED: &str = "write 4 done, len 6, write 4611686018427387903 failed, len failed, faults 2";

/// The name of a file of more than one piece, and that of the one that takes its place.
const LONG: &str = "long_file_disk_test.journal";

const LONG_NEXT: &str = "long_file_disk_test.journal.new";

/// How many parts that file has, and where its last gate is.
const PARTS: u8 = 40;

const PARTS_END: u64 = 40_005;

/// A row: the name of what is no regular file, and calls. After a failed write or sync a write of no
/// byte fails too.
const FAILING: &str = "\
/dev/full|write 0 failed, sync failed, faults 2, len failed, read 0 failed, touch failed, sync failed, faults 6
/dev/null|write 0 failed, sync failed, faults 2, len failed, read 0 failed, touch failed, sync failed, faults 6
/|write 0 failed, sync failed, faults 2, len failed, read 0 failed, touch failed, sync failed, faults 6";

/// How many of four bytes are read at this place.
fn count_read<R: Files<File = File>>(
    disk: &mut FileDisk<'_, SystemFolder<'_, R>>,
    at: u64,
) -> Result<u64, Failed> {
    match disk.read_at(at, &mut [0u8; 4]) {
        Ok(count) => Ok(count as u64),
        Err(Failed) => Err(Failed),
    }
}

/// Whether a call gets its answer: `CALL ANSWER`, or `CALL PLACE ANSWER`.
fn holds<R: Files<File = File>>(disk: &mut FileDisk<'_, SystemFolder<'_, R>>, step: &str) -> bool {
    let (call, wanted) = step.rsplit_once(' ').unwrap_or((step, ""));
    let (name, place) = call.split_once(' ').unwrap_or((call, "0"));
    let at = place.parse::<u64>().unwrap_or(0);
    match name {
        "len" => is_count(disk.len(), wanted),
        "read" => is_count(count_read(disk, at), wanted),
        "write" => is_done(disk.write_at(at, b"ab"), wanted),
        "touch" => is_done(disk.write_at(at, b""), wanted),
        "sync" => is_done(disk.sync(), wanted),
        _faults => is_count(Ok(disk.faults()), wanted),
    }
}

/// Whether all calls get their answers, one after the other.
fn all_hold<R: Files<File = File>>(
    disk: &mut FileDisk<'_, SystemFolder<'_, R>>,
    steps: &str,
) -> bool {
    for step in steps.split(", ") {
        if !holds(disk, step) {
            return false;
        }
    }
    true
}

#[test]
fn a_file_is_made_by_the_first_write_and_no_sooner(rt: HostRuntime) -> Result<(), Fail> {
    let mut disk = FileDisk::new(SystemFolder::new(&rt), NAME, Access::Write);
    assert!(rt; all_hold(&mut disk, LOOKED_FOR));
    assert!(rt; !fs::exists(&rt, NAME)?);
    assert!(rt; all_hold(&mut disk, MADE));
    drop(disk);
    let mut again = FileDisk::new(SystemFolder::new(&rt), NAME, Access::Write);
    let mut piece = [7u8; 4];
    assert!(rt; again.read_at(1, &mut piece) == Ok(3));
    assert!(rt; piece == *b"\0ab\x07");
    fs::remove_file(&rt, NAME)?;
    Ok(())
}

#[test]
fn a_file_is_written_by_one_at_a_time(rt: HostRuntime) -> Result<(), Fail> {
    let mut first = FileDisk::new(SystemFolder::new(&rt), SHARED, Access::Write);
    assert!(rt; all_hold(&mut first, MADE));
    let mut second = FileDisk::new(SystemFolder::new(&rt), SHARED, Access::Write);
    assert!(rt; all_hold(&mut second, HELD));
    let mut look = FileDisk::new(SystemFolder::new(&rt), SHARED, Access::Look);
    assert!(rt; all_hold(&mut look, SHOWN));
    assert!(rt; all_hold(&mut first, "write 0 done, sync done, faults 0"));
    drop(first);
    let mut third = FileDisk::new(SystemFolder::new(&rt), SHARED, Access::Write);
    assert!(rt; all_hold(&mut third, OPENED));
    assert!(rt; all_hold(&mut look, "len 1, read 0 1, write 0 failed, faults 1"));
    fs::remove_file(&rt, SHARED)?;
    Ok(())
}

#[test]
fn after_a_failed_write_or_sync_each_call_fails(rt: HostRuntime) -> Result<(), Fail> {
    for row in FAILING.lines() {
        let (name, steps) = row.split_once('|').unwrap_or((row, ""));
        let mut disk = FileDisk::new(SystemFolder::new(&rt), name, Access::Write);
        assert!(rt; all_hold(&mut disk, steps), "{row}");
    }
    Ok(())
}

/// Writes the journal whose parts have the bytes 0, 1 and so on, a thousand times each.
fn write_parts<R: Files<File = File>>(disk: &mut FileDisk<'_, SystemFolder<'_, R>>) -> bool {
    let mut is_written = disk.write_at(0, &[1, 0, 0, 156, 64]).is_ok();
    for part in 0..PARTS {
        let place = 5 + u64::from(part) * 1_000;
        is_written &= disk.write_at(place, &[part; 1_000]).is_ok();
    }
    is_written && disk.write_at(PARTS_END, &[0]).is_ok() && disk.sync().is_ok()
}

/// Whether each part of the journal ends with its byte.
fn has_parts<R: Files<File = File>>(disk: &mut FileDisk<'_, SystemFolder<'_, R>>) -> bool {
    let mut is_whole = true;
    for part in 0..PARTS {
        let mut byte = [PARTS];
        let place = 1_004 + u64::from(part) * 1_000;
        is_whole &= disk.read_at(place, &mut byte) == Ok(1) && byte == [part];
    }
    is_whole
}

#[test]
fn a_journal_of_several_pieces_is_renewed_whole(rt: HostRuntime) -> Result<(), Fail> {
    let mut disk = FileDisk::new(SystemFolder::new(&rt), LONG, Access::Write);
    assert!(rt; write_parts(&mut disk));
    drop(disk);
    let mut again = FileDisk::new(SystemFolder::new(&rt), LONG, Access::Write);
    assert!(rt; again.sync().is_ok() && again.write_at(PARTS_END + 1, b"ab").is_ok());
    assert!(rt; has_parts(&mut again));
    assert!(rt; again.len() == Ok(PARTS_END + 3));
    assert!(rt; !fs::exists(&rt, LONG_NEXT)?);
    fs::remove_file(&rt, LONG)?;
    Ok(())
}
