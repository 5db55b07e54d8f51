//! Disks as a row tells of them, and what a crash leaves of one. For rows.rt of these tests.
use crate::bytes::{bytes_of, number};
use disk_model::{Crash, FuseDisk, MemoryDisk};
use std::alloc::Global;
use std::test::Fail;

/// The number behind the word, or the greatest that there is where the word is not there.
fn number_behind(text: &str, word: &str) -> u64 {
    let (_, behind) = text.split_once(word).unwrap_or(("", ""));
    let (digits, _) = behind.split_once(' ').unwrap_or((behind, ""));
    number(digits)
}

/// The disk of memory that holds these bytes, or is new and has `room 4`.
fn memory_of(alloc: Global, held: &str, made: &str) -> Result<MemoryDisk, Fail> {
    let calls = number_behind(made, "calls ").min(100) as usize;
    let failing = [number_behind(made, "fails "), number_behind(made, "and ")];
    let room = number_behind(made, "room ");
    if room < u64::MAX {
        Ok(MemoryDisk::new(alloc, room as usize, calls, &failing)?)
    } else {
        let bytes = bytes_of(alloc, held)?;
        Ok(MemoryDisk::of_bytes(alloc, bytes, calls, &failing)?)
    }
}

/// A disk that holds these bytes, or is new and has `room 4`. It takes `calls 10`, and a hundred
/// where nothing is said; it `fails 2 and 4`, the second call and the fourth; and it `passes 2`
/// before its fuse burns.
pub(crate) fn disk_of(alloc: Global, held: &str, made: &str) -> Result<FuseDisk, Fail> {
    let disk = memory_of(alloc, held, made)?;
    Ok(FuseDisk::new(disk, number_behind(made, "passes ")))
}

/// What is left of the disk without a crash (`still`), and after one that `kept` or `lost` what was
/// written, or filled it with `dots` or with `sevens`, the byte 7.
pub(crate) fn left_of(disk: FuseDisk, pick: &str) -> MemoryDisk {
    let disk = disk.into_inner();
    match pick {
        "still" => disk,
        "kept" => disk.crash(Crash::Kept),
        "lost" => disk.crash(Crash::Lost),
        "dots" => disk.crash(Crash::Fill(b'.')),
        _sevens => disk.crash(Crash::Fill(7)),
    }
}
