//! Whether a run may go on, by the records of its journal. The format is that of run_records, and
//! changes with it.
//!
//! Only when a journal is renewed hangs on it: what it calls over, and is not, is renewed at the
//! first write.
//! For journal_file.rt of this crate.
ghost use Rattle.std.specs.Prelude.{◌≤◌, ◌<◌, ◌^◌, ℕ};

use crate::chain::{FRAME, Head, head_at};
use crate::folder::RawFile;
use crate::pieces::read_up_to;
use std::io;

/// The most bytes that a batch has: its count, and 64 records of 32 stamps.
const BATCH: usize = 8_385;

/// The kinds of records that are looked for, and the size of the one that has no stamps.
const ENDED: u8 = 4;

const ALARM: u8 = 5;

const EDIT: u8 = 6;

const EDIT_SIZE: usize = 21;

/// The ends that a journal records.
#[derive(Clone, Copy)]
struct Ends {
    /// Path 1 ended.
    one: bool,
    /// Path 2 ended.
    two: bool,
    /// A path raised an alarm.
    alarm: bool,
}

/// Whether a run stands in the journal, whole up to a shut gate, and neither both its paths ended
/// nor one raised an alarm.
pub(crate) fn may_go_on<F: RawFile>(file: &F) -> io::Result<bool> {
    let mut ends = Ends {
        one: false,
        two: false,
        alarm: false,
    };
    let mut at = 0;
    let mut head = head_at(file, at)?;
    while let Head::Open(next) = head {
        if at > 0 {
            ends = ends_behind(file, at, next, ends)?;
        }
        at = next;
        head = head_at(file, at)?;
    }
    Ok(at > 0 && head == Head::Shut && !ends.alarm && !(ends.one && ends.two))
}

/// The ends behind the batch between these two gates.
fn ends_behind<F: RawFile>(file: &F, gate: u64, next: u64, before: Ends) -> io::Result<Ends>
    requires { gate < 2 ^ 62 }
{
    let mut bytes = [0u8; BATCH];
    let start = gate + FRAME as u64;
    let wanted = next.saturating_sub(start).min(BATCH as u64) as usize;
    let count = read_up_to(file, start, &mut bytes[..wanted])?;
    Ok(ends_in(&bytes[..count], before))
}

/// The ends behind the records of a batch.
fn ends_in(batch: &[u8], before: Ends) -> Ends {
    let mut ends = before;
    let mut at = 1;
    while at < batch.len() {
        let record = &batch[at..];
        ends = ends_with(record, ends);
        at += size_of(record);
    }
    ends
}

/// The ends behind the record with which these bytes begin.
fn ends_with(record: &[u8], before: Ends) -> Ends {
    match record {
        [_, ALARM, ..] => Ends {
            alarm: true,
            ..before
        },
        [1, ENDED, ..] => Ends {
            one: true,
            ..before
        },
        [2, ENDED, ..] => Ends {
            two: true,
            ..before
        },
        _ => before,
    }
}

/// How many bytes the record has with which these bytes begin.
fn size_of(record: &[u8]) -> usize
    ensures { (1 ≤ result) × (result ≤ 2_000) }
{
    match record {
        [_, EDIT, ..] => EDIT_SIZE,
        [_, _, stamps, ..] => 3 + 4 * usize::from(*stamps),
        _ => 3,
    }
}
