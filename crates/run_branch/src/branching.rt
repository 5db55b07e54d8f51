//! How a branch of a run is made: the shortest prefix of its records with n meetings, written at
//! once onto another disk.
ghost use Rattle.std.specs.Prelude.{◌≡◌, ◌-◌, ◌^◌, ◌<◌, length, if◌then◌else◌};
ghost use Rattle.run_records.specs.Entries.{is_meeting};
ghost use Rattle.run_records.specs.Headers.{IsShort};
ghost use Rattle.run_branch.specs.Branches.{Branches, answer_in, disk_in};
ghost use Rattle.run_branch.specs.Meetings.{branch_point};

use crate::BranchFault;
use crate::fault::fault_of;
use disk_model::Disk;
use gate_file::GateFile;
use run_journal::journal_bodies;
use run_records::{EntryKind, EntryList, Header};
use std::alloc::Global;

/// Makes a branch of a run on a disk: a journal of version 2 with the texts of this header, and
/// with the shortest prefix of these records that has n meetings. It gives the disk back, and how
/// many records the branch has.
///
/// `NoMeeting` comes exactly where the records have fewer meetings, and then the disk is not
/// called. Where a run is on the disk nothing is written, and the answer is `RunThere`, or
/// `NewDisk` where the disk failed before that was seen.
pub fn branch<E: Disk>(
    alloc: Global,
    header: &Header,
    entries: &EntryList,
    onto: E,
    n: u32,
) -> Result<(E, u32), (E, BranchFault)>
    requires short { IsShort header.now }
    requires few { length entries.now.items < 2 ^ 32 }
    ensures { Branches E.state header.now entries.now.items n onto (disk_in result) (answer_in result) }
{
    let Some(upto) = branch_point(entries, n) else {
        return Err((onto, BranchFault::NoMeeting));
    };
    let Ok(bodies) = journal_bodies(alloc, header, entries, upto) else {
        return Err((onto, BranchFault::NoMemory));
    };
    match GateFile::create_filled(alloc, onto, &bodies) {
        Ok(file) => Ok((file.into_disk(), upto as u32)),
        Err((onto, fault)) => Err((onto, fault_of(fault))),
    }
}

/// How long the shortest prefix of the records is that has n meetings, if they have so many.
fn branch_point(entries: &EntryList, n: u32) -> Option<usize>
    ensures { result ≡ branch_point n entries.now.items }
{
    let mut left = n;
    let mut index = 0;
    while left > 0 {
        if index == entries.len() {
            return None;
        }
        left = left_behind(left, &entries.get(index).kind);
        index += 1;
    }
    Some(index)
}

/// How many of the meetings that are still looked for are left after a record of this kind.
fn left_behind(left: u32, kind: &EntryKind) -> u32
    requires { 0 < left }
    ensures { result ≡ (if is_meeting kind.now then left - 1 else left) }
{
    if kind.is_meeting() { left - 1 } else { left }
}
