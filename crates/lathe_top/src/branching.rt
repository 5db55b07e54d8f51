//! The command `branch`: the run up to a meeting, as a journal of its own on the second disk. No
//! turret is called. What it answers is in specs/Branched.antt; where a branch ends, in crate
//! `run_branch`.
//! For control.rt of this crate.
ghost use Rattle.std.specs.Prelude.{◌≡◌, Ok};
ghost use Rattle.run_records.specs.Headers.{IsShort};
ghost use Rattle.nc_restart.specs.Recovered.{IsRecovered, Recovers, run_found};
ghost use Rattle.lathe_calls.specs.Answers.{Ends, IsJust, tells};
ghost use Rattle.lathe_calls.specs.Statuses as exit;
ghost use Rattle.text_pieces.specs.Refusals.{refused_text};
ghost use Rattle.lathe_top.specs.Branched.{IsBranched, branched_text, unbranched_answer};
ghost use Rattle.lathe_top.specs.Held.{lathe_of, lathe_left};
ghost use Rattle.lathe_top.specs.Lathe.{AreAtRest};

use crate::held::{Ended, Lathe};
use disk_model::Disk;
use lathe_calls::{Status, write_text};
use lathe_looks::tell_unfound;
use nc_number::Cause;
use nc_outside::{Sink, Turret};
use nc_restart::{Recovered, an_image_of_a_run_is_never_bad, recover};
use run_branch::{BranchFault, branch};
use std::alloc::Global;
use text_pieces::{Piece, refused};

/// Writes the run whose journal the disk has, up to its meeting of this number, as a journal onto
/// the second disk. No turret is called, and nothing is written to the disk of the run.
pub(crate) fn branch_off<D: Disk, E: Disk, T: Turret, K: Sink>(
    alloc: Global,
    meetings: u32,
    lathe: Lathe<D, T>,
    second: E,
    out: &mut K,
) -> (Ended<D, T>, E)
    ensures { Ends (λ answer. IsBranched E.state meetings (D.state lathe.disk) (D.state result.0.lathe.disk) second
        result.1 answer × AreAtRest (lathe_of D.state T.state lathe) (lathe_left D.state T.state result.0))
        (K.state out.old) (K.state out.new) result.0.status }
{
    let Lathe { disk, turrets } = lathe;
    let Branched {
        status,
        disk,
        second,
    } = branch_run(alloc, meetings, disk, second, out);
    let ended = Ended::at_rest(status, Lathe { disk, turrets });
    (ended, second)
}

/// How a branch ended: its status, and both disks.
#[derive(Drop)]
struct Branched<D: Disk, E: Disk> {
    /// The exit status.
    status: u8,
    /// The disk of the run, which was only read.
    disk: D,
    /// The second disk, which the branch was to be written to.
    second: E,
}

/// Branches the run whose journal the disk has, and writes how many records the branch has, or why
/// it is not made.
fn branch_run<D: Disk, E: Disk, K: Sink>(
    alloc: Global,
    meetings: u32,
    disk: D,
    second: E,
    out: &mut K,
) -> Branched<D, E>
    ensures { Ends (IsBranched E.state meetings (D.state disk) (D.state result.disk) second result.second)
        (K.state out.old) (K.state out.new) result.status }
{
    match recover(alloc, disk) {
        Ok(found) => branch_found(alloc, meetings, found, second, out),
        Err((disk, fault)) => Branched {
            status: tell_unfound(fault, out),
            disk,
            second,
        },
    }
}

/// Branches a run that was found, up to its meeting of this number. Gives the status and both
/// disks.
fn branch_found<D: Disk, E: Disk, K: Sink>(
    alloc: Global,
    meetings: u32,
    found: Recovered<D>,
    second: E,
    out: &mut K,
) -> Branched<D, E>
    requires run { IsRecovered D.state found.header found.verified found.machine.machine found.entries.items
        found.journal }
    requires short { IsShort found.header }
    ensures { (before : D) → Recovers (D.state before) (D.state found.journal.file.disk) (run_found (Ok found))
        → Ends (IsBranched E.state meetings (D.state before) (D.state result.disk) second result.second)
        (K.state out.old) (K.state out.new) result.status }
{
    an_image_of_a_run_is_never_bad();
    match branch(alloc, &found.header, &found.entries, second, meetings) {
        Ok((second, records)) => Branched {
            status: tell_branched(meetings, records, out),
            disk: found.journal.into_disk(),
            second,
        },
        Err((second, fault)) => Branched {
            status: tell_unbranched(fault, out),
            disk: found.journal.into_disk(),
            second,
        },
    }
}

/// Writes that the branch was made and how many records it has, and gives status 0.
fn tell_branched<K: Sink>(meetings: u32, records: u32, out: &mut K) -> u8
    ensures { Ends (IsJust (tells exit.done (branched_text meetings records)))
        (K.state out.old) (K.state out.new) result }
{
    write_text(
        out,
        branched_line(meetings, records).as_slice(),
        Status::Done as u8,
    )
}

/// Writes that the run has too few meetings, and gives status 1.
fn tell_no_meeting<K: Sink>(out: &mut K) -> u8
    ensures { Ends (IsJust (tells exit.refused (refused_text Cause.NoMeeting)))
        (K.state out.old) (K.state out.new) result }
{
    write_text(
        out,
        refused(Cause::NoMeeting).as_slice(),
        Status::Refused as u8,
    )
}

/// Writes why a branch was not made, and gives the status of the cause.
fn tell_unbranched<K: Sink>(fault: BranchFault, out: &mut K) -> u8
    ensures { Ends (IsJust (unbranched_answer fault)) (K.state out.old) (K.state out.new) result }
{
    match fault {
        BranchFault::NoMeeting => tell_no_meeting(out),
        BranchFault::RunThere => write_text(out, b"run there\n", Status::RunOrNone as u8),
        BranchFault::NewDisk => write_text(out, b"disk fault\n", Status::DiskFault as u8),
        BranchFault::NoMemory => Status::NoMemory as u8,
    }
}

/// The line of output for a branch at this meeting, with so many records. It takes no memory.
#[tactic(auto, unfolding(crate::specs::Branched::branched_text))]
fn branched_line(meetings: u32, records: u32) -> Piece
    ensures { result ≡ branched_text meetings records }
{
    let mut piece = Piece::empty();
    piece.add(b"branched ");
    piece.add_number(u64::from(meetings));
    piece.add(b" records ");
    piece.add_number(u64::from(records));
    piece.add(b"\n");
    piece
}
