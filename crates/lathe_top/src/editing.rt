//! The command `edit`: an operator's edits, made in the run whose journal the disk has. No turret
//! is called. What it answers is in specs/Edited.antt; how the records are written, in crate
//! `run_edits`.
//! For control.rt of this crate.
ghost use Rattle.std.specs.Prelude.{◌≡◌, Ok, codes};
ghost use Rattle.nc_restart.specs.History.{IsHistory};
ghost use Rattle.nc_restart.specs.Recovered.{IsRecovered, Recovers, run_found};
ghost use Rattle.lathe_calls.specs.Answers.{Ends, IsJust, tells};
ghost use Rattle.lathe_calls.specs.Reported.{report_of};
ghost use Rattle.lathe_calls.specs.Statuses as exit;
ghost use Rattle.lathe_looks.specs.Named.{only_text, edits_named};
ghost use Rattle.lathe_looks.specs.Standing.{reason_of};
ghost use Rattle.lathe_top.specs.Edited.{IsEdited, IsEditedRun, edited_text, told_of_failure, told_of_writing};
ghost use Rattle.lathe_top.specs.Held.{lathe_of, lathe_left};
ghost use Rattle.lathe_top.specs.Lathe.{AreAtRest};
ghost use Rattle.lathe_top.specs.OverFiles.{IsOverFiles};
ghost use Rattle.lathe_calls.specs.Statuses.{reason_status};

use crate::held::{Ended, Lathe};
use crate::telling::{Telling, tell_end};
use disk_model::Disk;
use edit_texts::EditList;
use gate_file::DiskFault;
use lathe_calls::{Status, write_text};
use lathe_looks::{Shown, edits_of_file, reason_of, tell_unfound};
use nc_number::Failing;
use nc_outside::{Shelf, Sink, Turret};
use nc_restart::{Recovered, recover};
use run_edits::{Made, has_room, make_edits};
use std::alloc::Global;
use text_pieces::Piece;

/// Makes the edits of a file in the run whose journal the disk has. No turret is called, and the
/// disk only if the file was read.
pub(crate) fn edit<H: Shelf, D: Disk, T: Turret, K: Sink>(
    alloc: Global,
    name: &str,
    shelf: &mut H,
    lathe: Lathe<D, T>,
    out: &mut K,
) -> Ended<D, T>
    ensures { Ends (IsOverFiles only_text (edits_named name.now) IsEdited
        (lathe_of D.state T.state lathe) (lathe_left D.state T.state result) (H.state shelf.old) (H.state shelf.new))
        (K.state out.old) (K.state out.new) result.status }
{
    match edits_of_file(alloc, name, shelf, out) {
        Ok(edits) => edit_by(alloc, &edits, lathe, out),
        Err(status) => Ended::at_rest(status, lathe),
    }
}

/// Makes edits in the run on the disk. No turret is called.
fn edit_by<D: Disk, T: Turret, K: Sink>(
    alloc: Global,
    edits: &EditList,
    lathe: Lathe<D, T>,
    out: &mut K,
) -> Ended<D, T>
    ensures { Ends (λ answer. IsEditedRun edits.now (D.state lathe.disk) (D.state result.lathe.disk) answer
        × AreAtRest (lathe_of D.state T.state lathe) (lathe_left D.state T.state result))
        (K.state out.old) (K.state out.new) result.status }
{
    let Lathe { disk, turrets } = lathe;
    let Shown { status, disk } = edit_run(alloc, edits, disk, out);
    Ended::at_rest(status, Lathe { disk, turrets })
}

/// Makes edits in the run whose journal the disk has, and writes how many, or why they are not
/// made.
fn edit_run<D: Disk, K: Sink>(alloc: Global, edits: &EditList, disk: D, out: &mut K) -> Shown<D>
    ensures { Ends (IsEditedRun edits.now (D.state disk) (D.state result.disk))
        (K.state out.old) (K.state out.new) result.status }
{
    match recover(alloc, disk) {
        Ok(found) => edit_found(alloc, found, edits, out),
        Err((disk, fault)) => Shown {
            status: tell_unfound(fault, out),
            disk,
        },
    }
}

/// Makes edits in a run that was found, unless an alarm has stopped it or its journal has no room
/// for them.
fn edit_found<D: Disk, K: Sink>(
    alloc: Global,
    found: Recovered<D>,
    edits: &EditList,
    out: &mut K,
) -> Shown<D>
    requires { IsRecovered D.state found.header found.verified found.machine.machine found.entries.items
        found.journal }
    ensures { (before : D) → Recovers (D.state before) (D.state found.journal.file.disk) (run_found (Ok found))
        → Ends (IsEditedRun edits.now (D.state before) (D.state result.disk))
        (K.state out.old) (K.state out.new) result.status }
{
    if found.machine.alarm().is_some() {
        return tell_alarm(alloc, found, out);
    }
    if !has_room(&found, edits) {
        return tell_full(found, out);
    }
    let Made { disk, result } = make_edits(found, edits);
    Shown {
        status: tell_made(edits.as_slice().len(), result, out),
        disk,
    }
}

/// Writes the report of a run that an alarm has stopped, and gives the status of the alarm.
fn tell_alarm<D: Disk, K: Sink>(alloc: Global, found: Recovered<D>, out: &mut K) -> Shown<D>
    requires legal { IsHistory found.verified found.entries.items }
    ensures told { Ends (IsJust (tells (reason_status (reason_of found.machine.machine))
        (report_of found.verified found.entries.items (reason_of found.machine.machine))))
        (K.state out.old) (K.state out.new) result.status }
    ensures disk { result.disk ≡ found.journal.file.disk }
{
    let reason = reason_of(&found.machine);
    let status = tell_end(
        alloc,
        Telling::Report,
        &found.verified,
        &found.entries,
        reason,
        out,
    );
    Shown {
        status,
        disk: found.journal.into_disk(),
    }
}

/// Writes that the journal has no room for the edits.
fn tell_full<D: Disk, K: Sink>(found: Recovered<D>, out: &mut K) -> Shown<D>
    ensures told { Ends (IsJust (tells exit.full (codes "full\n"))) (K.state out.old) (K.state out.new) result.status }
    ensures disk { result.disk ≡ found.journal.file.disk }
{
    Shown {
        status: write_text(out, b"full\n", Status::Full as u8),
        disk: found.journal.into_disk(),
    }
}

/// Writes what came of so many edits, and gives the status.
fn tell_made<K: Sink>(count: usize, made: Result<(), Failing<DiskFault>>, out: &mut K) -> u8
    ensures { Ends (IsJust (told_of_writing count made)) (K.state out.old) (K.state out.new) result }
{
    match made {
        Ok(()) => write_text(
            out,
            edited_line(count as u64).as_slice(),
            Status::Done as u8,
        ),
        Err(error) => tell_unmade(error, out),
    }
}

/// Writes why edits were not made, and gives the status.
fn tell_unmade<K: Sink>(error: Failing<DiskFault>, out: &mut K) -> u8
    ensures { Ends (IsJust (told_of_failure error)) (K.state out.old) (K.state out.new) result }
{
    match error {
        Failing::Fault(_) => write_text(out, b"disk fault\n", Status::DiskFault as u8),
        Failing::NoMemory => Status::NoMemory as u8,
    }
}

/// The line of output for so many edits that were made. It takes no memory.
#[tactic(auto, unfolding(crate::specs::Edited::edited_text))]
fn edited_line(count: u64) -> Piece
    ensures { result ≡ edited_text count }
{
    let mut piece = Piece::empty();
    piece.add(b"edited ");
    piece.add_number(count);
    piece.add(b"\n");
    piece
}
