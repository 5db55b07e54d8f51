//! What the turrets of a call write, against its report. The law is the contract of a function that
//! does nothing.
//! No crate calls it: it says to a reader how a turret's file and the report agree.
ghost use Rattle.std.specs.Prelude.{ℕ};
ghost use Rattle.command_words.specs.Listed.{listed_command};
ghost use Rattle.lathe_top.specs.Done.{IsDone};
ghost use Rattle.lathe_top.specs.Kinds.{kind_of};
ghost use Rattle.lathe_top.specs.Stops.{Around, CallOver, call_in};
ghost use Rattle.lathe_top.specs.Streams.{HasStreams, IsUncut, MakesRecords};

use disk_model::Disk;

/// The stream of a path is the lines of what its turret got: its place, and then moves and rests, of
/// which the moves are exactly those that the report lists for its records of this call.
///
/// That holds of `run`, `make` and `resume` under the statuses 0 (both paths ended), 3 (an alarm),
/// 10 (as many records as were allowed) and 14 (a full journal). Then the call made one session,
/// which is what one call adds to a run, and the disk has all its records. Each turret got its
/// place, these moves and its rests, in order, and nothing else; a `LineTurret` that was new has just these
/// bytes in its sink. If the run was over when it was found, no turret was called.
pub fn a_stream_has_the_reports_lines<D: Disk, E: Disk>()
    ensures { (call : CallOver D) (around : Around E) (status : ℕ)
        → IsDone D.state E.state (call_in D.state around call) status
        → MakesRecords (kind_of (listed_command around.words)) → IsUncut status
        → HasStreams D.state (call_in D.state around call) status }
{}
