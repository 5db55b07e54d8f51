//! The worker and the drive of a path in a thread each, over one line, and what is left of both.
ghost use Rattle.std.specs.Prelude.{◌≡◌, [], ◌++◌, List, false, true};
ghost use Rattle.nc_outside.specs.Calls.{IsCalled, told_by};
ghost use Rattle.nc_outside.specs.declared.halt.Next.{Next as Answer};
ghost use Rattle.drive_line.specs.Driving.{fresh_drive, has_failed, Serves};
ghost use Rattle.drive_line.specs.Line.{told_among, has_end};
ghost use Rattle.path_worker.specs.Drive.{halts_at};
ghost use Rattle.path_worker.specs.Work.{Works, IsWhole, calls_made, told_at_end};

use crate::{Why, run_drive, run_path};
use drive_line::{Drained, Driven, LineIn, LineOut, close_line};
use nc_number::Path;
use nc_outside::{Drainable, Stepper, Turret};
use std::sync::Wait;
use std::thread;
use std::thread::Threads;

/// What a path runs with: what gives it its steps, what halts its run, and its turret.
#[derive(Drop)]
pub struct Lane<S: Drop, H: Drop, T: Turret> {
    /// What makes the steps of the path.
    pub stepper: S,
    /// What halts the run if the turret fails.
    pub halter: H,
    /// The turret, and what it was told so far.
    pub driven: Driven<T>,
}

/// What is left of a path: why its worker ended, and its turret, with how many moves it took and
/// missed.
#[derive(Drop)]
pub struct LaneEnd<S: Drop, H: Drop, T: Turret> {
    /// Why the worker ended.
    pub why: Why,
    /// What made the steps of the path.
    pub stepper: S,
    /// What halted the run if the turret failed.
    pub halter: H,
    /// The turret, and what it was told.
    pub driven: Driven<T>,
}

/// What the worker's thread gives back.
#[derive(Drop)]
struct Worked<S: Drop> {
    /// Why the worker ended.
    why: Why,
    /// What made the steps of the path.
    stepper: S,
    /// The worker's end of the line.
    line: LineIn,
}

/// What the drive's thread gives back.
#[derive(Drop)]
struct Drove<H: Drop, T: Turret> {
    /// What halted the run if the turret failed.
    halter: H,
    /// The turret, and what it was told.
    driven: Driven<T>,
    /// The drive's end of the line.
    line: LineOut<T>,
}

/// What the worker's thread does: it works the path to its end, and gives back what it used.
fn work<R: Wait, S: Stepper + Drainable<Drained> + Drop>(
    rt: &R,
    path: Path,
    stepper: S,
    line: LineIn,
) -> Worked<S>
    requires { has_end line.items ≡ false }
    ensures line { result.line.line ≡ line.line }
    ensures work { (answers : List Answer)
        × Works path (S.calls stepper) (S.calls result.stepper) line.items result.line.items answers
        × IsWhole answers result.why }
    ensures origin { S.origin result.stepper ≡ S.origin stepper }
{
    let mut stepper = stepper;
    let mut line = line;
    let why = run_path(rt, path, &mut stepper, &mut line);
    Worked { why, stepper, line }
}

/// What the drive's thread does: it serves the line to its end, and gives back what it used.
fn drive<R: Wait, H: Stepper + Drop, T: Turret>(
    rt: &R,
    path: Path,
    halter: H,
    driven: Driven<T>,
    line: LineOut<T>,
) -> Drove<H, T>
    requires line { (line.items ≡ []) × (line.asked ≡ false) }
    requires driven { driven ≡ fresh_drive driven.state }
    ensures line { (result.line.line ≡ line.line) × (has_end result.line.items ≡ true) }
    ensures serves { Serves (told_among result.line.items) driven.state result.driven }
    ensures halted { IsCalled (H.calls halter) (H.calls result.halter)
        (halts_at path (has_failed result.driven.phase)) }
    ensures origin { H.origin result.halter ≡ H.origin halter }
{
    let mut halter = halter;
    let mut driven = driven;
    let mut line = line;
    run_drive(rt, path, &mut line, &mut halter, &mut driven);
    Drove {
        halter,
        driven,
        line,
    }
}

/// Runs the worker and the drive of a path in a thread each, over the two ends of a new line. Where
/// no second thread can be made it does not return.
pub fn run_lane<R, S, H, T>(
    rt: &R,
    path: Path,
    ends: (LineIn, LineOut<T>),
    lane: Lane<S, H, T>,
) -> LaneEnd<S, H, T>
where
    R: Threads + Wait + Sync,
    S: Stepper + Drainable<Drained> + Drop + Send,
    H: Stepper + Drop + Send,
    T: Turret + Send,
    requires line { (ends.0.line ≡ ends.1.line) × (ends.0.items ≡ []) × (ends.1.items ≡ []) × (ends.1.asked ≡ false) }
    requires driven { lane.driven ≡ fresh_drive lane.driven.state }
    ensures told { (answers : List Answer)
        × IsCalled (S.calls lane.stepper) (S.calls result.stepper) (calls_made path 0 answers)
        × IsWhole answers result.why
        × Serves (told_by (calls_made path 0 answers) ++ told_at_end result.why) lane.driven.state result.driven }
    ensures halted { IsCalled (H.calls lane.halter) (H.calls result.halter)
        (halts_at path (has_failed result.driven.phase)) }
    ensures origins { (S.origin result.stepper ≡ S.origin lane.stepper)
        × (H.origin result.halter ≡ H.origin lane.halter) }
{
    let Lane {
        stepper,
        halter,
        driven,
    } = lane;
    let (line_in, line_out) = ends;
    let (worked, drove) = thread::join(
        rt,
        move || -> Worked<S>
            requires { has_end line_in.items ≡ false }
            ensures line { result.line.line ≡ line_in.line }
            ensures work { (answers : List Answer)
                × Works path (S.calls stepper) (S.calls result.stepper) line_in.items result.line.items answers
                × IsWhole answers result.why }
            ensures origin { S.origin result.stepper ≡ S.origin stepper }
        { work(rt, path, stepper, line_in) },
        move || -> Drove<H, T>
            requires { (line_out.items ≡ []) × (line_out.asked ≡ false) × (driven ≡ fresh_drive driven.state) }
            ensures line { (result.line.line ≡ line_out.line) × (has_end result.line.items ≡ true) }
            ensures serves { Serves (told_among result.line.items) driven.state result.driven }
            ensures halted { IsCalled (H.calls halter) (H.calls result.halter)
                (halts_at path (has_failed result.driven.phase)) }
            ensures origin { H.origin result.halter ≡ H.origin halter }
        { drive(rt, path, halter, driven, line_out) },
    );
    let Worked { why, stepper, line } = worked;
    let Drove {
        halter,
        driven,
        line: taking,
    } = drove;
    close_line(line, taking);
    LaneEnd {
        why,
        stepper,
        halter,
        driven,
    }
}
