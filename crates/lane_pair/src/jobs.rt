//! What the threads of a path do: the worker steps it from its seat and sends what its steps answer
//! along a line, and the drive hands that to the turret.
//! For gathering.rt and pair.rt of this crate.
ghost use Rattle.std.specs.Prelude.{◌≡◌, [], Some, false};
ghost use Rattle.seat_table.specs.Passes.{fresh_pass, fresh_halter};
ghost use Rattle.lane_pair.specs.Jobs.{Worked, Drove};

use crate::sharing::Bench;
use drive_line::{Driven, LineIn, LineOut};
use kept_threads::Job;
use nc_number::Path;
use nc_outside::Turret;
use path_worker::{Why, run_drive, run_path};
use seat_table::{HaltPass, SeatPass, Turns};
use std::sync::Wait;

/// To work a path from its seat to its end.
#[derive(Drop)]
pub(crate) struct WorkerJob<C: Turns> {
    /// The table.
    pub(crate) bench: Bench<C>,
    /// The path.
    pub(crate) path: Path,
    /// The pass of the path.
    pub(crate) pass: SeatPass<C>,
    /// The end at which it sends.
    pub(crate) line: LineIn,
    ghost seated: { bench ≡ Some pass.table },
    ghost fresh: { pass ≡ fresh_pass pass.table path },
    ghost unsent: { line.items ≡ [] },
}

/// What a worker gives back.
#[derive(Drop)]
pub(crate) struct WorkerEnd<C> {
    /// The pass by which it stepped its path.
    pub(crate) pass: SeatPass<C>,
    /// The end at which it sent.
    pub(crate) line: LineIn,
    /// Why it ended.
    pub(crate) why: Why,
}

/// To drive the turret of a path to the end of its line.
#[derive(Drop)]
pub(crate) struct DriveJob<C: Turns, T: Turret> {
    /// The table.
    pub(crate) bench: Bench<C>,
    /// The path.
    pub(crate) path: Path,
    /// The pass by which it may halt the run.
    pub(crate) pass: HaltPass<C>,
    /// The end at which it takes.
    pub(crate) line: LineOut<T>,
    /// The turret.
    pub(crate) turret: T,
    ghost seated: { bench ≡ Some pass.table },
    ghost fresh: { pass ≡ fresh_halter pass.table path },
    ghost untaken: { (line.items ≡ []) × (line.asked ≡ false) },
}

/// What a drive gives back.
#[derive(Drop)]
pub(crate) struct DriveEnd<C, T: Turret> {
    /// The pass by which it might halt the run.
    pub(crate) pass: HaltPass<C>,
    /// The end at which it took.
    pub(crate) line: LineOut<T>,
    /// The turret, with what it took and missed.
    pub(crate) driven: Driven<T>,
}

/// Works the path of the job to its end.
pub(crate) fn work_path<R: Wait, C: Turns + Drop>(rt: &R, job: WorkerJob<C>) -> WorkerEnd<C>
    ensures { Worked job.pass.table job.path job.line.line result.pass result.line result.why }
{
    let WorkerJob {
        bench,
        path,
        pass,
        line,
    } = job;
    let mut line = line;
    let mut stepper = bench.seats().stepper(rt, pass);
    let why = run_path(rt, path, &mut stepper, &mut line);
    let pass = stepper.into_pass();
    WorkerEnd { pass, line, why }
}

/// Drives the turret of the job to the end of its line.
pub(crate) fn drive_turret<R: Wait, C: Turns + Drop, T: Turret>(
    rt: &R,
    job: DriveJob<C, T>,
) -> DriveEnd<C, T>
    ensures { Drove job.pass.table job.path job.line.line (T.state job.turret)
        result.pass result.line result.driven }
{
    let DriveJob {
        bench,
        path,
        pass,
        line,
        turret,
    } = job;
    let mut line = line;
    let mut driven = Driven::new(turret);
    let mut halter = bench.seats().halter(rt, pass);
    run_drive(rt, path, &mut line, &mut halter, &mut driven);
    let pass = halter.into_pass();
    DriveEnd { pass, line, driven }
}

impl<R: Wait, C: Turns + Drop> Job<R> for WorkerJob<C> {
    type Done = WorkerEnd<C>;

    ghost use Rattle.lane_pair.specs.Jobs.{Worked};

    ghost does = { λ job end. Worked job.pass.table job.path job.line.line end.pass end.line end.why };

    fn work(self, rt: &R) -> WorkerEnd<C> {
        work_path(rt, self)
    }
}

impl<R: Wait, C: Turns + Drop, T: Turret> Job<R> for DriveJob<C, T> {
    type Done = DriveEnd<C, T>;

    ghost use Rattle.lane_pair.specs.Jobs.{Drove};

    ghost does = { λ job end. Drove job.pass.table job.path job.line.line (T.state job.turret)
        end.pass end.line end.driven };

    fn work(self, rt: &R) -> DriveEnd<C, T> {
        drive_turret(rt, self)
    }
}
