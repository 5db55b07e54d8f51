//! Both paths at once: a worker and a drive for each, in the threads of a crew and that of the
//! caller. What they leave undone is the caller's.
ghost use Rattle.std.specs.Prelude.{◌≡◌, [], ◌++◌, true, IfOk, IfErr};
ghost use Rattle.nc_number.specs.declared.path.Path.{Path as OnePath};
ghost use Rattle.nc_number.specs.declared.path.Path.TheVariants.{One, Two};
ghost use Rattle.drive_line.specs.Driving.{Serves};
ghost use Rattle.path_worker.specs.Work.{told_at_end};
ghost use Rattle.atomic_table.specs.Seated.{TableId};
ghost use Rattle.drive_line.specs.Line.{LineId, has_end};
ghost use Rattle.nc_outside.specs.Received.{TurretState};
ghost use Rattle.seat_table.specs.Passes.{fresh_pass, fresh_halter};
ghost use Rattle.lane_pair.specs.Jobs.{Worked, Drove};
ghost use Rattle.lane_pair.specs.Seats.{IsPathEnd, StopsBy};

use crate::gathering::Crew;
use crate::jobs::{DriveEnd, DriveJob, WorkerEnd, WorkerJob, work_path};
use drive_line::{Driven, close_line};
use kept_threads::Order;
use nc_number::{Both, Path};
use nc_outside::Turret;
use path_worker::Why;
use seat_table::{HaltPass, SeatPass, SeatTable, Seated, Turns};
use std::alloc::Global;
use std::sync::Wait;
use std::thread::Threads;

/// What a run of both paths leaves.
#[derive(Drop)]
pub struct Ran<C: Turns, T: Turret> {
    /// The table, closed.
    pub table: C,
    /// Each turret, with what it took and missed.
    pub turrets: Both<Driven<T>>,
    /// Why the worker of each path ended. A turret whose path has ended was told so.
    pub whys: Both<Why>,
}

/// What comes back if there is no memory for a run: the table and the turrets as they were.
#[derive(Drop)]
pub struct Unrun<C: Turns, T: Turret> {
    /// The table, which was not run.
    pub table: C,
    /// The turrets, which were not called.
    pub turrets: Both<T>,
}

/// What the worker and the drive of a path gave back, with their line closed.
#[derive(Drop)]
struct PathEnd<C, T: Turret> {
    /// The pass by which the worker stepped its path.
    pass: SeatPass<C>,
    /// The pass by which the drive might halt the run.
    halter: HaltPass<C>,
    /// The turret, with what it took and missed.
    driven: Driven<T>,
    /// Why the worker ended.
    why: Why,
}

/// Puts together what the worker and the drive of a path gave back. The turret got what the worker's
/// steps told it.
fn end_path<C, T: Turret>(worker: WorkerEnd<C>, drive: DriveEnd<C, T>) -> PathEnd<C, T>
    requires line { worker.line.line ≡ drive.line.line }
    requires ended { has_end drive.line.items ≡ true }
    ensures { (table : TableId) (path : OnePath) (line : LineId) (start : TurretState)
        → Worked table path line worker.pass worker.line worker.why
        → Drove table path line start drive.pass drive.line drive.driven
        → IsPathEnd table path start result.why result.pass result.halter result.driven }
{
    let WorkerEnd {
        pass,
        line: sending,
        why,
    } = worker;
    let DriveEnd {
        pass: halter,
        line: taking,
        driven,
    } = drive;
    close_line(sending, taking);
    PathEnd {
        pass,
        halter,
        driven,
        why,
    }
}

/// Runs both paths over the seats of a table, each with its turret and a line, in the threads of
/// the crew and that of the caller, and closes the table. Gives back the table and both turrets.
fn run_seats<R, C, T>(rt: &R, crew: Crew<R, C, T>, seated: Seated<C>, turrets: Both<T>) -> Ran<C, T>
where
    R: Threads + Wait,
    C: Turns + Drop,
    T: Turret,
    requires passes { (seated.first ≡ fresh_pass seated.table One) × (seated.second ≡ fresh_pass seated.table Two) }
    requires halters { (seated.first_halt ≡ fresh_halter seated.table One)
        × (seated.second_halt ≡ fresh_halter seated.table Two) }
    ensures one { Serves (C.told result.table One ++ told_at_end result.whys.one)
        (T.state turrets.one) result.turrets.one }
    ensures two { Serves (C.told result.table Two ++ told_at_end result.whys.two)
        (T.state turrets.two) result.turrets.two }
    ensures halted { StopsBy result.turrets.one.phase (C.reason result.table)
        × StopsBy result.turrets.two.phase (C.reason result.table) }
{
    let Crew {
        mut worker,
        mut first,
        mut second,
        bench,
        one: (one_in, one_out),
        two: (two_in, two_out),
    } = crew;
    let Seated {
        table,
        first: one_pass,
        second: two_pass,
        first_halt: one_halt,
        second_halt: two_halt,
    } = seated;
    let Both {
        one: left,
        two: right,
    } = turrets;
    let bench = bench.with(rt, table);
    worker.tell(
        rt,
        Order::Work(WorkerJob {
            bench: bench.share(rt),
            path: Path::One,
            pass: one_pass,
            line: one_in,
        }),
    );
    first.tell(
        rt,
        Order::Work(DriveJob {
            bench: bench.share(rt),
            path: Path::One,
            pass: one_halt,
            line: one_out,
            turret: left,
        }),
    );
    second.tell(
        rt,
        Order::Work(DriveJob {
            bench: bench.share(rt),
            path: Path::Two,
            pass: two_halt,
            line: two_out,
            turret: right,
        }),
    );
    let own = WorkerJob {
        bench: bench.share(rt),
        path: Path::Two,
        pass: two_pass,
        line: two_in,
    };
    let two_sent = work_path(rt, own);
    let one_sent = worker.finish(rt);
    let one_taken = first.finish(rt);
    let two_taken = second.finish(rt);
    let one = end_path(one_sent, one_taken);
    let two = end_path(two_sent, two_taken);
    let table = bench
        .into_table(rt)
        .close(one.pass, two.pass, one.halter, two.halter);
    Ran {
        table,
        turrets: Both {
            one: one.driven,
            two: two.driven,
        },
        whys: Both {
            one: one.why,
            two: two.why,
        },
    }
}

/// Runs both paths of a table that has made no record since it was opened, until each path has
/// ended or the run has stopped: a worker and a drive for each, in the threads of the crew and that
/// of the caller. After it each turret has got what the table was answered for it since it was
/// opened, moves and rests in order, and then a rest at the end of its path if the path has ended.
/// Or the turret failed, and then the table has halted.
///
/// If memory runs out nothing is done, and all comes back.
pub fn run_pair<R, C, T>(
    rt: &R,
    alloc: Global,
    crew: Crew<R, C, T>,
    table: C,
    turrets: Both<T>,
) -> Result<Ran<C, T>, Unrun<C, T>>
where
    R: Threads + Wait,
    C: Turns + Drop,
    T: Turret,
    requires fresh { (p : OnePath) → C.told table p ≡ [] }
    ensures one { IfOk result (λ r. Serves (C.told r.table One ++ told_at_end r.whys.one)
        (T.state turrets.one) r.turrets.one) }
    ensures two { IfOk result (λ r. Serves (C.told r.table Two ++ told_at_end r.whys.two)
        (T.state turrets.two) r.turrets.two) }
    ensures halted { IfOk result (λ r. StopsBy r.turrets.one.phase (C.reason r.table)
        × StopsBy r.turrets.two.phase (C.reason r.table)) }
    ensures err { IfErr result (λ u. (u.table ≡ table) × (u.turrets ≡ turrets)) }
{
    match SeatTable::new(alloc, table) {
        Ok(seated) => Ok(run_seats(rt, crew, seated, turrets)),
        Err(table) => {
            crew.dismiss(rt);
            Err(Unrun { table, turrets })
        }
    }
}
