//! The threads of a run, asked for before anything else is done for it, and what they share.
//! pair.rt gives them their work.
ghost use Rattle.std.specs.Prelude.{◌≡◌, [], None};
ghost use Rattle.lane_pair.specs.Seats.{AreNewEnds};

use crate::jobs::{DriveJob, WorkerJob};
use crate::sharing::Bench;
use drive_line::{Line, LineIn, LineOut};
use kept_threads::{Kept, keep};
use nc_number::NoMemory;
use nc_outside::Turret;
use seat_table::Turns;
use std::alloc::Global;
use std::sync::Wait;
use std::thread::{Scope, Threads};

/// How many moves a drive line holds before its worker has to wait.
const BOUND: usize = 64;

/// The threads that a run needs beside its caller's, each of which waits for its job, and what they
/// are to share: a place for the table, and a line for each path.
#[derive(Drop)]
pub struct Crew<R: Wait, C: Turns + Drop, T: Turret> {
    /// The thread of path 1's worker. The caller's own is that of path 2's.
    pub(crate) worker: Kept<R, WorkerJob<C>>,
    /// The thread of path 1's drive.
    pub(crate) first: Kept<R, DriveJob<C, T>>,
    /// The thread of path 2's drive.
    pub(crate) second: Kept<R, DriveJob<C, T>>,
    /// The place for the table.
    pub(crate) bench: Bench<C>,
    /// The two ends of path 1's line.
    pub(crate) one: (LineIn, LineOut<T>),
    /// The two ends of path 2's line.
    pub(crate) two: (LineIn, LineOut<T>),
    ghost idle: { (worker ≡ []) × (first ≡ []) × (second ≡ []) },
    ghost vacant: { bench ≡ None },
    ghost lines: { AreNewEnds one.0 one.1 × AreNewEnds two.0 two.1 },
}

/// Asks for the threads of a run. If one is refused, or memory runs out, those that were made are
/// sent home.
pub fn gather<'s, E, R, C, T>(
    rt: &'s R,
    alloc: Global,
    scope: &Scope<'s, E>,
) -> Result<Crew<R, C, T>, NoMemory>
where
    R: Threads + Wait + Sync + 's,
    C: Turns + Send + Drop + 's,
    T: Turret + Send + 's,
{
    let bench = Bench::vacant(alloc)?;
    let one = Line::new(alloc, BOUND)?;
    let two = Line::new(alloc, BOUND)?;
    let worker = keep::<E, R, WorkerJob<C>>(rt, alloc, scope)?;
    let first = match keep::<E, R, DriveJob<C, T>>(rt, alloc, scope) {
        Ok(first) => first,
        Err(refused) => {
            worker.dismiss(rt);
            return Err(refused);
        }
    };
    let second = match keep::<E, R, DriveJob<C, T>>(rt, alloc, scope) {
        Ok(second) => second,
        Err(refused) => {
            worker.dismiss(rt);
            first.dismiss(rt);
            return Err(refused);
        }
    };
    Ok(Crew {
        worker,
        first,
        second,
        bench,
        one,
        two,
    })
}

impl<R: Threads + Wait, C: Turns + Drop, T: Turret> Crew<R, C, T> {
    /// Sends the threads home.
    pub fn dismiss(self, rt: &R) {
        let Crew {
            worker,
            first,
            second,
            ..
        } = self;
        worker.dismiss(rt);
        first.dismiss(rt);
        second.dismiss(rt);
    }
}
