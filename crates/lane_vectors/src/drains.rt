//! Tests of drains (path_worker): a turret that queues its moves, and a stepper that sees at each
//! drain whether the turret has made every move before it.
use crate::workers::block;
use drive_line::{Drained, Driven, Line};
use nc_moves::Move;
use nc_number::{NoMemory, Path, Point};
use nc_outside::{Drain, Drainable, Failed, Halt, LinedMove, Next, Rest, Stepper, Turret};
use path_worker::{Lane, run_lane};
use std::alloc::Global;
use std::sync::Wait;
use std::sync::atomic::AtomicU64;
use std::sync::atomic::Ordering::SeqCst;
use std::test::Fail;
use std::thread;
use std::thread::Threads;

/// Queues the moves that it is handed, and makes them only when it is to settle. It counts those
/// that it has made where another thread sees the count. It is slow.
#[derive(Drop)]
struct Queue<'a> {
    /// How many moves it has made.
    made: &'a AtomicU64,
    /// How many moves it was handed since it settled last.
    queued: u64,
}

impl<'a> Turret for Queue<'a> {
    ghost use Rattle.std.specs.Prelude.{None};

    ghost state = { λ _. record { received = None; faults = 0 } };

    fn faults(&self) -> u64 {
        0
    }

    fn place(&mut self, _at: Point) -> Result<(), Failed> {
        Ok(())
    }

    fn hand(&mut self, _what: &LinedMove) -> Result<(), Failed> {
        self.queued = self.queued.saturating_add(1);
        Ok(())
    }

    fn settle(&mut self, _at: Rest) -> Result<(), Failed> {
        for _ in 0..50u8 {
            thread::yield_now();
        }
        self.made.fetch_add(self.queued, SeqCst);
        self.queued = 0;
        Ok(())
    }
}

/// Asks for a drain after each block but the last, and notes whether its answer came before the
/// turret had made the moves before it.
#[derive(Drop)]
struct Watcher<'a> {
    /// How many moves the turret has made.
    made: &'a AtomicU64,
    /// How many steps there were.
    steps: u64,
    /// Whether a drain was answered too early.
    early: bool,
}

impl<'a> Watcher<'a> {
    /// A watcher at its first step, which reads this count.
    fn new(made: &'a AtomicU64) -> Watcher<'a> {
        Watcher {
            made,
            steps: 0,
            early: false,
        }
    }
}

impl<'a> Stepper for Watcher<'a> {
    type Origin = ();

    ghost use Rattle.std.specs.Prelude.{None};

    ghost calls = { λ _. None };

    ghost origin = { λ _. tt };

    fn step(&mut self, _path: Path) -> Next {
        let step = self.steps;
        self.steps = step.wrapping_add(1);
        match step {
            201.. => Next::Finished,
            _ if step % 2 == 0 => block(1, &[Move::Aux { m: 1 }, Move::Aux { m: 2 }]),
            _ => Next::Drain(101),
        }
    }

    fn halt(&mut self, _why: Halt) {}
}

impl<'a> Drainable<Drained> for Watcher<'a> {
    fn drained(&mut self, _path: Path, proof: Drained) {
        if self.made.load(SeqCst) != proof.count() {
            self.early = true;
        }
    }
}

/// Runs path 2 with such a turret and such a stepper. It answers whether a drain was answered too
/// early.
fn watch<R: Threads + Wait + Sync>(
    rt: &R,
    alloc: Global,
    made: &AtomicU64,
) -> Result<bool, NoMemory> {
    let ends = Line::new(alloc, 64)?;
    let lane = Lane {
        stepper: Watcher::new(made),
        halter: Watcher::new(made),
        driven: Driven::new(Queue { made, queued: 0 }),
    };
    let end = run_lane(rt, Path::Two, ends, lane);
    Ok(end.stepper.early)
}

#[test]
fn a_turret_has_made_every_move_before_a_drain_and_at_the_end(rt: HostRuntime) -> Result<(), Fail> {
    let made = AtomicU64::new(0);
    let early = watch(&rt, rt.alloc(), &made)?;
    assert_eq!(rt; (early, made.load(SeqCst)), (false, 202));
    Ok(())
}
