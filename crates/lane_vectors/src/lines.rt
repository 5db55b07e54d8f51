//! Tests of a line of moves between two threads (drive_line): dwells, a drain among them, and the
//! end come out in the order in which they were sent.
ghost use Rattle.std.specs.Prelude.{◌≡◌, ◌<◌, false, []};
ghost use Rattle.drive_line.specs.Line.{has_end};

use drive_line::{Driven, Line, LineIn, LineOut, close_line};
use nc_moves::Move;
use nc_number::{NoMemory, Path};
use nc_outside::{Drain, Got, LinedMove, ListStepper, MemoryTurret};
use path_worker::run_drive;
use std::alloc::Global;
use std::sync::Wait;
use std::test::Fail;
use std::thread;
use std::thread::Threads;

/// Sends the rests from `first` to `last` milliseconds, each with its number as its line, with a
/// drain after one of them, and then the end. It answers what the drain told.
fn send_rests<R: Wait>(rt: &R, line: LineIn, first: u32, drained: u32, last: u32) -> (u64, LineIn)
    requires { has_end line.items ≡ false }
    ensures { result.1.line ≡ line.line }
{
    let mut line = line;
    let mut told = 0u64;
    for number in first..=last {
        let what = Move::Dwell { ms: number as u64 };
        line.send(rt, LinedMove { line: number, what });
        if number == drained {
            told = line.drain(rt, 101).count();
        }
    }
    line.end_line(rt);
    (told, line)
}

/// Takes all that comes along the line with a turret, until the end, and gives the turret back.
fn take_rests<R: Wait>(
    rt: &R,
    alloc: Global,
    line: LineOut<MemoryTurret>,
    turret: MemoryTurret,
) -> (MemoryTurret, LineOut<MemoryTurret>)
    requires { (line.items ≡ []) × (line.asked ≡ false) }
    ensures { result.1.line ≡ line.line }
{
    let mut line = line;
    let mut driven = Driven::new(turret);
    let mut halter = ListStepper::new(rt, alloc, Vec::new(alloc));
    run_drive(rt, Path::One, &mut line, &mut halter, &mut driven);
    (driven.into_turret(), line)
}

/// The number after those of the rests that the turret got in order, from the first on.
fn next_of(got: &[Got], first: u32) -> u32 {
    let mut next = first;
    for what in got {
        let due = LinedMove {
            line: next,
            what: Move::Dwell { ms: next as u64 },
        };
        if *what == Got::Moved(due) {
            next = next.wrapping_add(1);
        }
    }
    next
}

/// What the drain told, the number after the last dwell that the turret got in order, how many dwells
/// and rests it got, and whether the end was taken.
type Crossed = (u64, u32, usize, bool);

/// Rests cross a line of this bound in two threads. Given are the first rest, the one with a drain
/// after it, and the last.
fn cross<R: Threads + Wait + Sync>(
    rt: &R,
    alloc: Global,
    bound: usize,
    rests: [u32; 3],
) -> Result<Crossed, NoMemory>
    requires { 0 < bound }
{
    let [first, drained, last] = rests;
    let turret = MemoryTurret::new(alloc, 1001, &[])?;
    let (line_in, line_out) = Line::new(alloc, bound)?;
    let ((told, line_in), (turret, line_out)) = thread::join(
        rt,
        move || send_rests(rt, line_in, first, drained, last),
        move || take_rests(rt, alloc, line_out, turret),
    );
    let next = next_of(turret.got(), first);
    Ok((
        told,
        next,
        turret.got().len(),
        close_line(line_in, line_out),
    ))
}

#[test]
fn rests_and_the_end_cross_a_line_in_order(rt: HostRuntime) -> Result<(), Fail> {
    for (times, bound, rests, due) in [
        (200, 2, [1, 2, 3], (2, 4, 4, true)),
        (1, 1, [0, 999, 999], (1000, 1000, 1001, true)),
        (1, 2, [0, 999, 999], (1000, 1000, 1001, true)),
        (1, 64, [0, 999, 999], (1000, 1000, 1001, true)),
    ] {
        for _ in 0..times {
            let crossed = cross(&rt, rt.alloc(), bound, rests)?;
            assert_eq!(rt; crossed, due);
        }
    }
    Ok(())
}
