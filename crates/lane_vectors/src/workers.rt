//! Tests of path_worker: a worker and the drive beside it, over a stepper that answers from a list
//! and a turret in memory. drains.rt takes its blocks from here.
ghost use Rattle.std.specs.Prelude.{◌≡◌, ◌<◌, ◌≤◌, length, IfOk};
ghost use Rattle.drive_line.specs.Driving.{fresh_drive};

use drive_line::{Driven, Line};
use nc_moves::{Move, MoveList, Moves};
use nc_number::{NoMemory, Path};
use nc_outside::{Call, Got, Halt, LinedMove, ListStepper, MemoryTurret, Next, Rest};
use path_worker::{Lane, LaneEnd, Why, run_lane};
use std::alloc::{AllocError, Global};
use std::sync::Wait;
use std::test::Fail;
use std::thread::Threads;

/// A worker and a drive over lists, with a turret in memory.
type ListLane<'r, R> = Lane<ListStepper<'r, R>, ListStepper<'r, R>, MemoryTurret>;

/// What such a worker and drive leave.
type End<'r, R> = LaneEnd<ListStepper<'r, R>, ListStepper<'r, R>, MemoryTurret>;

/// What path 1 runs with: a stepper that gives these answers, and a turret that fails at the call
/// and at the settle of these numbers.
fn lane_of<'r, R>(
    rt: &'r R,
    alloc: Global,
    answers: Vec<Next>,
    failing: u64,
    unsettled: u64,
) -> Result<ListLane<'r, R>, NoMemory>
    ensures { IfOk result (λ lane. lane.driven ≡ fresh_drive lane.driven.state) }
{
    let turret = MemoryTurret::with_plans(alloc, 2000, &[failing], &[unsettled])?;
    Ok(Lane {
        stepper: ListStepper::new(rt, alloc, answers),
        halter: ListStepper::new(rt, alloc, Vec::new(alloc)),
        driven: Driven::new(turret),
    })
}

/// Runs path 1 over a line of this bound.
fn run<'r, R: Threads + Wait + Sync>(
    rt: &'r R,
    alloc: Global,
    bound: usize,
    lane: ListLane<'r, R>,
) -> Result<End<'r, R>, NoMemory>
    requires { (0 < bound) × (lane.driven ≡ fresh_drive lane.driven.state) }
{
    match Line::new(alloc, bound) {
        Ok(ends) => Ok(run_lane(rt, Path::One, ends, lane)),
        Err(wanting) => Err(wanting),
    }
}

/// A block of these moves at this line, as a stepper answers it.
pub(crate) fn block(line: u32, moves: &[Move]) -> Next
    requires { length moves.now ≤ 8 }
{
    let mut list = MoveList::empty();
    list.append(moves);
    Next::Moves(Moves { line, list })
}

/// The answer that a word of the tests stands for.
fn answer_of(word: &str) -> Next {
    match word {
        "silent" => Next::Silent,
        "M1" => block(3, &[Move::Aux { m: 1 }]),
        "M2M3" => block(5, &[Move::Aux { m: 2 }, Move::Aux { m: 3 }]),
        "M4" => block(8, &[Move::Aux { m: 4 }]),
        "empty" => block(6, &[]),
        "drain" => Next::Drain(101),
        "halted" => Next::Halted(Halt::Budget),
        _ => Next::Finished,
    }
}

/// Four moves, two drains and an answer of each other kind, with this one as the last.
fn every_answer(alloc: Global, last: &str) -> Result<Vec<Next>, NoMemory> {
    let mut answers = Vec::new(alloc);
    for word in "silent M1 drain M2M3 empty drain M4".split(' ') {
        answers.push(answer_of(word))?;
    }
    answers.push(answer_of(last))?;
    Ok(answers)
}

/// The word for an answer of a stepper.
fn word_of(answer: &Next) -> &'static str {
    match answer {
        Next::Silent => "silent",
        Next::Moves(_) => "moves",
        Next::Drain(_) => "drain",
        Next::Finished => "finished",
        Next::Halted(_) => "halted",
    }
}

/// Writes one call of a stepper.
fn put_call(out: &mut String, call: &Call) -> Result<(), AllocError> {
    match call {
        Call::Step { answer, .. } => write!(out, " {}", word_of(answer)),
        Call::Drained { count, .. } => write!(out, " drained {count}"),
        Call::Halt(Halt::Turret(Path::One)) => out.push_str(" halt of path 1"),
        Call::Halt(_) => out.push_str(" another halt"),
    }
}

/// Writes the calls of a stepper, in order.
fn put_calls(out: &mut String, calls: &[Call]) -> Result<(), AllocError> {
    for call in calls {
        put_call(out, call)?;
    }
    Ok(())
}

/// Writes the moves that a turret got, each with its line, and its rests.
fn put_got(out: &mut String, got: &[Got]) -> Result<(), AllocError> {
    for what in got {
        match *what {
            Got::Moved(
                LinedMove {
                    line,
                    what: Move::Aux { m },
                },
            ) => write!(out, " {line}:M{m}")?,
            Got::Rested(Rest::Wait(code)) => write!(out, " rest {code}")?,
            Got::Rested(Rest::End) => out.push_str(" end")?,
            _ => out.push_str(" another")?,
        }
    }
    Ok(())
}

/// The word for why a worker ended.
fn reason_of(why: Why) -> &'static str {
    match why {
        Why::Finished => "finished",
        Why::Halted(Halt::Budget) => "halted",
        Why::Halted(_) => "another halt",
    }
}

/// What is left of a run: why the worker ended, the moves that the turret got and how many it
/// missed, whether it failed, the drive's calls, and the worker's calls.
fn told<R>(alloc: Global, end: End<'_, R>) -> Result<String, AllocError> {
    let mut out = String::from_str(alloc, reason_of(end.why))?;
    let missed = end.driven.missed();
    let fault = if end.driven.has_failed() {
        "failed"
    } else {
        "whole"
    };
    put_got(&mut out, end.driven.into_turret().got())?;
    write!(&mut out, " missed {missed} {fault}")?;
    put_calls(&mut out, end.halter.calls())?;
    out.push_str(" of")?;
    put_calls(&mut out, end.stepper.calls())?;
    Ok(out)
}

/// What is left of a run whose stepper gives every answer, with this one as the last.
fn outcome<R: Threads + Wait + Sync>(
    rt: &R,
    alloc: Global,
    bound: usize,
    failing: u64,
    unsettled: u64,
    last: &str,
) -> Result<String, NoMemory>
    requires { 0 < bound }
{
    let answers = every_answer(alloc, last)?;
    let lane = lane_of(rt, alloc, answers, failing, unsettled)?;
    let end = run(rt, alloc, bound, lane)?;
    Ok(told(alloc, end)?)
}

/// The calls of a worker whose stepper gives every answer, without the last one.
const CALLS: &str = "silent moves drain drained 1 moves moves drain drained 3 moves";

#[test]
fn a_worker_steps_sends_and_drains_until_the_turret_fails(rt: HostRuntime) -> Result<(), Fail> {
    let alloc = rt.alloc();
    for (bound, failing, unsettled, last, left) in [
        (
            1,
            0,
            0,
            "halted",
            "3:M1 rest 101 5:M2 5:M3 rest 101 8:M4 missed 0 whole",
        ),
        (
            2,
            0,
            0,
            "halted",
            "3:M1 rest 101 5:M2 5:M3 rest 101 8:M4 missed 0 whole",
        ),
        (
            64,
            0,
            0,
            "halted",
            "3:M1 rest 101 5:M2 5:M3 rest 101 8:M4 missed 0 whole",
        ),
        (2, 1, 0, "finished", "missed 4 failed halt of path 1"),
        (
            2,
            2,
            0,
            "finished",
            "3:M1 rest 101 missed 3 failed halt of path 1",
        ),
        (
            2,
            3,
            0,
            "finished",
            "3:M1 rest 101 5:M2 missed 2 failed halt of path 1",
        ),
        (
            2,
            4,
            0,
            "finished",
            "3:M1 rest 101 5:M2 5:M3 rest 101 missed 1 failed halt of path 1",
        ),
        (
            2,
            5,
            0,
            "finished",
            "3:M1 rest 101 5:M2 5:M3 rest 101 8:M4 end missed 0 whole",
        ),
        (2, 0, 1, "finished", "3:M1 missed 3 failed halt of path 1"),
        (
            2,
            0,
            2,
            "finished",
            "3:M1 rest 101 5:M2 5:M3 missed 1 failed halt of path 1",
        ),
        (
            2,
            0,
            3,
            "finished",
            "3:M1 rest 101 5:M2 5:M3 rest 101 8:M4 missed 0 failed halt of path 1",
        ),
        (
            2,
            0,
            4,
            "finished",
            "3:M1 rest 101 5:M2 5:M3 rest 101 8:M4 end missed 0 whole",
        ),
    ] {
        let due = format!(in alloc; "{last} {left} of {CALLS} {last}")?;
        let told = outcome(&rt, alloc, bound, failing, unsettled, last)?;
        assert_eq!(rt; told.as_str(), due.as_str());
    }
    Ok(())
}

/// Blocks of one rest each, as long in milliseconds as blocks come before it, and a drain after
/// each tenth.
fn many_blocks(alloc: Global, count: u64) -> Result<Vec<Next>, NoMemory> {
    let mut answers = Vec::new(alloc);
    for ms in 0..count {
        answers.push(block(1, &[Move::Dwell { ms }]))?;
        if ms % 10 == 9 {
            answers.push(Next::Drain(101))?;
        }
    }
    Ok(answers)
}

/// How many of the moves that were got are the rests of those blocks, in order from the first on.
fn in_order(got: &[Got]) -> u64 {
    let mut count = 0u64;
    for what in got {
        let due = LinedMove {
            line: 1,
            what: Move::Dwell { ms: count },
        };
        if *what == Got::Moved(due) {
            count = count.wrapping_add(1);
        }
    }
    count
}

/// Whether the path finished, whether the turret failed, how many moves it missed, how many moves and
/// rests it got, how many moves came in order, and how many calls the worker made.
type Rested = (bool, bool, u64, usize, u64, usize);

/// What is left of a run of so many blocks with one rest each.
fn rested<R: Threads + Wait + Sync>(
    rt: &R,
    alloc: Global,
    count: u64,
    bound: usize,
) -> Result<Rested, NoMemory>
    requires { 0 < bound }
{
    let answers = many_blocks(alloc, count)?;
    let lane = lane_of(rt, alloc, answers, 0, 0)?;
    let end = run(rt, alloc, bound, lane)?;
    let (failed, missed) = (end.driven.has_failed(), end.driven.missed());
    let turret = end.driven.into_turret();
    Ok((
        matches!(end.why, Why::Finished),
        failed,
        missed,
        turret.got().len(),
        in_order(turret.got()),
        end.stepper.calls().len(),
    ))
}

#[test]
fn rests_reach_the_turret_in_order(rt: HostRuntime) -> Result<(), Fail> {
    for (count, bound, due) in [
        (12, 2, (true, false, 0, 14, 12, 15)),
        (1000, 1, (true, false, 0, 1101, 1000, 1201)),
        (1000, 2, (true, false, 0, 1101, 1000, 1201)),
        (1000, 64, (true, false, 0, 1101, 1000, 1201)),
    ] {
        let got = rested(&rt, rt.alloc(), count, bound)?;
        assert_eq!(rt; got, due);
    }
    Ok(())
}
