//! The worker of a path: it sends the moves of each step along the line. lane.rt runs it in a
//! thread.
ghost use Rattle.std.specs.Prelude.{◌≡◌, ◌++◌, [], ◌∷◌, List, false, map, MatchOption, ⊤};
ghost use Rattle.nc_outside.specs.declared.halt.Next.{Next as Answer};
ghost use Rattle.nc_outside.specs.Lined.{lined_moves};
ghost use Rattle.drive_line.specs.Line.{has_end};
ghost use Rattle.drive_line.specs.declared.item.Item.TheVariants.{Move as Sent};
ghost use Rattle.path_worker.specs.Work.{Works, GoesOn, IsAnswerOf, IsWhole};

use drive_line::{Drained, LineIn};
use nc_moves::Moves;
use nc_number::Path;
use nc_outside::{Drainable, Halt, LinedMove, Next, Stepper};
use std::sync::Wait;

/// Why a worker ended.
#[derive(Clone, Copy, Debug, PartialEq, Eq)]
pub enum Why {
    /// The path has ended.
    Finished,
    /// The run has stopped.
    Halted(Halt),
}

/// Sends the moves of a block, in order.
fn send_all<R: Wait>(rt: &R, line: &mut LineIn, moves: &Moves)
    requires { has_end line.old.items ≡ false }
    ensures line { line.new.line ≡ line.old.line }
    ensures items { line.new.items ≡ line.old.items ++ map Sent (lined_moves moves.now) }
    ensures open { has_end line.new.items ≡ false }
{
    for what in moves.list.as_slice() {
        let what = LinedMove {
            line: moves.line,
            what: *what,
        };
        line.send(rt, what);
    }
}

/// One step of the path, and what follows its answer: its moves are sent, or the line is drained
/// for a wait, or the end is sent, that of the path before it. It says why the worker ends, if it
/// does.
fn work_once<R: Wait, S: Stepper + Drainable<Drained>>(
    rt: &R,
    path: Path,
    stepper: &mut S,
    line: &mut LineIn,
) -> Option<Why>
    requires { has_end line.old.items ≡ false }
    ensures line { line.new.line ≡ line.old.line }
    ensures work { (answer : Answer)
        × Works path (S.calls stepper.old) (S.calls stepper.new) line.old.items line.new.items (answer ∷ [])
        × MatchOption result (GoesOn answer) (IsAnswerOf answer) }
    ensures open { MatchOption result (has_end line.new.items ≡ false) (λ why. ⊤) }
    ensures origin { S.origin stepper.new ≡ S.origin stepper.old }
{
    match stepper.step(path) {
        Next::Silent => None,
        Next::Moves(moves) => {
            send_all(rt, line, &moves);
            None
        }
        Next::Drain(code) => {
            let proof = line.drain(rt, code);
            stepper.drained(path, proof);
            None
        }
        Next::Finished => {
            line.finish(rt);
            line.end_line(rt);
            Some(Why::Finished)
        }
        Next::Halted(why) => {
            line.end_line(rt);
            Some(Why::Halted(why))
        }
    }
}

/// Works a path until its stepper answers that it has ended or stopped, and answers which. It sends
/// the moves of each step in order, and at the end the end, that of the path before it; where a step
/// answers Drain it drains the line for that wait and tells the stepper.
pub fn run_path<R: Wait, S: Stepper + Drainable<Drained>>(
    rt: &R,
    path: Path,
    stepper: &mut S,
    line: &mut LineIn,
) -> Why
    requires { has_end line.old.items ≡ false }
    ensures line { line.new.line ≡ line.old.line }
    ensures work { (answers : List Answer)
        × Works path (S.calls stepper.old) (S.calls stepper.new) line.old.items line.new.items answers
        × IsWhole answers result }
    ensures origin { S.origin stepper.new ≡ S.origin stepper.old }
{
    for _ in rt.forever() {
        if let Some(why) = work_once(rt, path, stepper, line) {
            return why;
        }
    }
    unreachable!()
}
