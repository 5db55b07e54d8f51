//! A step of a table, as it is handed on to the worker of its path.
//! For this crate alone: held.rt uses it.
ghost use Rattle.std.specs.Prelude.{◌≡◌, ◌&&◌, not, List};
ghost use Rattle.nc_moves.specs.declared.motion.Move.{Move};
ghost use Rattle.two_path.specs.Made.{turn_with};
ghost use Rattle.run_table.specs.Apart.{step_with};
ghost use Rattle.run_table.specs.Holding.{next_of_moves, next_of_turn, next_of, is_lost};

use crate::answer::StepAnswer;
use nc_moves::{MoveList, Moves};
use nc_outside::{Halt, Next};
use two_path::TurnAnswer;

/// What a block with these moves is for the worker: its moves, or `Silent` if it has none.
fn handed(line: u32, list: MoveList) -> Next
    ensures { result ≡ next_of_moves (record { line = line; list = list }) }
{
    if list.as_slice().is_empty() {
        return Next::Silent;
    }
    Next::Moves(Moves { line, list })
}

/// What a turn comes to for the worker of its path. None if the path waits.
fn next_of_turn(answer: TurnAnswer, moves: MoveList) -> Option<Next>
    ensures { result ≡ next_of_turn (turn_with answer moves) }
{
    match answer {
        TurnAnswer::Did { line } => Some(handed(line, moves)),
        TurnAnswer::Ended { line } => Some(handed(line, moves)),
        TurnAnswer::Read { .. } => Some(Next::Silent),
        TurnAnswer::Arrived { .. } => Some(Next::Silent),
        TurnAnswer::Met { .. } => Some(Next::Silent),
        TurnAnswer::Waiting { .. } => None,
        TurnAnswer::Finished => Some(Next::Finished),
        TurnAnswer::Alarm { alarm } => Some(Next::Halted(Halt::Alarm(alarm))),
        TurnAnswer::Halted { alarm } => Some(Next::Halted(Halt::Alarm(alarm))),
        TurnAnswer::Edited => Some(Next::Silent),
    }
}

/// What a step comes to for the worker of its path. None if the path waits.
pub(crate) fn next_of(step: StepAnswer, moves: MoveList) -> Option<Next>
    ensures { result ≡ next_of (step_with step moves) }
{
    match step {
        StepAnswer::Turned(answer) => next_of_turn(answer, moves),
        StepAnswer::Drain(code) => Some(Next::Drain(code)),
        StepAnswer::Undrained => Some(Next::Silent),
        StepAnswer::DiskFault => Some(Next::Halted(Halt::Disk)),
        StepAnswer::Halted(why) => Some(Next::Halted(why)),
    }
}

/// Whether the step made a record that did not get to the disk. It is told by the numbers of
/// records before and after the step.
fn is_lost(step: &StepAnswer, before: usize, after: usize) -> bool
    ensures { (moves : List Move) → result ≡ is_lost (step_with step.now moves) before after }
{
    match step {
        StepAnswer::DiskFault => before != after,
        StepAnswer::Turned(_) | StepAnswer::Drain(_) => false,
        StepAnswer::Undrained | StepAnswer::Halted(_) => false,
    }
}

/// Whether after the step the moves of the last record were answered: they were before it, and the
/// step lost no record.
pub(crate) fn is_still_shown(shown: bool, step: &StepAnswer, before: usize, after: usize) -> bool
    ensures { (moves : List Move) → result ≡ (shown && not (is_lost (step_with step.now moves) before after)) }
{
    shown && !is_lost(step, before, after)
}
