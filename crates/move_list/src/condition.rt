//! How a path of the machine stands, and the word for it in the text of a state.
//! For this crate alone: standing.rt uses it.
ghost use Rattle.std.specs.Prelude.{◌≡◌, ◌+◌, ◌≤◌, ◌++◌, length, Option};
ghost use Rattle.text_pieces.specs.declared.piece.TheConstants.{MOST_BYTES};
ghost use Rattle.nc_number.specs.Both.{of_path};
ghost use Rattle.nc_moves.specs.declared.alarm.Alarm.{Alarm};
ghost use Rattle.move_list.specs.State.{condition_at_wait, condition_of, condition_text};

use nc_number::Path;
use text_pieces::Piece;
use two_path::Machine;

/// How a path stands.
#[derive(Clone, Copy, Debug, PartialEq, Eq)]
pub(crate) enum Condition {
    /// Its block is next.
    Ready,
    /// It waits at this code.
    Waiting(u16),
    /// It has ended.
    Finished,
    /// It raised the alarm that stopped both paths.
    Alarm,
    /// The other path's alarm stopped it.
    Stopped,
}

/// How a path stands that has not ended, without an alarm: ready, or waiting at this code.
fn condition_at_wait(waiting: Option<u16>) -> Condition
    ensures { result ≡ condition_at_wait waiting }
{
    match waiting {
        None => Condition::Ready,
        Some(code) => Condition::Waiting(code),
    }
}

/// How a path of the machine stands.
pub(crate) fn condition_of(machine: &Machine, path: Path) -> Condition
    ensures { result ≡ condition_of path machine.now.machine.alarm (of_path machine.now.machine.paths path) }
{
    match machine.alarm() {
        Some(alarm) => if alarm.path == path {
            Condition::Alarm
        } else if machine.finished(path) {
            Condition::Finished
        } else {
            Condition::Stopped
        },
        None => if machine.finished(path) {
            Condition::Finished
        } else {
            condition_at_wait(machine.waiting(path))
        },
    }
}

/// Adds the word for how a path stands, and for a wait its code.
#[tactic(auto, unfolding(crate::specs::State::condition_text))]
pub(crate) fn add_condition(piece: &mut Piece, condition: Condition)
    requires { length piece.old + 29 ≤ MOST_BYTES }
    ensures text { piece.new ≡ piece.old ++ condition_text condition }
    ensures size { length piece.new ≤ length piece.old + 29 }
{
    match condition {
        Condition::Ready => piece.add(b"ready"),
        Condition::Waiting(code) => {
            piece.add(b"waiting ");
            piece.add_code(code);
        }
        Condition::Finished => piece.add(b"finished"),
        Condition::Alarm => piece.add(b"alarm"),
        Condition::Stopped => piece.add(b"stopped"),
    }
}
