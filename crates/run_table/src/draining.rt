//! When a path has to be drained before it goes on: its turret is to have all its moves and to
//! stand still before the path comes to a wait, at each wait anew. For this crate alone: table.rt uses it.
ghost use Rattle.std.specs.Prelude.{◌≡◌, Some};
ghost use Rattle.nc_number.specs.Path.{other_of};
ghost use Rattle.nc_number.specs.Both.{of_path};
ghost use Rattle.tape_flow.specs.Places.{label_at};
ghost use Rattle.run_table.specs.Apart.{step_with};
ghost use Rattle.run_table.specs.Draining.{none_resting, with_resting, rest_behind, resting_behind, once_rested};
ghost use Rattle.run_table.specs.Draining.{with_drained, drain_answer, drains_by, flow_for, may_come, comes_by};

use crate::answer::StepAnswer;
use crate::resting::Resting;
use block_order::Label;
use nc_moves::MoveList;
use nc_number::{Both, Path};
use nc_verify::Verified;
use tape_flow::Flow;
use two_path::{Machine, TurnAnswer};

/// For a new run: no turret was told to rest for a wait.
pub(crate) fn none_resting() -> Both<Resting>
    ensures { result ≡ none_resting }
{
    Both {
        one: Resting::Unasked,
        two: Resting::Unasked,
    }
}

/// Sets for this path whether its turret rests for a wait.
fn with_resting(resting: Both<Resting>, path: Path, is: Resting) -> Both<Resting>
    ensures { result ≡ with_resting path is resting }
{
    match path {
        Path::One => Both { one: is, ..resting },
        Path::Two => Both { two: is, ..resting },
    }
}

/// Whether the turret of a path rests for a wait once this was answered to the path.
fn rest_behind(resting: Resting, step: &StepAnswer, moves: &MoveList) -> Resting
    ensures { result ≡ rest_behind (step_with step.now moves.now) resting }
{
    let _ = moves;
    match step {
        StepAnswer::Drain(code) => Resting::Asked(*code),
        StepAnswer::Turned(TurnAnswer::Arrived { .. }) => Resting::Unasked,
        StepAnswer::Turned(TurnAnswer::Met { .. }) => Resting::Unasked,
        StepAnswer::Turned(_) => resting,
        StepAnswer::Undrained => resting,
        StepAnswer::DiskFault => resting,
        StepAnswer::Halted(_) => resting,
    }
}

/// Which turrets rest for a wait once this was answered to the path.
pub(crate) fn resting_behind(
    resting: Both<Resting>,
    path: Path,
    step: &StepAnswer,
    moves: &MoveList,
) -> Both<Resting>
    ensures { result ≡ resting_behind path (step_with step.now moves.now) resting }
{
    with_resting(resting, path, rest_behind(*resting.of(path), step, moves))
}

/// Whether the turret rests once its path was drained: it does if it was told to.
fn once_rested(resting: Resting) -> Resting
    ensures { result ≡ once_rested resting }
{
    match resting {
        Resting::Unasked => Resting::Unasked,
        Resting::Asked(code) => Resting::Rests(code),
        Resting::Rests(code) => Resting::Rests(code),
    }
}

/// Which turrets rest for a wait once this path was drained.
pub(crate) fn with_drained(resting: Both<Resting>, path: Path) -> Both<Resting>
    ensures { result ≡ with_drained path resting }
{
    with_resting(resting, path, once_rested(*resting.of(path)))
}

/// What is answered to a path instead of its turn, by whether its turret rests and by the code of
/// the wait to which the turn would bring it, if it would. None if the turn may come.
pub(crate) fn drain_before(resting: Resting, ahead: Option<u16>) -> Option<StepAnswer>
    ensures { result ≡ drain_answer (drains_by resting ahead) }
{
    match ahead {
        None => None,
        Some(code) => drain_at(resting, code),
    }
}

/// What is answered instead of the turn to a path that comes to the wait of this code. None if its
/// turret rests.
fn drain_at(resting: Resting, code: u16) -> Option<StepAnswer>
    ensures { result ≡ drain_answer (drains_by resting (Some code)) }
{
    match resting {
        Resting::Unasked => Some(StepAnswer::Drain(code)),
        Resting::Asked(_) => Some(StepAnswer::Undrained),
        Resting::Rests(_) => None,
    }
}

/// Whether a path may come to a wait of this code, by the code at which the other path waits.
fn may_come(code: u16, there: Option<u16>) -> bool
    ensures { result ≡ may_come code there }
{
    match there {
        None => true,
        Some(there) => code == there,
    }
}

/// The flow of the path's tape.
pub(crate) fn flow_of(verified: &Verified, path: Path) -> &Flow
    ensures { result.now ≡ flow_for verified.now path }
{
    match path {
        Path::One => verified.left(),
        Path::Two => verified.right(),
    }
}

/// The code of the wait to which the path's turn would bring it, where it waits or goes on. None if
/// it would bring it to none. The flow is that of the path.
pub(crate) fn wait_ahead(machine: &Machine, flow: &Flow, path: Path) -> Option<u16>
    ensures { result ≡ comes_by machine.now.machine.alarm (of_path machine.now.machine.paths path).finished
        (of_path machine.now.machine.paths path).waiting
        (label_at flow.now.order (of_path machine.now.machine.paths path).path.place)
        (of_path machine.now.machine.paths (other_of path)).waiting }
{
    if machine.alarm().is_some() || machine.finished(path) || machine.waiting(path).is_some() {
        return None;
    }
    let Some(Label::Wait(code)) = flow.label(machine.path(path).place()) else {
        return None;
    };
    if may_come(code, machine.waiting(path.other())) {
        return Some(code);
    }
    None
}
