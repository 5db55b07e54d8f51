//! A turn of a path, over its own part, the other's, and what both have in common; one function for
//! each case of specs/Turns.antt.
//! For this crate alone: machine.rt calls `take_turn`, again.rt calls `settle`.
ghost use Rattle.std.specs.Prelude.{◌≡◌, ◌≤◌, ◌<◌, ℕ, List, [], Some, None, length, IfSome};
ghost use Rattle.nc_number.specs.declared.limits.TheConstants.{MOST_READS, MOST_RECORDS};
ghost use Rattle.nc_moves.specs.declared.motion.Move.{Move};
ghost use Rattle.block_order.specs.declared.control.Control.TheVariants.{Wait};
ghost use Rattle.block_order.specs.Steps.{control_of_place};
ghost use Rattle.common_vars.specs.Writes.{IsShared};
ghost use Rattle.run_records.specs.declared.entry.EntryKind.TheVariants as Kind;
ghost use Rattle.path_state.specs.View.{PathView};
ghost use Rattle.path_state.specs.StatementSteps.{write_seen};
ghost use Rattle.path_state.specs.Effect.{Need, Done, AtWait, AtEnd};
ghost use Rattle.two_path.specs.declared.turn.TurnAnswer.TheVariants as Answer;
ghost use Rattle.two_path.specs.Machine as Machine;
ghost use Rattle.two_path.specs.Joined.{machine_of, AreShared, HasTaken, IsAtItsWait, IsLasting};
ghost use Rattle.two_path.specs.Turns.{with_alarm, with_arrival, behind_meeting, blocks_of, own_turn, block_turn, result_at_wait, result_by, kind_of, entry_with};
ghost use Rattle.tape_flow.specs.Places.{line_at};
ghost use Rattle.motion_track.specs.Within.{AreMovesWithin};
ghost use Rattle.two_path.specs.Made.{answer_of, moves_of_turn};

use crate::joint::Joint;
use crate::part::Part;
use crate::turn::{Answered, TurnAnswer};
use motion_track::LONGEST;
use nc_moves::{Alarm, MoveList};
use nc_number::{Cause, Path, Value, Var};
use path_state::{
    BlockAnswer, a_block_asks_for_each_variable_once_at_most, control_goes_as_the_flow_orders,
    what_is_written_is_shared,
};
use run_records::EntryKind;
use tape_flow::Flow;

/// The turn in which the path's block reads a shared variable. It makes no record.
fn read(me: &mut Part, joint: &Joint, variable: u32) -> Answered
    requires few { length me.old.values < MOST_READS }
    requires shared { IsShared joint.now.shared.shared100 joint.now.shared.shared500 variable }
    ensures answer { (path : Path) (line : ℕ) (other : Machine.Part)
        → result.answer ≡ answer_of (result_by path line (machine_of me.old other joint.now) (Need variable)).turn }
    ensures machine { (path : Path) (line : ℕ) (other : Machine.Part)
        → machine_of me.new other joint.now
        ≡ (result_by path line (machine_of me.old other joint.now) (Need variable)).machine }
    ensures entry { result.entry ≡ None }
{
    let stamp = joint.count();
    me.read(joint.at(stamp, variable), stamp);
    Answered {
        answer: TurnAnswer::Read { variable, stamp },
        entry: None,
    }
}

/// The turn in which the path's block, of this line, is done. The path stands behind it already.
fn did(
    me: &mut Part,
    joint: &mut Joint,
    path: Path,
    line: u32,
    write: Option<(u32, Var)>,
) -> Answered
    requires room { 0 < joint.old.shared.room }
    requires few { joint.old.count ≤ MOST_RECORDS }
    requires shared { IfSome write (λ w. IsShared joint.old.shared.shared100 joint.old.shared.shared500 w.0) }
    ensures answer { result.answer ≡ Answer.Did line }
    ensures machine { (before : PathView) (at : ℕ) (other : Machine.Part) (moves : List Move)
        → machine_of me.new other joint.new
        ≡ (result_by path at (machine_of (record me.old { path = before }) other joint.old)
        (Done me.old.path (write_seen write) moves)).machine }
    ensures entry { result.entry ≡ entry_with path me.old.stamps (Some Kind.Did) }
    ensures lasting { IsLasting joint.old joint.new }
{
    let entry = me.entry(path, EntryKind::Did);
    joint.add(write);
    me.come(joint.count());
    Answered {
        answer: TurnAnswer::Did { line },
        entry: Some(entry),
    }
}

/// The turn in which the path ends, with its block of this line.
fn ended(me: &mut Part, joint: &mut Joint, path: Path, line: u32) -> Answered
    requires room { 0 < joint.old.shared.room }
    requires few { joint.old.count ≤ MOST_RECORDS }
    ensures answer { result.answer ≡ Answer.Ended line }
    ensures machine { (before : PathView) (at : ℕ) (other : Machine.Part) (moves : List Move)
        → machine_of me.new other joint.new
        ≡ (result_by path at (machine_of (record me.old { path = before }) other joint.old)
        (AtEnd me.old.path moves)).machine }
    ensures entry { result.entry ≡ entry_with path me.old.stamps (Some Kind.Ended) }
    ensures lasting { IsLasting joint.old joint.new }
{
    let entry = me.entry(path, EntryKind::Ended);
    joint.add(None);
    me.end();
    Answered {
        answer: TurnAnswer::Ended { line },
        entry: Some(entry),
    }
}

/// The turn in which the path raises an alarm, which stops both paths.
fn alarmed(me: &mut Part, joint: &mut Joint, alarm: &Alarm) -> Answered
    requires few { joint.old.count ≤ MOST_RECORDS }
    ensures answer { result.answer ≡ Answer.Alarm alarm.now }
    ensures machine { (other : Machine.Part) → machine_of me.new other joint.new
        ≡ with_alarm alarm.now (machine_of me.old other joint.old) }
    ensures entry { result.entry ≡ entry_with alarm.now.path me.old.stamps (Some Kind.Alarmed) }
    ensures lasting { IsLasting joint.old joint.new }
{
    let entry = me.entry(alarm.path, EntryKind::Alarmed);
    joint.raise(*alarm);
    Answered {
        answer: TurnAnswer::Alarm { alarm: *alarm },
        entry: Some(entry),
    }
}

/// The turn in which the path arrives at a wait, and waits there.
fn arrived(me: &mut Part, joint: &mut Joint, path: Path, code: u16) -> Answered
    requires room { 0 < joint.old.shared.room }
    requires few { joint.old.count ≤ MOST_RECORDS }
    ensures answer { result.answer ≡ Answer.Arrived code }
    ensures machine { (other : Machine.Part) → machine_of me.new other joint.new
        ≡ with_arrival code (machine_of me.old other joint.old) }
    ensures entry { result.entry ≡ entry_with path me.old.stamps (Some Kind.Arrived) }
    ensures lasting { IsLasting joint.old joint.new }
{
    let entry = me.entry(path, EntryKind::Arrived);
    joint.add(None);
    me.wait(code);
    Answered {
        answer: TurnAnswer::Arrived { code },
        entry: Some(entry),
    }
}

/// The turn in which the path meets the other, which waits at the same code. Both go on.
fn met(
    me: &mut Part,
    other: &mut Part,
    joint: &mut Joint,
    flow: &Flow,
    other_flow: &Flow,
    path: Path,
    code: u16,
) -> Answered
    requires room { 0 < joint.old.shared.room }
    requires few { joint.old.count ≤ MOST_RECORDS }
    requires here { (c : ℕ) × (control_of_place flow.now.order me.old.path.place ≡ Some (Wait c)) }
    requires there { (c : ℕ) × (control_of_place other_flow.now.order other.old.path.place ≡ Some (Wait c)) }
    ensures answer { result.answer ≡ Answer.Met code }
    ensures machine { machine_of me.new other.new joint.new ≡ behind_meeting (machine_of me.old other.old joint.old) }
    ensures entry { result.entry ≡ entry_with path me.old.stamps (Some Kind.Met) }
    ensures lasting { IsLasting joint.old joint.new }
{
    let entry = me.entry(path, EntryKind::Met);
    joint.add(None);
    me.pass(flow, joint.count());
    other.pass(other_flow, joint.count());
    Answered {
        answer: TurnAnswer::Met { code },
        entry: Some(entry),
    }
}

/// The turn of a path at a wait of this code, at this line: both go on if the other waits at the
/// same code; there is an alarm if it waits at another; the path waits if it does not wait.
fn came_to_wait(
    me: &mut Part,
    other: &mut Part,
    joint: &mut Joint,
    flow: &Flow,
    other_flow: &Flow,
    path: Path,
    line: u32,
    code: u16,
) -> Answered
    requires room { 0 < joint.old.shared.room }
    requires few { joint.old.count ≤ MOST_RECORDS }
    requires here { control_of_place flow.now.order me.old.path.place ≡ Some (Wait code) }
    requires there { IsAtItsWait other_flow.now.order other.old }
    ensures answer { result.answer ≡ answer_of (result_at_wait path line
        (machine_of me.old other.old joint.old) code other.old.waiting).turn }
    ensures machine { machine_of me.new other.new joint.new
        ≡ (result_at_wait path line (machine_of me.old other.old joint.old) code other.old.waiting).machine }
    ensures entry { result.entry ≡ entry_with path me.old.stamps
        (kind_of (result_at_wait path line (machine_of me.old other.old joint.old) code other.old.waiting).turn) }
    ensures lasting { IsLasting joint.old joint.new }
{
    match other.waiting() {
        None => arrived(me, joint, path, code),
        Some(there) => if code == there {
            met(me, other, joint, flow, other_flow, path, code)
        } else {
            let alarm = Alarm {
                path,
                line,
                cause: Cause::WaitDiffers.number(),
                value: Value::zero(),
            };
            alarmed(me, joint, &alarm)
        },
    }
}

/// The turn of a path whose block, of this line, was taken with what it had read before, by the
/// path's answer.
#[inline(always)]
pub(crate) fn settle(
    me: &mut Part,
    other: &mut Part,
    joint: &mut Joint,
    flow: &Flow,
    other_flow: &Flow,
    path: Path,
    line: u32,
    answer: BlockAnswer,
) -> Answered
    requires room { 0 < joint.old.shared.room }
    requires few { joint.old.count ≤ MOST_RECORDS }
    requires there { IsAtItsWait other_flow.now.order other.old }
    requires taken { (before : Machine.Part) × ((moves : List Move)
        × (AreShared before joint.old × HasTaken (blocks_of flow.now) before me.old answer moves)) }
    ensures answer { (before : Machine.Part) (moves : List Move) → line_at flow.now.order before.path.place ≡ line
        → HasTaken (blocks_of flow.now) before me.old answer moves
        → result.answer ≡ answer_of
        (block_turn (blocks_of flow.now) path (machine_of before other.old joint.old)).turn }
    ensures machine { (before : Machine.Part) (moves : List Move) → line_at flow.now.order before.path.place ≡ line
        → HasTaken (blocks_of flow.now) before me.old answer moves
        → machine_of me.new other.new joint.new
        ≡ (block_turn (blocks_of flow.now) path (machine_of before other.old joint.old)).machine }
    ensures entry { (before : Machine.Part) (moves : List Move) → line_at flow.now.order before.path.place ≡ line
        → HasTaken (blocks_of flow.now) before me.old answer moves
        → result.entry ≡ entry_with path before.stamps
        (kind_of (block_turn (blocks_of flow.now) path (machine_of before other.old joint.old)).turn) }
    ensures lasting { IsLasting joint.old joint.new }
{
    control_goes_as_the_flow_orders();
    a_block_asks_for_each_variable_once_at_most();
    what_is_written_is_shared();
    match answer {
        BlockAnswer::Need(variable) => read(me, joint, variable),
        BlockAnswer::Done(write) => did(me, joint, path, line, write),
        BlockAnswer::AtWait(code) => came_to_wait(
            me, other, joint, flow, other_flow, path, line, code,
        ),
        BlockAnswer::AtEnd => ended(me, joint, path, line),
        BlockAnswer::Alarm { cause, value } => {
            let alarm = Alarm {
                path,
                line,
                cause,
                value,
            };
            alarmed(me, joint, &alarm)
        }
    }
}

/// The turn in which the path's block runs, with what it has read so far.
pub(crate) fn run_block(
    me: &mut Part,
    other: &mut Part,
    joint: &mut Joint,
    flow: &Flow,
    other_flow: &Flow,
    path: Path,
    moves: &mut MoveList,
) -> Answered
    requires room { 0 < joint.old.shared.room }
    requires few { joint.old.count ≤ MOST_RECORDS }
    requires shared { AreShared me.old joint.old }
    requires there { IsAtItsWait other_flow.now.order other.old }
    ensures answer { result.answer
        ≡ answer_of (block_turn (blocks_of flow.now) path (machine_of me.old other.old joint.old)).turn }
    ensures machine { machine_of me.new other.new joint.new
        ≡ (block_turn (blocks_of flow.now) path (machine_of me.old other.old joint.old)).machine }
    ensures entry { result.entry ≡ entry_with path me.old.stamps
        (kind_of (block_turn (blocks_of flow.now) path (machine_of me.old other.old joint.old)).turn) }
    ensures lasting { IsLasting joint.old joint.new }
    ensures moves { moves.new
        ≡ moves_of_turn (block_turn (blocks_of flow.now) path (machine_of me.old other.old joint.old)).turn }
    ensures within { AreMovesWithin LONGEST moves.new }
{
    let line = me.line(flow);
    let answer = me.advance(flow, moves);
    settle(me, other, joint, flow, other_flow, path, line, answer)
}

/// A turn of the path: nothing happens once there is an alarm, once it has ended, and while it
/// waits; else its block runs. Its moves are put into the list, which is cleared first.
pub(crate) fn take_turn(
    me: &mut Part,
    other: &mut Part,
    joint: &mut Joint,
    flow: &Flow,
    other_flow: &Flow,
    path: Path,
    moves: &mut MoveList,
) -> Answered
    requires room { 0 < joint.old.shared.room }
    requires few { joint.old.count ≤ MOST_RECORDS }
    requires shared { AreShared me.old joint.old }
    requires there { IsAtItsWait other_flow.now.order other.old }
    ensures answer { result.answer
        ≡ answer_of (own_turn (blocks_of flow.now) path (machine_of me.old other.old joint.old)).turn }
    ensures machine { machine_of me.new other.new joint.new
        ≡ (own_turn (blocks_of flow.now) path (machine_of me.old other.old joint.old)).machine }
    ensures entry { result.entry ≡ entry_with path me.old.stamps
        (kind_of (own_turn (blocks_of flow.now) path (machine_of me.old other.old joint.old)).turn) }
    ensures lasting { IsLasting joint.old joint.new }
    ensures moves { moves.new
        ≡ moves_of_turn (own_turn (blocks_of flow.now) path (machine_of me.old other.old joint.old)).turn }
    ensures within { AreMovesWithin LONGEST moves.new }
{
    if let Some(alarm) = joint.alarm() {
        return idle(TurnAnswer::Halted { alarm }, moves);
    }
    if me.finished() {
        return idle(TurnAnswer::Finished, moves);
    }
    if let Some(code) = me.waiting() {
        return idle(TurnAnswer::Waiting { code }, moves);
    }
    run_block(me, other, joint, flow, other_flow, path, moves)
}

/// The turn in which nothing happens, with this answer.
#[tactic(auto, using(crate::proofs::NoMoves::none_within))]
fn idle(answer: TurnAnswer, moves: &mut MoveList) -> Answered
    ensures answer { result.answer ≡ answer }
    ensures entry { result.entry ≡ None }
    ensures moves { moves.new ≡ [] }
    ensures within { AreMovesWithin LONGEST moves.new }
{
    moves.clear();
    Answered {
        answer,
        entry: None,
    }
}
