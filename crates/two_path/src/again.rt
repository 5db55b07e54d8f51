//! A record of a path's step that is done again, over the path's own part, the other's, and what
//! both have in common: its block reads what the stamps stand for, and is taken if the record fits.
//! machine.rt calls `do_again`.
ghost use Rattle.std.specs.Prelude.{◌≡◌, ◌≤◌, ◌<◌, ◌||◌, true, false, List, [], Some, None, is_some, IsTrue, OnOk, OnErr, IfOk};
ghost use Rattle.nc_number.specs.declared.limits.TheConstants.{MOST_RECORDS};
ghost use Rattle.motion_track.specs.Within.{AreMovesWithin};
ghost use Rattle.run_records.specs.Entries.{edit_of};
ghost use Rattle.tape_flow.specs.Places.{label_at};
ghost use Rattle.path_state.specs.View.{PathView};
ghost use Rattle.path_state.specs.Effect.{effect_of};
ghost use Rattle.path_state.specs.Advances.{effect_told};
ghost use Rattle.two_path.specs.Machine as Machine;
ghost use Rattle.two_path.specs.Machine.{part_without_reads};
ghost use Rattle.two_path.specs.Turns.{blocks_of};
ghost use Rattle.two_path.specs.Histories.{is_idle};
ghost use Rattle.two_path.specs.Made.{moves_of_turn, turn_with};
ghost use Rattle.nc_moves.specs.declared.motion.Move.{Move};
ghost use Rattle.two_path.specs.Joined.{machine_of, AreShared, IsLasting};
ghost use Rattle.two_path.specs.Again.{AreReady, variable_asked, variable_due, kind_at_wait, kind_of_effect, changes_only_by, IsTaken, IsNotDue, IsReadAgain, IsUnread, HasRead, MayNotRead, IsUnfit, IsStepDone, IsStepRefused};

use crate::joint::Joint;
use crate::part::Part;
use crate::turn::TurnAnswer;
use crate::turning::settle;
use block_order::Label;
use motion_track::LONGEST;
use nc_moves::MoveList;
use path_state::{
    BlockAnswer, a_block_asks_for_each_variable_once_at_most, control_goes_as_the_flow_orders,
    waits_and_ends_stop_a_path,
};
use run_records::{Entry, EntryKind};
use tape_flow::Flow;
use thiserror::Error;

/// The record can't follow those before it.
#[derive(Clone, Copy, Debug, PartialEq, Eq, Error)]
#[error("not legal")]
pub struct Illegal;

/// The variable that a block reads next, if its path will answer that it needs one.
fn variable_asked(answer: BlockAnswer) -> Option<u32>
    ensures { (moves : List Move) (after : PathView) → result ≡ variable_asked (effect_told answer moves after) }
{
    match answer {
        BlockAnswer::Need(variable) => Some(variable),
        BlockAnswer::Done(_) => None,
        BlockAnswer::AtWait(_) => None,
        BlockAnswer::AtEnd => None,
        BlockAnswer::Alarm { .. } => None,
    }
}

/// The variable that the block reads with this stamp, if it asks for one and the stamp is in order.
fn variable_due(
    me: &Part,
    flow: &Flow,
    lowest: u32,
    highest: u32,
    stamp: u32,
    moves: &mut MoveList,
) -> Option<u32>
    ensures { result ≡ variable_due lowest highest stamp (effect_of flow.now me.now.path me.now.values) }
{
    if stamp < lowest || stamp > highest {
        return None;
    }
    variable_asked(me.decide(flow, moves).answer())
}

/// Lets the block read one variable more: the value after so many records of the one that it asks
/// for. It is illegal if the block asks for none, or if the stamp is out of order.
fn read_again(
    me: &mut Part,
    joint: &Joint,
    flow: &Flow,
    lowest: u32,
    stamp: u32,
    moves: &mut MoveList,
) -> Result<(), Illegal>
    requires shared { AreShared me.old joint.now }
    ensures read { OnOk result (IsReadAgain (blocks_of flow.now) joint.now lowest stamp me.old me.new) }
    ensures refused { OnErr result (IsUnread (blocks_of flow.now) joint.now lowest stamp me.old me.new) }
{
    a_block_asks_for_each_variable_once_at_most();
    let Some(variable) = variable_due(me, flow, lowest, joint.count(), stamp, moves) else {
        return Err(Illegal);
    };
    me.read(joint.at(stamp, variable), stamp);
    Ok(())
}

/// Lets the block read again what these stamps stand for, up to the first that is not legal.
fn read_all_again(
    me: &mut Part,
    joint: &Joint,
    flow: &Flow,
    stamps: &[u32],
    moves: &mut MoveList,
) -> Result<(), Illegal>
    requires shared { AreShared me.old joint.now }
    requires no_reads { part_without_reads me.old ≡ me.old }
    ensures read { OnOk result (HasRead (blocks_of flow.now) joint.now stamps.now me.old me.new) }
    ensures refused { OnErr result (MayNotRead (blocks_of flow.now) joint.now stamps.now me.old me.new) }
{
    let mut lowest = me.since();
    for stamp in stamps {
        read_again(me, joint, flow, lowest, *stamp, moves)?;
        lowest = *stamp;
    }
    Ok(())
}

/// The kind of the record of a path that comes to a wait of this code, by the code at which the
/// other path waits, if it waits.
fn kind_at_wait(code: u16, other: Option<u16>) -> EntryKind
    ensures { result ≡ kind_at_wait code other }
{
    match other {
        None => EntryKind::Arrived,
        Some(there) => if code == there {
            EntryKind::Met
        } else {
            EntryKind::Alarmed
        },
    }
}

/// The kind of the record that a block makes, if it makes one, whose path answers this.
fn kind_due(answer: &BlockAnswer, other: &Part) -> Option<EntryKind>
    ensures { (moves : List Move) (path : PathView)
        → result ≡ kind_of_effect (effect_told answer.now moves path) other.now.waiting }
{
    match answer {
        BlockAnswer::Need(_) => None,
        BlockAnswer::AtWait(code) => Some(kind_at_wait(*code, other.waiting())),
        BlockAnswer::AtEnd => Some(EntryKind::Ended),
        BlockAnswer::Alarm { .. } => Some(EntryKind::Alarmed),
        BlockAnswer::Done(_) => Some(EntryKind::Did),
    }
}

/// Whether the record that is due is a step of this kind.
fn is_due(due: Option<EntryKind>, kind: &EntryKind) -> bool
    ensures due { IsTrue result → due ≡ Some kind.now }
    ensures other { due ≡ Some kind.now → edit_of kind.now ≡ None → IsTrue result }
{
    match due {
        Some(due) => due.is_same_step(kind),
        None => false,
    }
}

/// Whether a turn of the path would do nothing.
fn is_still(me: &Part, joint: &Joint) -> bool
    ensures { result ≡ (is_some joint.now.alarm || is_idle me.now) }
{
    joint.alarm().is_some() || me.finished() || me.waiting().is_some()
}

/// Whether a turn of a path at this label, if its block has one, changes the path only if it makes
/// a record of this kind.
fn changes_only_by(label: Option<Label>, kind: &EntryKind) -> bool
    ensures { result ≡ changes_only_by label kind.now }
{
    match label {
        Some(Label::Wait(_)) => true,
        Some(Label::End) => matches!(kind, EntryKind::Ended),
        Some(Label::Again) | Some(Label::Off) | None => matches!(kind, EntryKind::Did),
    }
}

/// Takes the block if its record is of this kind. The block is decided before anything changes.
#[inline(never)]
fn take_decided(
    me: &mut Part,
    other: &Part,
    flow: &Flow,
    kind: &EntryKind,
    moves: &mut MoveList,
) -> Result<BlockAnswer, Illegal>
    requires step { edit_of kind.now ≡ None }
    ensures taken { IfOk result
        (λ answer. IsTaken (blocks_of flow.now) kind.now other.now me.old me.new answer moves.new) }
    ensures refused { OnErr result (IsNotDue (blocks_of flow.now) kind.now other.now me.old me.new) }
{
    let decision = me.decide(flow, moves);
    if is_due(kind_due(&decision.answer(), other), kind) {
        Ok(me.take(decision))
    } else {
        Err(Illegal)
    }
}

/// Takes the block of a path that changes only by a record of this kind; it is not decided first.
fn take_at_once(
    me: &mut Part,
    other: &Part,
    flow: &Flow,
    kind: &EntryKind,
    moves: &mut MoveList,
) -> Result<BlockAnswer, Illegal>
    requires step { edit_of kind.now ≡ None }
    requires only { changes_only_by (label_at flow.now.order me.old.path.place) kind.now ≡ true }
    ensures taken { IfOk result
        (λ answer. IsTaken (blocks_of flow.now) kind.now other.now me.old me.new answer moves.new) }
    ensures refused { OnErr result (IsNotDue (blocks_of flow.now) kind.now other.now me.old me.new) }
{
    control_goes_as_the_flow_orders();
    waits_and_ends_stop_a_path();
    let answer = me.advance(flow, moves);
    if is_due(kind_due(&answer, other), kind) {
        Ok(answer)
    } else {
        Err(Illegal)
    }
}

/// Takes the block if its record is of this kind, and else changes nothing. What was decided of a
/// block is large, so a block that can be taken at once is not decided first.
fn take_due(
    me: &mut Part,
    other: &Part,
    flow: &Flow,
    kind: &EntryKind,
    moves: &mut MoveList,
) -> Result<BlockAnswer, Illegal>
    requires step { edit_of kind.now ≡ None }
    ensures taken { IfOk result
        (λ answer. IsTaken (blocks_of flow.now) kind.now other.now me.old me.new answer moves.new) }
    ensures refused { OnErr result (IsNotDue (blocks_of flow.now) kind.now other.now me.old me.new) }
{
    if changes_only_by(flow.label(me.path().place()), kind) {
        take_at_once(me, other, flow, kind, moves)
    } else {
        take_decided(me, other, flow, kind, moves)
    }
}

/// Lets the block of a path that can go on read again what the record's stamps stand for. It is
/// illegal if the path can't go on, or may not have read so.
fn read_due(
    me: &mut Part,
    joint: &Joint,
    flow: &Flow,
    entry: &Entry,
    moves: &mut MoveList,
) -> Result<(), Illegal>
    requires shared { AreShared me.old joint.now }
    requires no_reads { part_without_reads me.old ≡ me.old }
    ensures awake { OnOk result ((is_some joint.now.alarm || is_idle me.old) ≡ false) }
    ensures read { OnOk result (HasRead (blocks_of flow.now) joint.now entry.now.stamps me.old me.new) }
    ensures refused { OnErr result ((other : Machine.Part)
        → IsUnfit (blocks_of flow.now) entry.now other joint.now me.old me.new) }
{
    if is_still(me, joint) {
        return Err(Illegal);
    }
    read_all_again(me, joint, flow, entry.stamps.as_slice(), moves)?;
    Ok(())
}

/// Goes back to before a record that is not legal: the block forgets what it has read, and the list
/// is cleared.
fn refuse(me: &mut Part, moves: &mut MoveList)
    ensures part { me.new ≡ part_without_reads me.old }
    ensures moves { moves.new ≡ [] }
{
    me.forget();
    moves.clear();
}

/// Does the record of a step again: the path's block reads what its stamps stand for, and is taken.
/// Its moves are put into the list, which is empty if the record is not legal; then nothing
/// changes.
pub(crate) fn do_again(
    me: &mut Part,
    other: &mut Part,
    joint: &mut Joint,
    flow: &Flow,
    other_flow: &Flow,
    entry: &Entry,
    moves: &mut MoveList,
) -> Result<TurnAnswer, Illegal>
    requires room { 0 < joint.old.shared.room }
    requires few { joint.old.count ≤ MOST_RECORDS }
    requires ready { AreReady flow.now.order other_flow.now.order me.old other.old joint.old }
    requires step { edit_of entry.now.kind ≡ None }
    ensures done { IfOk result (λ answer. IsStepDone (blocks_of flow.now) entry.now.path entry.now.kind entry.now.stamps
        (machine_of me.old other.old joint.old) (machine_of me.new other.new joint.new) (turn_with answer moves.new)) }
    ensures apart { IfOk result (λ answer. moves_of_turn (turn_with answer moves.new) ≡ moves.new) }
    ensures none { OnErr result (moves.new ≡ []) }
    ensures refused { OnErr result (IsStepRefused (blocks_of flow.now) entry.now.path entry.now.kind entry.now.stamps
        (machine_of me.old other.old joint.old) (machine_of me.new other.new joint.new)) }
    ensures lasting { IsLasting joint.old joint.new }
    ensures ready { AreReady flow.now.order other_flow.now.order me.new other.new joint.new }
    ensures within { IfOk result (λ answer. AreMovesWithin LONGEST moves.new) }
{
    control_goes_as_the_flow_orders();
    match read_due(me, joint, flow, entry, moves) {
        Ok(()) => {
            let line = me.line(flow);
            match take_due(me, other, flow, &entry.kind, moves) {
                Ok(answer) => Ok(
                    settle(me, other, joint, flow, other_flow, entry.path, line, answer).answer,
                ),
                Err(illegal) => {
                    refuse(me, moves);
                    Err(illegal)
                }
            }
        }
        Err(illegal) => {
            refuse(me, moves);
            Err(illegal)
        }
    }
}
