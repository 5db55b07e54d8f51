//! The events of one turn, added to a list. What an event is, is in event.rt.
//! For this crate alone: ordering.rt uses it.
ghost use Rattle.std.specs.Prelude.{◌≡◌, [], ◌∷◌, ◌++◌, OnOk, map};
ghost use Rattle.lathe_calls.specs.Events.{bare_event, block_events, change_events, end_events, move_event, shift_events, turn_events, way_events};

use crate::event::{
    Event, Kind, Stamp, alarm_event, bare_event, coded_event, counting_event, move_event,
    shift_event, way_event,
};
use nc_moves::Move;
use nc_number::{NoMemory, Point};
use trace_list::{Look, is_same_point, is_same_way, says_speed};
use two_path::Turn;

/// Puts an event at the end of the list.
pub(crate) fn push_event(list: &mut Vec<Event>, event: Event) -> Result<(), NoMemory>
    ensures { OnOk result (list.new.items ≡ list.old.items ++ event ∷ []) }
{
    list.push(event)?;
    Ok(())
}

/// Lists the moves of a block, an event each.
fn push_moves(list: &mut Vec<Event>, at: Stamp, moves: &[Move]) -> Result<(), NoMemory>
    ensures { OnOk result (list.new.items ≡ list.old.items ++ map (move_event at) moves.now) }
{
    for what in moves {
        push_event(list, move_event(at, what))?;
    }
    Ok(())
}

/// Lists a block: its moves, or that it has none.
fn push_block(list: &mut Vec<Event>, at: Stamp, moves: &[Move]) -> Result<(), NoMemory>
    ensures { OnOk result (list.new.items ≡ list.old.items ++ block_events at moves.now) }
{
    if moves.is_empty() {
        push_event(list, bare_event(at, Kind::Block))
    } else {
        push_moves(list, at, moves)
    }
}

/// Lists the moves of a block with which its path ends, and then that end.
fn push_end(list: &mut Vec<Event>, at: Stamp, moves: &[Move]) -> Result<(), NoMemory>
    ensures { OnOk result (list.new.items ≡ list.old.items ++ end_events at moves.now) }
{
    push_moves(list, at, moves)?;
    push_event(list, bare_event(at, Kind::Ended))
}

/// Lists the shift, if a block changed it.
fn push_shift(list: &mut Vec<Event>, at: Stamp, before: Point, after: Point) -> Result<(), NoMemory>
    ensures { OnOk result (list.new.items ≡ list.old.items ++ shift_events at before after) }
{
    if is_same_point(before, after) {
        Ok(())
    } else {
        push_event(list, shift_event(at, after))
    }
}

/// Lists the way of the spindle, if a block changed it without saying the speed.
fn push_way(
    list: &mut Vec<Event>,
    at: Stamp,
    moves: &[Move],
    before: bool,
    after: bool,
) -> Result<(), NoMemory>
    ensures { OnOk result (list.new.items ≡ list.old.items ++ way_events at moves.now before after) }
{
    if is_same_way(before, after) || says_speed(moves) {
        Ok(())
    } else {
        push_event(list, way_event(at, after))
    }
}

/// Lists what a block changed without a move.
fn push_changes(
    list: &mut Vec<Event>,
    at: Stamp,
    before: &Look,
    after: &Look,
    moves: &[Move],
) -> Result<(), NoMemory>
    ensures { OnOk result (list.new.items ≡ list.old.items ++ change_events at before.now after.now moves.now) }
{
    push_shift(list, at, before.shift, after.shift)?;
    push_way(list, at, moves, before.surface, after.surface)
}

/// Lists what a block changed without a move, and then its moves, or that it has none.
fn push_did(
    list: &mut Vec<Event>,
    at: Stamp,
    before: &Look,
    after: &Look,
    moves: &[Move],
) -> Result<(), NoMemory>
    ensures { OnOk result (list.new.items ≡ list.old.items
        ++ (change_events at before.now after.now moves.now ++ block_events at moves.now)) }
{
    push_changes(list, at, before, after, moves)?;
    push_block(list, at, moves)
}

/// Lists what a block changed with which its path ends, its moves, and that end.
fn push_ended(
    list: &mut Vec<Event>,
    at: Stamp,
    before: &Look,
    after: &Look,
    moves: &[Move],
) -> Result<(), NoMemory>
    ensures { OnOk result (list.new.items ≡ list.old.items
        ++ (change_events at before.now after.now moves.now ++ end_events at moves.now)) }
{
    push_changes(list, at, before, after, moves)?;
    push_end(list, at, moves)
}

/// Lists the events of a turn, by what was in force for its path before and after it.
pub(crate) fn push_turn(
    list: &mut Vec<Event>,
    at: Stamp,
    before: &Look,
    after: &Look,
    turn: &Turn,
) -> Result<(), NoMemory>
    ensures { OnOk result (list.new.items ≡ list.old.items ++ turn_events at before.now after.now turn.now) }
{
    match turn {
        Turn::Read { variable, .. } => push_event(
            list,
            counting_event(at, Kind::Read, u64::from(*variable)),
        ),
        Turn::Did { moves } => push_did(list, at, before, after, moves.list.as_slice()),
        Turn::Ended { moves } => push_ended(list, at, before, after, moves.list.as_slice()),
        Turn::Arrived { code } => push_event(list, coded_event(at, Kind::Arrived, *code)),
        Turn::Met { code } => push_event(list, coded_event(at, Kind::Met, *code)),
        Turn::Alarm { alarm } => push_event(list, alarm_event(at, alarm)),
        _ => Ok(()),
    }
}
