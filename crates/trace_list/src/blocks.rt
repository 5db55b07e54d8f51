//! The lines of a trace for one record, put into a sink. How a line reads is in lines.rt, the whole
//! text in tracing.rt.
//! For this crate alone: tracing.rt uses it.
ghost use Rattle.std.specs.Prelude.{◌≡◌, ◌+◌, ◌≤◌, [], ◌∷◌, ◌++◌};
ghost use Rattle.nc_number.specs.declared.limits.TheConstants.{MOST_RECORDS};
ghost use Rattle.nc_number.specs.Both.{of_path};
ghost use Rattle.move_text.specs.MoveText.{line_text};
ghost use Rattle.nc_verify.specs.Printed.{IsPut};
ghost use Rattle.trace_list.specs.Trace.{block_lines, met_after, moved_lines, says_speed, shift_lines, spindle_lines, turn_lines};
ghost use Rattle.trace_list.specs.TraceText.{lines_text, path_text, trace_line_text};
ghost use Rattle.trace_list.specs.TraceText as said;

use crate::lines::{
    alarm_line, ended_line, met_line, path_front, shift_line, spindle_line, wait_line,
};
use crate::looking::{Look, Standing, is_same_point, is_same_way};
use move_text::move_line;
use nc_moves::{Alarm, Move, Moves};
use nc_number::{Both, Path, Point};
use nc_outside::{PutFault, Sink};
use nc_verify::put_piece;
use text_pieces::Piece;
use two_path::Turn;

/// Puts the number of the path before a move.
fn put_front<K: Sink>(sink: &mut K, path: Path) -> Result<(), PutFault>
    ensures { IsPut (K.state sink.old) (K.state sink.new) (path_text path) result }
{
    put_piece(sink, &path_front(path))
}

/// Puts the line of a move, as a report has it.
fn put_lined<K: Sink>(sink: &mut K, line: u32, what: &Move) -> Result<(), PutFault>
    ensures { IsPut (K.state sink.old) (K.state sink.new) (line_text line what.now) result }
{
    put_piece(sink, &move_line(line, what))
}

/// Puts the line of a move in a trace: the path, and the line as a report has it.
fn put_move<K: Sink>(sink: &mut K, path: Path, line: u32, what: &Move) -> Result<(), PutFault>
    ensures { IsPut (K.state sink.old) (K.state sink.new)
        (trace_line_text (said.Moved path (record { line = line; what = what.now }))) result }
{
    match put_front(sink, path) {
        Ok(()) => put_lined(sink, line, what),
        Err(fault) => Err(fault),
    }
}

/// Puts a line for each move of a block.
fn put_moves<K: Sink>(sink: &mut K, path: Path, line: u32, moves: &[Move]) -> Result<(), PutFault>
    ensures { IsPut (K.state sink.old) (K.state sink.new) (lines_text (moved_lines path line moves.now)) result }
{
    for what in moves {
        put_move(sink, path, line, what)?;
    }
    Ok(())
}

/// Whether one of the moves says the speed of the spindle.
pub fn says_speed(moves: &[Move]) -> bool
    ensures { result ≡ says_speed moves.now }
{
    moves.iter().any(|what| matches!(what, Move::Speed { .. }))
}

/// The line of the spindle's way, if the block changed it without a speed; else nothing.
fn way_changed(path: Path, moves: &Moves, before: bool, after: bool) -> Piece
    ensures { result ≡ lines_text (spindle_lines path moves.now before after) }
{
    if is_same_way(before, after) || says_speed(moves.list.as_slice()) {
        Piece::empty()
    } else {
        spindle_line(path, moves.line, after)
    }
}

/// Puts the way of the spindle, if the block changed it without a speed.
fn put_way<K: Sink>(
    sink: &mut K,
    path: Path,
    moves: &Moves,
    before: bool,
    after: bool,
) -> Result<(), PutFault>
    ensures { IsPut (K.state sink.old) (K.state sink.new)
        (lines_text (spindle_lines path moves.now before after)) result }
{
    put_piece(sink, &way_changed(path, moves, before, after))
}

/// The line of the shift, or nothing if the block left it as it was.
fn shift_changed(path: Path, line: u32, before: Point, after: Point) -> Piece
    ensures { result ≡ lines_text (shift_lines path line before after) }
{
    if is_same_point(before, after) {
        Piece::empty()
    } else {
        shift_line(path, line, after)
    }
}

/// Puts the line of the shift, if the block changed it.
fn put_shift<K: Sink>(
    sink: &mut K,
    path: Path,
    line: u32,
    before: Point,
    after: Point,
) -> Result<(), PutFault>
    ensures { IsPut (K.state sink.old) (K.state sink.new) (lines_text (shift_lines path line before after)) result }
{
    put_piece(sink, &shift_changed(path, line, before, after))
}

/// Puts the line of the spindle's way, if the block changed it without a speed, and then the moves.
fn put_way_and_moves<K: Sink>(
    sink: &mut K,
    path: Path,
    moves: &Moves,
    before: bool,
    after: bool,
) -> Result<(), PutFault>
    ensures { IsPut (K.state sink.old) (K.state sink.new) (lines_text
        (spindle_lines path moves.now before after ++ moved_lines path moves.now.line moves.now.list)) result }
{
    match put_way(sink, path, moves, before, after) {
        Ok(()) => put_moves(sink, path, moves.line, moves.list.as_slice()),
        Err(fault) => Err(fault),
    }
}

/// Puts what a block changed without a move, and then its moves.
fn put_block<K: Sink>(
    sink: &mut K,
    path: Path,
    moves: &Moves,
    before: &Look,
    after: &Look,
) -> Result<(), PutFault>
    ensures { IsPut (K.state sink.old) (K.state sink.new)
        (lines_text (block_lines path moves.now before.now after.now)) result }
{
    match put_shift(sink, path, moves.line, before.shift, after.shift) {
        Ok(()) => put_way_and_moves(sink, path, moves, before.surface, after.surface),
        Err(fault) => Err(fault),
    }
}

/// Puts that a path ends at this line.
fn put_ended<K: Sink>(sink: &mut K, path: Path, line: u32) -> Result<(), PutFault>
    ensures { IsPut (K.state sink.old) (K.state sink.new) (lines_text (said.Ended path line ∷ [])) result }
{
    put_piece(sink, &ended_line(path, line))
}

/// Puts the lines of a block, and that its path ends there.
fn put_end<K: Sink>(
    sink: &mut K,
    path: Path,
    moves: &Moves,
    before: &Look,
    after: &Look,
) -> Result<(), PutFault>
    ensures { IsPut (K.state sink.old) (K.state sink.new)
        (lines_text (block_lines path moves.now before.now after.now ++ said.Ended path moves.now.line ∷ [])) result }
{
    match put_block(sink, path, moves, before, after) {
        Ok(()) => put_ended(sink, path, moves.line),
        Err(fault) => Err(fault),
    }
}

/// Puts that a path comes to its wait.
fn put_wait<K: Sink>(sink: &mut K, path: Path, line: u32, code: u16) -> Result<(), PutFault>
    ensures { IsPut (K.state sink.old) (K.state sink.new) (lines_text (said.Wait path line code ∷ [])) result }
{
    put_piece(sink, &wait_line(path, line, code))
}

/// Puts that both paths meet.
fn put_met<K: Sink>(sink: &mut K, number: u64, code: u16, lines: Both<u32>) -> Result<(), PutFault>
    ensures { IsPut (K.state sink.old) (K.state sink.new)
        (lines_text (said.Met number code lines.one lines.two ∷ [])) result }
{
    put_piece(sink, &met_line(number, code, lines))
}

/// Puts an alarm.
fn put_alarm<K: Sink>(sink: &mut K, alarm: &Alarm) -> Result<(), PutFault>
    ensures { IsPut (K.state sink.old) (K.state sink.new) (lines_text (said.Raised alarm.now ∷ [])) result }
{
    put_piece(sink, &alarm_line(alarm))
}

/// Puts that a path comes to its wait, and that both paths meet there.
fn put_meeting<K: Sink>(
    sink: &mut K,
    path: Path,
    met: u64,
    before: &Standing,
    code: u16,
) -> Result<(), PutFault>
    requires { met ≤ MOST_RECORDS }
    ensures { IsPut (K.state sink.old) (K.state sink.new)
        (lines_text (said.Wait path (of_path before.now.lines path) code
        ∷ said.Met (met + 1) code before.now.lines.one before.now.lines.two ∷ [])) result }
{
    match put_wait(sink, path, before.line(path), code) {
        Ok(()) => put_met(sink, met + 1, code, before.lines),
        Err(fault) => Err(fault),
    }
}

/// Puts the lines of a turn, before which there were `met` meetings.
pub(crate) fn put_turn<K: Sink>(
    sink: &mut K,
    path: Path,
    met: u64,
    before: &Standing,
    after: &Look,
    turn: &Turn,
) -> Result<(), PutFault>
    requires { met ≤ MOST_RECORDS }
    ensures { IsPut (K.state sink.old) (K.state sink.new)
        (lines_text (turn_lines path met before.now after.now turn.now)) result }
{
    match turn {
        Turn::Did { moves } => put_block(sink, path, moves, &before.look, after),
        Turn::Ended { moves } => put_end(sink, path, moves, &before.look, after),
        Turn::Arrived { code } => put_wait(sink, path, before.line(path), *code),
        Turn::Met { code } => put_meeting(sink, path, met, before, *code),
        Turn::Alarm { alarm } => put_alarm(sink, alarm),
        _ => Ok(()),
    }
}

/// How many meetings there were after a turn.
pub(crate) fn met_after(met: u64, turn: &Turn) -> u64
    requires { met ≤ MOST_RECORDS }
    ensures { result ≡ met_after met turn.now }
{
    match turn {
        Turn::Met { .. } => met + 1,
        _ => met,
    }
}
