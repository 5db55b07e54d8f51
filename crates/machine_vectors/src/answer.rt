//! Answers of a machine as text, so that a table of tests has them written out by hand.
//! held.rt, record.rt and walk.rt of these tests use it.
use nc_moves::{Alarm, Move, MoveList};
use nc_number::{Path, Point, Value, Var, length_text, text};
use std::alloc::AllocError;
use two_path::Turn;

/// Puts bytes, a character each.
fn put_bytes(out: &mut String, bytes: &[u8]) -> Result<(), AllocError> {
    for byte in bytes {
        out.push(char::from(*byte))?;
    }
    Ok(())
}

/// Puts a length in 0.001 mm as mm: `10.000`.
fn put_length(out: &mut String, length: i64) -> Result<(), AllocError> {
    let mut room = [0; 24];
    let length = length_text(length, &mut room);
    put_bytes(out, &room[..length])
}

/// Puts a value of a variable.
fn put_value(out: &mut String, value: Value) -> Result<(), AllocError> {
    let mut room = [0; 24];
    let length = text(value, &mut room);
    put_bytes(out, &room[..length])
}

/// Puts what a variable holds: its value, or `vacant`.
pub(crate) fn put_var(out: &mut String, value: &Var) -> Result<(), AllocError> {
    match value {
        Var::Vacant => out.push_str("vacant"),
        Var::Is(value) => put_value(out, *value),
    }
}

/// Puts a point: ` X10.000 Z5.000`.
pub(crate) fn put_point(out: &mut String, at: Point) -> Result<(), AllocError> {
    out.push_str(" X")?;
    put_length(out, at.x)?;
    out.push_str(" Z")?;
    put_length(out, at.z)
}

/// The moves, of which the tapes of these tables make rapids alone.
fn put_moves(out: &mut String, moves: &MoveList) -> Result<(), AllocError> {
    for what in moves.as_slice() {
        match *what {
            Move::Rapid { to } => {
                out.push_str(" rapid")?;
                put_point(out, to)?;
            }
            _ => out.push_str(" another move")?,
        }
    }
    Ok(())
}

/// An alarm, and its value where that is not 0.
fn put_alarm(out: &mut String, alarm: &Alarm) -> Result<(), AllocError> {
    let (cause, path, line) = (alarm.cause, alarm.path.number(), alarm.line);
    write!(out, "alarm {cause} path {path} line {line}")?;
    if alarm.value != Value::zero() {
        out.push(' ')?;
        put_value(out, alarm.value)?;
    }
    Ok(())
}

/// What a turn was.
pub(crate) fn put_turn(out: &mut String, turn: &Turn) -> Result<(), AllocError> {
    match turn {
        Turn::Read { variable, stamp } => write!(out, "reads #{variable} at {stamp}"),
        Turn::Did { moves } => {
            out.push_str("did")?;
            put_moves(out, &moves.list)
        }
        Turn::Arrived { code } => write!(out, "arrives {code}"),
        Turn::Met { code } => write!(out, "meets {code}"),
        Turn::Ended { moves } => {
            out.push_str("ends")?;
            put_moves(out, &moves.list)
        }
        Turn::Waiting { code } => write!(out, "waits {code}"),
        Turn::Finished => out.push_str("has ended"),
        Turn::Alarm { alarm } => put_alarm(out, alarm),
        Turn::Halted { alarm } => {
            out.push_str("halted by ")?;
            put_alarm(out, alarm)
        }
        Turn::Edited => out.push_str("edited"),
    }
}

/// A path by its number.
pub(crate) fn path_of(word: &str) -> Path {
    if word == "1" { Path::One } else { Path::Two }
}
