//! Moves as text for the tables of tests of `lone_path` and `block_parts`, in the notation of the
//! report, so that a table has them written out by hand. It is written anew here: what the report
//! itself prints comes from the crate move_text.
use nc_moves::{Centre, Move};
use nc_number::{Point, Value, length_text, text};
use std::alloc::AllocError;

/// Adds a value, as the report prints it.
pub(crate) fn put_value(out: &mut String, value: Value) -> Result<(), AllocError> {
    let mut room = [0; 24];
    let length = text(value, &mut room);
    put_bytes(out, &room[..length])
}

/// Adds a length, which is in 0.001 mm, as the report prints it.
fn put_length(out: &mut String, length: i64) -> Result<(), AllocError> {
    let mut room = [0; 24];
    let length = length_text(length, &mut room);
    put_bytes(out, &room[..length])
}

/// Adds bytes of ASCII.
fn put_bytes(out: &mut String, bytes: &[u8]) -> Result<(), AllocError> {
    for byte in bytes {
        out.push(char::from(*byte))?;
    }
    Ok(())
}

/// Adds a point, X before Z.
pub(crate) fn put_point(out: &mut String, to: Point) -> Result<(), AllocError> {
    out.push_str(" X")?;
    put_length(out, to.x)?;
    out.push_str(" Z")?;
    put_length(out, to.z)
}

/// Adds a feed, by the revolution or by the minute.
fn put_feed(out: &mut String, feed: Value, per_rev: bool) -> Result<(), AllocError> {
    out.push_str(" F")?;
    put_value(out, feed)?;
    out.push_str(if per_rev { " rev" } else { " min" })
}

/// Adds the centre of an arc, as I and K or as R.
fn put_centre(out: &mut String, centre: Centre) -> Result<(), AllocError> {
    match centre {
        Centre::Offset { i, k } => {
            out.push_str(" I")?;
            put_length(out, i)?;
            out.push_str(" K")?;
            put_length(out, k)
        }
        Centre::Radius { r } => {
            out.push_str(" R")?;
            put_length(out, r)
        }
    }
}

/// Adds a straight move under this name, with its feed.
fn put_cut(
    out: &mut String,
    name: &str,
    to: Point,
    feed: Value,
    per_rev: bool,
) -> Result<(), AllocError> {
    out.push_str(name)?;
    put_point(out, to)?;
    put_feed(out, feed, per_rev)
}

/// Adds a move along a thread, with its lead.
fn put_thread(out: &mut String, to: Point, lead: Value) -> Result<(), AllocError> {
    out.push_str("thread")?;
    put_point(out, to)?;
    out.push_str(" F")?;
    put_value(out, lead)
}

/// Adds an arc under this name, to its end and round its centre, without its feed.
fn put_arc(out: &mut String, name: &str, to: Point, centre: Centre) -> Result<(), AllocError> {
    out.push_str(name)?;
    put_point(out, to)?;
    put_centre(out, centre)
}

/// Adds a rapid move.
fn put_rapid(out: &mut String, to: Point) -> Result<(), AllocError> {
    out.push_str("rapid")?;
    put_point(out, to)
}

/// Adds a move of any kind: one that leads somewhere, a rest, or a setting of the machine.
pub(crate) fn put_move(out: &mut String, what: &Move) -> Result<(), AllocError> {
    match *what {
        Move::Rapid { to } => put_rapid(out, to),
        Move::Feed { to, feed, per_rev } => put_cut(out, "feed", to, feed, per_rev),
        Move::Thread { to, lead } => put_thread(out, to, lead),
        Move::Arc {
            clockwise,
            to,
            centre,
            feed,
            per_rev,
        } => {
            put_arc(out, if clockwise { "cw" } else { "ccw" }, to, centre)?;
            put_feed(out, feed, per_rev)
        }
        Move::Dwell { ms } => write!(out, "dwell {ms}"),
        Move::Speed { surface: true, s } => write!(out, "speed G96 S{s}"),
        Move::Speed { surface: false, s } => write!(out, "speed G97 S{s}"),
        Move::Limit { s } => write!(out, "limit S{s}"),
        Move::Tool { t } => write!(out, "tool T{t:04}"),
        Move::Aux { m } => write!(out, "aux M{m:02}"),
    }
}
