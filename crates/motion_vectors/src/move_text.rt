//! Moves as a row of these tests writes them: `rapid X50. Z2.`, `feed X50. Z2. F0.2`, `cw X0 Z-10.
//! I-10. K0 F0.1 min`, `speed G96 S200`, `aux M3`. The tables of this crate compare by it.
use crate::words::{behind, centre, count, feed, point, small};
use motion_track::MotionFault;
use nc_moves::Move;
use nc_number::Point;

/// Whether the text writes the number of the alarm: `alarm 41`.
pub(crate) fn is_alarm(number: u8, text: &str) -> bool {
    match text.strip_prefix("alarm ") {
        Some(wanted) => u64::from(number) == count(wanted),
        None => false,
    }
}

/// The number behind the letter of a move's one word.
fn number(words: &str, letter: char) -> u16 {
    small(behind(words, letter).unwrap_or(""))
}

/// The move that the text writes. Its feed is by the revolution, or where it ends with `min` by the
/// minute.
pub(crate) fn move_of(text: &str) -> Option<Move> {
    let (name, words) = text.split_once(' ').unwrap_or((text, ""));
    let (to, feed) = (point(words), feed(words));
    let per_rev = !words.ends_with("min");
    Some(match name {
        "rapid" => Move::Rapid { to },
        "feed" => Move::Feed { to, feed, per_rev },
        "thread" => Move::Thread { to, lead: feed },
        "cw" | "ccw" => Move::Arc {
            clockwise: name == "cw",
            to,
            centre: centre(words)?,
            feed,
            per_rev,
        },
        "dwell" => Move::Dwell { ms: count(words) },
        "speed" => Move::Speed {
            surface: words.starts_with("G96"),
            s: u32::from(number(words, 'S')),
        },
        "limit" => Move::Limit {
            s: u32::from(number(words, 'S')),
        },
        "tool" => Move::Tool {
            t: number(words, 'T'),
        },
        "aux" => Move::Aux {
            m: number(words, 'M'),
        },
        _ => return None,
    })
}

/// Whether the text writes the move.
pub(crate) fn is_move(what: &Move, text: &str) -> bool {
    match move_of(text) {
        Some(wanted) => *what == wanted,
        None => false,
    }
}

/// Whether the text writes the moves, parted by commas, or is `no move`.
pub(crate) fn are_moves(moves: &[Move], text: &str) -> bool {
    let mut ahead = moves;
    if text == "no move" {
        return ahead.is_empty();
    }
    for each in text.split(", ") {
        match ahead.split_first() {
            Some((first, rest)) if is_move(first, each) => ahead = rest,
            _ => return false,
        }
    }
    ahead.is_empty()
}

/// Whether the text writes the point, `to X50. Z2.`, or the alarm.
pub(crate) fn is_reached(answer: Result<Point, MotionFault>, wanted: &str) -> bool {
    match answer {
        Ok(to) => wanted.starts_with("to ") && to == point(wanted),
        Err(fault) => is_alarm(fault.number, wanted),
    }
}
