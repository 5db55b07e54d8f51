//! The words of a row, written as on a tape (`X50. Z2. F0.2`), as the lengths, points and values
//! that they say. The tables of this crate read their rows by it.
ghost use Rattle.std.specs.Prelude.{IfSome};
ghost use Rattle.nc_number.specs.Position.{IsPosition, IsWithin};
ghost use Rattle.nc_number.specs.Axes.{IsAxisWithin};
ghost use Rattle.motion_track.specs.Centre.{IsGivenWithin, IsLengthWithin};

use motion_track::LONGEST;
use nc_moves::Centre;
use nc_number::{Axis, Literal, Point, Value, is_literal, parse_word};
use std::alloc::Global;
use std::test::Fail;

/// What stands behind the letter.
pub(crate) fn behind<'a>(words: &'a str, letter: char) -> Option<&'a str> {
    for word in words.split(' ') {
        if let Some(digits) = word.strip_prefix(letter) {
            return Some(digits);
        }
    }
    None
}

/// The number that the digits write, if they are one of a tape.
fn literal(digits: &str) -> Option<Literal> {
    let digits = digits.as_bytes();
    if is_literal(digits) {
        parse_word(digits).ok()
    } else {
        None
    }
}

/// What a word says in 0.001 mm: `X50.` is 50 mm, and `X50` is 0.050 mm. What is no number counts
/// as more than any row wants.
pub(crate) fn increments(words: &str, letter: char) -> Option<i64> {
    let digits = behind(words, letter)?;
    let told = if digits.contains('.') {
        literal(digits).map(|number| number.increments())
    } else {
        digits.parse::<i64>().ok()
    };
    Some(told.unwrap_or(i64::MAX))
}

/// What a word says in 0.001 mm, if it is there; past the longest length that is that length.
pub(crate) fn length(words: &str, letter: char) -> Option<i64>
    ensures { IsLengthWithin LONGEST result }
{
    let told = increments(words, letter)?;
    if told.unsigned_abs() <= LONGEST {
        Some(told)
    } else {
        Some(LONGEST as i64)
    }
}

/// What the words say of an axis, absolute or incremental.
pub(crate) fn axis(words: &str, absolute: char, relative: char) -> Axis
    ensures { IsAxisWithin LONGEST result }
{
    Axis::of(length(words, absolute), length(words, relative))
}

/// The point at X and Z, each 0 where there is no word.
pub(crate) fn point(words: &str) -> Point
    ensures { IsWithin LONGEST result }
{
    Point {
        x: length(words, 'X').unwrap_or(0),
        z: length(words, 'Z').unwrap_or(0),
    }
}

/// The position at X and Z, or none where there is no word.
pub(crate) fn position(words: &str) -> Option<Point>
    ensures { IfSome result IsPosition }
{
    let at = point(words);
    if words.is_empty() || !at.is_position() {
        None
    } else {
        Some(at)
    }
}

/// What a word says in whole units.
pub(crate) fn value(words: &str, letter: char) -> Option<Value> {
    Some(literal(behind(words, letter)?)?.value())
}

/// What F says, or 0.
pub(crate) fn feed(words: &str) -> Value {
    value(words, 'F').unwrap_or(Value::zero())
}

/// The whole number that the text writes. What is none counts as more than any row wants.
pub(crate) fn count(digits: &str) -> u64 {
    digits.parse::<u64>().unwrap_or(u64::MAX)
}

/// The centre by R alone, or by I and K.
pub(crate) fn centre(words: &str) -> Option<Centre>
    ensures { IsGivenWithin LONGEST result }
{
    match (length(words, 'I'), length(words, 'K'), length(words, 'R')) {
        (None, None, Some(r)) => Some(Centre::Radius { r }),
        (Some(i), Some(k), None) => Some(Centre::Offset { i, k }),
        _ => None,
    }
}

/// The number below 65,535 that the digits write; anything else counts as 65,535.
pub(crate) fn small(digits: &str) -> u16 {
    digits.parse::<u16>().unwrap_or(u16::MAX)
}

/// A text with each `~` as the end of a line.
pub(crate) fn lines_of(alloc: Global, text: &str) -> Result<Vec<u8>, Fail> {
    let mut lines = Vec::new(alloc);
    for byte in text.bytes() {
        lines.push(if byte == b'~' { b'\n' } else { byte })?;
    }
    Ok(lines)
}
