//! Lengths and points in fields, in 0.001 mm: `X..` and `Z..` of a position or an offset.
ghost use Rattle.std.specs.Prelude.{◌≡◌, ◌≤◌, IfSome, unsigned_abs};
ghost use Rattle.field_lines.specs.Length.{within_travel, length_of, axis_of, point_of};
ghost use Rattle.nc_number.specs.Position.{travel, IsPosition};

use nc_number::{Point, TRAVEL, is_literal, parse_word};

/// The length, if it is in the travel: at most 99,999.999 mm either way.
fn within_travel(length: i64) -> Option<i64>
    ensures value { result ≡ within_travel length }
    ensures travel { IfSome result (λ n. unsigned_abs n ≤ travel) }
{
    if length.unsigned_abs() <= TRAVEL {
        Some(length)
    } else {
        None
    }
}

/// The length in 0.001 mm that a literal writes, if it is in the travel.
#[tactic(auto, unfolding(crate::specs::Length::length_of))]
fn length_of(text: &[u8]) -> Option<i64>
    ensures value { result ≡ length_of text.now }
    ensures travel { IfSome result (λ n. unsigned_abs n ≤ travel) }
{
    if !is_literal(text) {
        return None;
    }
    match parse_word(text) {
        Ok(literal) => within_travel(literal.increments()),
        Err(_) => None,
    }
}

/// The length in 0.001 mm of a field that is this letter and a literal, if it is in the travel.
#[tactic(auto, unfolding(crate::specs::Length::axis_of))]
fn axis(letter: u8, field: &[u8]) -> Option<i64>
    ensures value { result ≡ axis_of letter field.now }
    ensures travel { IfSome result (λ n. unsigned_abs n ≤ travel) }
{
    match field {
        [] => None,
        [first, text @ ..] => {
            if *first == letter {
                length_of(text)
            } else {
                None
            }
        }
    }
}

/// The point of a field for X and a field for Z; none if one is no literal of its letter, or a
/// length is out of the travel.
#[tactic(auto, unfolding(crate::specs::Length::point_of))]
pub fn read_point(across: &[u8], along: &[u8]) -> Option<Point>
    ensures value { result ≡ point_of across.now along.now }
    ensures travel { IfSome result IsPosition }
{
    let x = axis(b'X', across)?;
    let z = axis(b'Z', along)?;
    Some(Point { x, z })
}
