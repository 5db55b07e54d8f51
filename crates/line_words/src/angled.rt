//! Where a line ends that is given by its angle and one of its ends' coordinates.
ghost use Rattle.std.specs.Prelude.{◌≡◌, ◌≤◌, ◌+ℤ◌, ◌-ℤ◌, ◌*ℤ◌, pos, IfSome, unsigned_abs};
ghost use Rattle.nc_number.specs.Position.{IsPosition, travel};
ghost use Rattle.line_words.specs.Angles.{IsFlat};
ghost use Rattle.line_words.specs.Angled.{says_across, says_along, along_by, across_by, held, angle_cause, angle_in, end_along, end_across, angled_by, angled_end, line_end, end_cause};

use crate::angle::{Heading, direction_of, nearest, product};
use crate::places::{end_of, position_of};
use cycle_words::{is_said, length_or, place_said};
use nc_number::Point;
use nc_text::Word;
use plain_form::PlainCause;

/// The largest angle, on either side of 0: a whole turn, in 0.001 degrees.
const TURN: u64 = 360_000;

/// The farthest way: ten times the travel, in 0.001 mm.
const FARTHEST: i128 = 1_000_000_000;

/// Whether the words say where the line ends across, in X.
fn says_across(words: &[Word]) -> bool
    ensures { result ≡ says_across words.now }
{
    is_said(words, b'X') || is_said(words, b'U')
}

/// Whether they say where it ends along, in Z.
fn says_along(words: &[Word]) -> bool
    ensures { result ≡ says_along words.now }
{
    is_said(words, b'Z') || is_said(words, b'W')
}

/// That an angle stands beside both ends.
pub fn angle_cause(words: &[Word]) -> Option<PlainCause>
    ensures { result ≡ angle_cause words.now }
{
    if is_said(words, b'a') && says_across(words) && says_along(words) {
        Some(PlainCause::Unexpected(b'a'))
    } else {
        None
    }
}

/// The angle of a length of so many 0.001 degrees, from 0 on, if it is at most a whole turn.
fn angle_in(said: i64) -> Option<u64>
    ensures { result ≡ angle_in said }
{
    let size = said.unsigned_abs();
    if size > TURN {
        None
    } else if said < 0 {
        Some(TURN - size)
    } else {
        Some(size)
    }
}

/// Twice a way along an axis.
fn doubled(way: i64) -> i128
    requires { unsigned_abs way ≤ 200000000 }
    ensures doubled { result ≡ pos 2 *ℤ way }
    ensures near { unsigned_abs result ≤ 400000000 }
{
    2 * i128::from(way)
}

/// A way along an axis.
fn single(way: i64) -> i128
    requires { unsigned_abs way ≤ 200000000 }
    ensures single { result ≡ way }
    ensures near { unsigned_abs result ≤ 200000000 }
{
    i128::from(way)
}

/// Twice a part of a direction.
fn doubled_part(part: i128) -> i128
    requires { unsigned_abs part ≤ 2000000000000 }
    ensures doubled { result ≡ pos 2 *ℤ part }
    ensures near { unsigned_abs result ≤ 4000000000000 }
{
    2 * part
}

/// How far a line of this direction goes across, as a diameter, while it goes so far along; none if it
/// goes across alone.
fn across_by(way: i64, heading: &Heading) -> Option<i128>
    requires way { unsigned_abs way ≤ 200000000 }
    requires heading { IsFlat heading.now }
    ensures across { result ≡ across_by way heading.now }
    ensures near { IfSome result (λ n. unsigned_abs n ≤ 8000000000004000000000000) }
{
    if heading.cosine == 0 {
        None
    } else {
        Some(nearest(product(doubled(way), heading.sine), heading.cosine))
    }
}

/// How far it goes along while it goes so far across, as a diameter; none if it goes along alone.
fn along_by(way: i64, heading: &Heading) -> Option<i128>
    requires way { unsigned_abs way ≤ 200000000 }
    requires heading { IsFlat heading.now }
    ensures along { result ≡ along_by way heading.now }
    ensures near { IfSome result (λ n. unsigned_abs n ≤ 8000000000004000000000000) }
{
    if heading.sine == 0 {
        None
    } else {
        Some(nearest(
            product(single(way), heading.cosine),
            doubled_part(heading.sine),
        ))
    }
}

/// The way from one coordinate to another.
fn way_between(from: i64, to: i64) -> i64
    requires from { unsigned_abs from ≤ travel }
    requires to { unsigned_abs to ≤ travel }
    ensures way { result ≡ to -ℤ from }
    ensures near { unsigned_abs result ≤ 200000000 }
{
    to - from
}

/// A way, held within ten times the travel: what is farther is past it in any case.
fn held(way: i128) -> i64
    requires { unsigned_abs way ≤ 8000000000004000000000000 }
    ensures held { result ≡ held way }
    ensures near { unsigned_abs result ≤ 1000000000 }
{
    if way > FARTHEST {
        FARTHEST as i64
    } else if way < -FARTHEST {
        -FARTHEST as i64
    } else {
        way as i64
    }
}

/// The coordinate so far from another one.
fn moved_by(from: i64, way: i128) -> i64
    requires from { unsigned_abs from ≤ travel }
    requires way { unsigned_abs way ≤ 8000000000004000000000000 }
    ensures moved { result ≡ from +ℤ held way }
    ensures near { unsigned_abs result ≤ 2000000000 }
{
    from + held(way)
}

/// Where a line of this direction ends whose end along is said.
fn end_across(words: &[Word], from: &Point, heading: &Heading) -> Option<Point>
    requires from { IsPosition from.now }
    requires heading { IsFlat heading.now }
    ensures end { result ≡ end_across from.now heading.now words.now }
    ensures position { IfSome result IsPosition }
{
    let z = place_said(words, b'Z', b'W', from.z);
    let level = position_of(Point { x: from.x, z })?;
    let way = across_by(way_between(from.z, level.z), heading)?;
    position_of(Point {
        x: moved_by(from.x, way),
        z: level.z,
    })
}

/// Where it ends if its end across is said.
fn end_along(words: &[Word], from: &Point, heading: &Heading) -> Option<Point>
    requires from { IsPosition from.now }
    requires heading { IsFlat heading.now }
    ensures end { result ≡ end_along from.now heading.now words.now }
    ensures position { IfSome result IsPosition }
{
    let x = place_said(words, b'X', b'U', from.x);
    let level = position_of(Point { x, z: from.z })?;
    let way = along_by(way_between(from.x, level.x), heading)?;
    position_of(Point {
        x: level.x,
        z: moved_by(from.z, way),
    })
}

/// Where a line of this angle ends, of which one end is said.
fn angled_by(words: &[Word], from: &Point, angle: u64) -> Option<Point>
    requires { IsPosition from.now }
    ensures end { result ≡ angled_by from.now words.now angle }
    ensures position { IfSome result IsPosition }
{
    let heading = direction_of(angle);
    if says_along(words) {
        end_across(words, from, &heading)
    } else {
        end_along(words, from, &heading)
    }
}

/// Where a line ends by its angle, `,A`, and the end that its words say.
fn angled_end(words: &[Word], from: &Point) -> Option<Point>
    requires { IsPosition from.now }
    ensures end { result ≡ angled_end from.now words.now }
    ensures position { IfSome result IsPosition }
{
    match angle_in(length_or(words, b'a', 0)) {
        Some(angle) => angled_by(words, from, angle),
        None => None,
    }
}

/// Where the line that the words say ends, if that may be a position: by both ends, or by one of them
/// and its angle.
pub fn line_end(words: &[Word], from: &Point) -> Option<Point>
    requires { IsPosition from.now }
    ensures end { result ≡ line_end from.now words.now }
    ensures position { IfSome result IsPosition }
{
    if is_said(words, b'a') {
        angled_end(words, from)
    } else {
        end_of(words, from)
    }
}

/// Why a line has no end that may be a position.
pub fn end_cause(words: &[Word]) -> PlainCause
    ensures { result ≡ end_cause words.now }
{
    if is_said(words, b'a') {
        PlainCause::Range(b'a')
    } else {
        PlainCause::Range(b'X')
    }
}
