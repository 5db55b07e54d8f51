//! The centre of an arc that is given by its radius, as I and K rounded to 0.001 mm.
ghost use Rattle.std.specs.Prelude.{◌≡◌, ◌≤◌, ◌<◌, ◌*◌, ◌-ℤ◌, ◌*ℤ◌, pos, IfSome, unsigned_abs};
ghost use Rattle.nc_number.specs.declared.limits.TheConstants.{LONGEST_SAID};
ghost use Rattle.nc_number.specs.Arithmetic.{square_root};
ghost use Rattle.arc_contour.specs.Bounds.{IsWritten};
ghost use Rattle.contour_words.specs.Radius.{root_of, arm, aside, quarter, same, near_centre, is_near_arc, chord_of, height_of, centre_of_height, centre_of_chord, centre_of_ways, radius_centre};

use nc_number::Point;

/// The longest way and the greatest radius of an arc by R, in 0.001 mm: 100 m.
const FARTHEST: u64 = 100_000_000;

/// The greatest length that a literal can write, in 0.001 mm.
const LONGEST: u64 = 100_000_000_000;

/// From the start of an arc to its centre, in 0.001 mm.
#[derive(Clone, Copy, Debug, PartialEq, Eq)]
pub struct Centre {
    /// Along X, a radius value.
    pub i: i64,
    /// Along Z.
    pub k: i64,
}

/// The centre of the arc from p to q of radius r that is no longer than half a circle, from p: rounded
/// to 0.001 mm. There is none if r is not above 0, if the points are one or farther apart than 2 r, or
/// if r or the way between them is longer than 100 m.
pub fn radius_centre(p: &Point, q: &Point, clockwise: bool, r: i64) -> Option<Centre>
    requires p { IsWritten p.now }
    requires q { IsWritten q.now }
    ensures centre { result ≡ radius_centre p.now q.now clockwise r }
    ensures near_i { IfSome result (λ c. unsigned_abs c.i ≤ LONGEST_SAID) }
    ensures near_k { IfSome result (λ c. unsigned_abs c.k ≤ LONGEST_SAID) }
{
    if r <= 0 {
        return None;
    }
    let across = way(p.x, q.x);
    let along = twice(way(p.z, q.z));
    centre_of_ways(across, along, clockwise, r.unsigned_abs())
}

/// The way from a place to another.
fn way(from: i64, to: i64) -> i64
    requires from { unsigned_abs from ≤ LONGEST_SAID }
    requires to { unsigned_abs to ≤ LONGEST_SAID }
    ensures way { result ≡ to -ℤ from }
    ensures near { unsigned_abs result ≤ 200000000000 }
{
    to - from
}

/// A way in 0.0005 mm.
fn twice(way: i64) -> i64
    requires { unsigned_abs way ≤ 200000000000 }
    ensures { result ≡ pos 2 *ℤ way }
{
    2 * way
}

/// Whether an arc is short enough.
fn is_near_arc(across: i64, along: i64, r: u64) -> bool
    ensures { result ≡ is_near_arc across along r }
{
    r <= FARTHEST && across.unsigned_abs() <= 2 * FARTHEST && along.unsigned_abs() <= 2 * FARTHEST
}

/// The centre of an arc of ways this long across, a diameter, and along, twice a length.
fn centre_of_ways(across: i64, along: i64, clockwise: bool, r: u64) -> Option<Centre>
    ensures centre { result ≡ centre_of_ways across along clockwise r }
    ensures near_i { IfSome result (λ c. unsigned_abs c.i ≤ LONGEST_SAID) }
    ensures near_k { IfSome result (λ c. unsigned_abs c.k ≤ LONGEST_SAID) }
{
    if is_near_arc(across, along, r) {
        centre_of_chord(across, along, clockwise, r)
    } else {
        None
    }
}

/// The same of ways and a radius that are short enough.
fn centre_of_chord(across: i64, along: i64, clockwise: bool, r: u64) -> Option<Centre>
    requires r { r ≤ 100000000 }
    requires across { unsigned_abs across ≤ 200000000 }
    requires along { unsigned_abs along ≤ 200000000 }
    ensures centre { result ≡ centre_of_chord across along clockwise r }
    ensures near_i { IfSome result (λ c. unsigned_abs c.i ≤ LONGEST_SAID) }
    ensures near_k { IfSome result (λ c. unsigned_abs c.k ≤ LONGEST_SAID) }
{
    let chord = chord_of(across, along);
    if chord == 0 {
        return None;
    }
    match height_of(r, chord) {
        Some(height) => centre_of_height(across, along, clockwise, height, chord),
        None => None,
    }
}

/// The square of the chord.
fn chord_of(across: i64, along: i64) -> u128
    requires across { unsigned_abs across ≤ 200000000 }
    requires along { unsigned_abs along ≤ 200000000 }
    ensures chord { result ≡ chord_of across along }
    ensures near { result ≤ 80000000000000000 }
{
    square(across.unsigned_abs()) + square(along.unsigned_abs())
}

/// The square of twice the height of the triangle of a radius over a chord, if there is one.
fn height_of(r: u64, chord: u128) -> Option<u128>
    requires { r ≤ 100000000 }
    ensures height { result ≡ height_of r chord }
    ensures near { IfSome result (λ h. h ≤ 160000000000000000) }
{
    (16 * square(r)).checked_sub(chord)
}

/// The centre of an arc of these ways, if twice the height over its chord has this square.
fn centre_of_height(
    across: i64,
    along: i64,
    clockwise: bool,
    height: u128,
    chord: u128,
) -> Option<Centre>
    requires across { unsigned_abs across ≤ 200000000 }
    requires along { unsigned_abs along ≤ 200000000 }
    requires height { height ≤ 160000000000000000 }
    requires chord { 0 < chord }
    ensures centre { result ≡ centre_of_height across along clockwise height chord }
    ensures near_i { IfSome result (λ c. unsigned_abs c.i ≤ LONGEST_SAID) }
    ensures near_k { IfSome result (λ c. unsigned_abs c.k ≤ LONGEST_SAID) }
{
    let right = arm(height, along.unsigned_abs(), chord);
    let up = arm(height, across.unsigned_abs(), chord);
    let i = quarter(aside(across, same(along < 0, clockwise), right));
    let k = quarter(aside(along, !same(across < 0, clockwise), up));
    near_centre(i, k)
}

/// Whether two truth values are one.
fn same(a: bool, b: bool) -> bool
    ensures { result ≡ same a b }
{
    if a { b } else { !b }
}

/// The centre, if a literal can write it.
fn near_centre(i: i64, k: i64) -> Option<Centre>
    ensures centre { result ≡ near_centre i k }
    ensures near_i { IfSome result (λ c. unsigned_abs c.i ≤ LONGEST_SAID) }
    ensures near_k { IfSome result (λ c. unsigned_abs c.k ≤ LONGEST_SAID) }
{
    if i.unsigned_abs() <= LONGEST && k.unsigned_abs() <= LONGEST {
        Some(Centre { i, k })
    } else {
        None
    }
}

/// The square of a length.
fn square(length: u64) -> u128
    requires { length ≤ 200000000 }
    ensures square { result ≡ length * length }
    ensures near { result ≤ 40000000000000000 }
{
    u128::from(length) * u128::from(length)
}

/// The part of the height of an arc's triangle that lies along an axis, if the chord's part across it
/// is this long.
fn arm(height: u128, way: u64, chord: u128) -> i64
    requires height { height ≤ 160000000000000000 }
    requires way { way ≤ 200000000 }
    requires chord { 0 < chord }
    ensures arm { result ≡ arm height way chord }
    ensures near { unsigned_abs result ≤ 100000000000000000 }
{
    root_of(height * square(way) / chord)
}

/// The root, rounded down.
fn root_of(square: u128) -> i64
    requires { square ≤ 10000000000000000000000000000000000 }
    ensures root { result ≡ root_of square }
    ensures near { unsigned_abs result ≤ 100000000000000000 }
{
    square.isqrt() as i64
}

/// A length with another one added, or taken off.
fn aside(length: i64, adds: bool, by: i64) -> i64
    requires length { unsigned_abs length ≤ 200000000 }
    requires by { unsigned_abs by ≤ 100000000000000000 }
    ensures aside { result ≡ aside length adds by }
    ensures near { unsigned_abs result ≤ 200000000000000000 }
{
    if adds { length + by } else { length - by }
}

/// A quarter of a number, rounded to the nearest, halves away from zero.
fn quarter(number: i64) -> i64
    requires { unsigned_abs number ≤ 200000000000000000 }
    ensures quarter { result ≡ quarter number }
    ensures near { unsigned_abs result ≤ 200000000000000000 }
{
    let size = ((number.unsigned_abs() + 2) / 4) as i64;
    if number < 0 { -size } else { size }
}
