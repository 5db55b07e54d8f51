//! Whether two lines keep a distance: along a normal of one of them, or along the way from an end of
//! the one to an end of the other.
ghost use Rattle.std.specs.Prelude.{◌≡◌, ◌≤◌, ◌*◌, ◌||◌, All, unsigned_abs};
ghost use Rattle.std.specs.Int.{int_min, int_max};
ghost use Rattle.plane_ways.specs.declared.place.TheConstants.{FAR};
ghost use Rattle.plane_ways.specs.Plane.{dot, square, way, turned, IsWithin};
ghost use Rattle.plane_ways.specs.declared.place.Side.{Side};
ghost use Rattle.plane_ways.specs.Apart.{gap, is_wide, is_apart, is_off};

use crate::place::{Line, Place, Side};
use crate::ways::{dot, square, turned, way};

/// How far, along w, the second line lies before the first.
fn gap(w: &Place, first: &Line, second: &Line) -> i128
    requires w { IsWithin 1000000000 w.now }
    requires first_from { IsWithin FAR first.now.from }
    requires first_to { IsWithin FAR first.now.to }
    requires second_from { IsWithin FAR second.now.from }
    requires second_to { IsWithin FAR second.now.to }
    ensures gap { result ≡ gap w.now first.now.from first.now.to second.now.from second.now.to }
    ensures bound { unsigned_abs result ≤ 1600000000000000000 }
{
    let low = least(reach(w, &second.from), reach(w, &second.to));
    let high = greatest(reach(w, &first.from), reach(w, &first.to));
    low - high
}

/// How far a place lies along w.
fn reach(w: &Place, at: &Place) -> i128
    requires w { IsWithin 1000000000 w.now }
    requires at { IsWithin FAR at.now }
    ensures reach { result ≡ dot w.now at.now }
    ensures bound { unsigned_abs result ≤ 800000000000000000 }
{
    dot(w, at)
}

/// The lesser of two numbers.
fn least(a: i128, b: i128) -> i128
    requires a { unsigned_abs a ≤ 800000000000000000 }
    requires b { unsigned_abs b ≤ 800000000000000000 }
    ensures is { result ≡ int_min a b }
    ensures bound { unsigned_abs result ≤ 800000000000000000 }
{
    if b < a { b } else { a }
}

/// The greater of two numbers.
fn greatest(a: i128, b: i128) -> i128
    requires a { unsigned_abs a ≤ 800000000000000000 }
    requires b { unsigned_abs b ≤ 800000000000000000 }
    ensures is { result ≡ int_max a b }
    ensures bound { unsigned_abs result ≤ 800000000000000000 }
{
    if b < a { a } else { b }
}

/// Whether along w the lines are at least d from each other.
#[tactic(auto, unfolding(crate::specs::Apart::is_wide))]
fn is_wide(d: u128, w: &Place, first: &Line, second: &Line) -> bool
    requires d { d ≤ 2000000 }
    requires w { IsWithin 1000000000 w.now }
    requires first_from { IsWithin FAR first.now.from }
    requires first_to { IsWithin FAR first.now.to }
    requires second_from { IsWithin FAR second.now.from }
    requires second_to { IsWithin FAR second.now.to }
    ensures { result ≡ is_wide d w.now first.now.from first.now.to second.now.from second.now.to }
{
    let gap = gap(w, first, second);
    0 < gap && least_square(d, w) <= squared(gap.unsigned_abs())
}

/// The square of a gap.
fn squared(gap: u128) -> u128
    requires { gap ≤ 1600000000000000000 }
    ensures { result ≡ gap * gap }
{
    gap * gap
}

/// The square of the gap of a strip of width d along w.
fn least_square(d: u128, w: &Place) -> u128
    requires d { d ≤ 2000000 }
    requires w { IsWithin 1000000000 w.now }
    ensures { result ≡ d * d * square w.now }
{
    let size = square(w);
    d * d * size
}

/// Whether every place of the first line is at least d from every place of the second.
pub fn is_apart(d: u128, first: &Line, second: &Line) -> bool
    requires d { d ≤ 2000000 }
    requires first_from { IsWithin FAR first.now.from }
    requires first_to { IsWithin FAR first.now.to }
    requires second_from { IsWithin FAR second.now.from }
    requires second_to { IsWithin FAR second.now.to }
    ensures { result ≡ is_apart d first.now.from first.now.to second.now.from second.now.to }
{
    is_wide_beside(d, &first.from, &first.to, first, second)
        || is_wide_beside(d, &second.from, &second.to, first, second)
        || is_wide_between(d, &first.from, &second.from, first, second)
        || is_wide_between(d, &first.from, &second.to, first, second)
        || is_wide_between(d, &first.to, &second.from, first, second)
        || is_wide_between(d, &first.to, &second.to, first, second)
}

/// Whether across the way from a to b, to either side, the lines are at least d from each other.
fn is_wide_beside(d: u128, a: &Place, b: &Place, first: &Line, second: &Line) -> bool
    requires d { d ≤ 2000000 }
    requires a { IsWithin FAR a.now }
    requires b { IsWithin FAR b.now }
    requires first_from { IsWithin FAR first.now.from }
    requires first_to { IsWithin FAR first.now.to }
    requires second_from { IsWithin FAR second.now.from }
    requires second_to { IsWithin FAR second.now.to }
    ensures { result ≡ (is_wide d (turned Side.Left (way a.now b.now)) first.now.from first.now.to second.now.from second.now.to
        || is_wide d (turned Side.Right (way a.now b.now)) first.now.from first.now.to second.now.from second.now.to) }
{
    let w = way(a, b);
    is_wide(d, &turned(Side::Left, &w), first, second)
        || is_wide(d, &turned(Side::Right, &w), first, second)
}

/// Whether along the way from a to b the lines are at least d from each other.
fn is_wide_between(d: u128, a: &Place, b: &Place, first: &Line, second: &Line) -> bool
    requires d { d ≤ 2000000 }
    requires a { IsWithin FAR a.now }
    requires b { IsWithin FAR b.now }
    requires first_from { IsWithin FAR first.now.from }
    requires first_to { IsWithin FAR first.now.to }
    requires second_from { IsWithin FAR second.now.from }
    requires second_to { IsWithin FAR second.now.to }
    ensures { result ≡ is_wide d (way a.now b.now) first.now.from first.now.to second.now.from second.now.to }
{
    is_wide(d, &way(a, b), first, second)
}

/// Whether a line is at least d from each line of a contour.
pub fn is_off(d: u128, line: &Line, first: &Place, points: &[Place]) -> bool
    requires d { d ≤ 2000000 }
    requires from { IsWithin FAR line.now.from }
    requires to { IsWithin FAR line.now.to }
    requires first { IsWithin FAR first.now }
    requires points { All (IsWithin FAR) points.now }
    ensures { result ≡ is_off d line.now.from line.now.to first.now points.now }
{
    let mut from = *first;
    for to in points {
        if !is_apart(d, line, &Line { from, to: *to }) {
            return false;
        }
        from = *to;
    }
    true
}
