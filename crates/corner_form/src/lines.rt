//! Where points lie at lines, by their places in 0.0005 mm.
ghost use Rattle.std.specs.Prelude.{◌≡◌, ◌≤◌, ◌*◌, ◌<ℤ◌, pos, IfSome, unsigned_abs};
ghost use Rattle.nc_number.specs.Position.{IsPosition};
ghost use Rattle.plane_ways.specs.declared.place.TheConstants.{FAR};
ghost use Rattle.plane_ways.specs.declared.place.Place.{Place};
ghost use Rattle.plane_ways.specs.declared.place.Side.{Side};
ghost use Rattle.plane_ways.specs.Plane.{dot, turned, way, square, IsWithin};
ghost use Rattle.plane_ways.specs.Steps.{IsDirection};
ghost use Rattle.corner_form.specs.Shape.{written, reaches, ahead_of, is_on, is_ahead_by, is_beside_by, is_length, is_round, side_of};

use crate::corner::{NEAR, ROUND};
use nc_number::Point;
use plane_ways::{Place, Side, dot, place_of, point_at, square, turned, way};

/// The point that is written at a place, if there is one and it may be a position.
pub(crate) fn written(at: Option<Place>) -> Option<Point>
    requires { IfSome at (IsWithin FAR) }
    ensures point { result ≡ written at }
    ensures position { IfSome result IsPosition }
{
    let at = at?;
    let point = point_at(&at);
    if point.is_position() {
        Some(point)
    } else {
        None
    }
}

/// To which side a line of direction e turns from one of direction d, if it turns.
#[tactic(auto)]
pub(crate) fn side_of(d: &Place, e: &Place) -> Option<Side>
    requires d { IsDirection d.now }
    requires e { IsDirection e.now }
    ensures side { result ≡ side_of d.now e.now }
    ensures turn { IfSome result (λ s. pos 0 <ℤ dot (turned s d.now) e.now) }
{
    if 0 < dot(&turned(Side::Left, d), e) {
        Some(Side::Left)
    } else if 0 < dot(&turned(Side::Right, d), e) {
        Some(Side::Right)
    } else {
        None
    }
}

/// How far a place lies along the line from p to q, times the line's length.
pub(crate) fn ahead_of(p: &Place, q: &Place, at: &Place) -> i128
    requires p { IsWithin FAR p.now }
    requires q { IsWithin FAR q.now }
    requires at { IsWithin FAR at.now }
    ensures ahead { result ≡ ahead_of p.now q.now at.now }
    ensures bound { unsigned_abs result ≤ 2000000000000000000 }
{
    dot(&way(p, q), &way(p, at))
}

/// How far it lies to that side of the line, times the line's length.
fn beside_of(side: Side, p: &Place, q: &Place, at: &Place) -> i128
    requires p { IsWithin FAR p.now }
    requires q { IsWithin FAR q.now }
    requires at { IsWithin FAR at.now }
    ensures beside { result ≡ dot (turned side (way p.now q.now)) (way p.now at.now) }
    ensures bound { unsigned_abs result ≤ 2000000000000000000 }
{
    dot(&turned(side, &way(p, q)), &way(p, at))
}

/// Whether the line from p to q reaches as far as the place.
pub(crate) fn reaches(p: &Place, q: &Place, at: &Place) -> bool
    requires p { IsWithin FAR p.now }
    requires q { IsWithin FAR q.now }
    requires at { IsWithin FAR at.now }
    ensures { result ≡ reaches p.now q.now at.now }
{
    ahead_of(p, q, at) <= square(&way(p, q)) as i128
}

/// Whether the place lies on the line from p to q, no more than 0.001 mm beside it.
pub(crate) fn is_on(p: &Place, q: &Place, at: &Place) -> bool
    requires p { IsWithin FAR p.now }
    requires q { IsWithin FAR q.now }
    requires at { IsWithin FAR at.now }
    ensures { result ≡ is_on p.now q.now at.now }
{
    0 <= ahead_of(p, q, at)
        && reaches(p, q, at)
        && squared(beside_of(Side::Left, p, q, at).unsigned_abs())
            <= scaled(NEAR, square(&way(p, q)))
}

/// Whether it lies n ahead of p on the way to q, within 0.001 mm.
pub(crate) fn is_ahead_by(n: u128, p: &Place, q: &Place, at: &Place) -> bool
    requires n { n ≤ 2000000 }
    requires p { IsWithin FAR p.now }
    requires q { IsWithin FAR q.now }
    requires at { IsWithin FAR at.now }
    ensures { result ≡ is_ahead_by n p.now q.now at.now }
{
    is_length(n, square(&way(p, q)), ahead_of(p, q, at).unsigned_abs())
}

/// Whether it lies r to that side of the line from p to q, within 0.001 mm.
pub(crate) fn is_beside_by(r: u128, side: Side, p: &Place, q: &Place, at: &Place) -> bool
    requires r { r ≤ 2000000 }
    requires p { IsWithin FAR p.now }
    requires q { IsWithin FAR q.now }
    requires at { IsWithin FAR at.now }
    ensures { result ≡ is_beside_by r side p.now q.now at.now }
{
    let high = beside_of(side, p, q, at);
    0 < high && is_length(r, square(&way(p, q)), high.unsigned_abs())
}

/// Whether a length of n, times the root of `size`, is `high`, within 0.001 mm.
#[tactic(auto, unfolding(crate::specs::Shape::is_length))]
fn is_length(n: u128, size: u128, high: u128) -> bool
    requires n { n ≤ 2000000 }
    requires size { size ≤ 2000000000000000000000000 }
    requires high { high ≤ 2000000000000000000 }
    ensures { result ≡ is_length n size high }
{
    scaled(n.saturating_sub(NEAR), size) <= squared(high) && squared(high) <= scaled(n + NEAR, size)
}

/// Whether the places are r from each other, within 0.002 mm.
#[tactic(auto, unfolding(crate::specs::Shape::is_round))]
pub(crate) fn is_round(r: u128, middle: &Place, at: &Place) -> bool
    requires r { r ≤ 2000000 }
    requires middle { IsWithin FAR middle.now }
    requires at { IsWithin FAR at.now }
    ensures { result ≡ is_round r middle.now at.now }
{
    let size = square(&way(middle, at));
    scaled(r.saturating_sub(ROUND), 1) <= size && size <= scaled(r + ROUND, 1)
}

/// The square of a length.
fn squared(high: u128) -> u128
    requires { high ≤ 2000000000000000000 }
    ensures { result ≡ high * high }
{
    high * high
}

/// The square of a length of r, times `size`.
fn scaled(r: u128, size: u128) -> u128
    requires r { r ≤ 2000004 }
    requires size { size ≤ 2000000000000000000000000 }
    ensures { result ≡ r * r * size }
{
    r * r * size
}
