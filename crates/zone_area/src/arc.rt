//! What an arc may reach: the least area round its circle, or round all that its radius may reach.
//! For swept.rt of this crate.
ghost use Rattle.std.specs.Prelude.{◌≡◌, ◌≤◌, ◌*◌};
ghost use Rattle.nc_number.specs.Position.{IsPosition, IsWithin};
ghost use Rattle.motion_track.specs.Centre.{IsCentreWithin};
ghost use Rattle.motion_track.specs.Circle.{place_of, square_between};
ghost use Rattle.zone_area.specs.Passing.{middle_of};
ghost use Rattle.zone_area.specs.Roots.{least_root};
ghost use Rattle.zone_area.specs.Area.{reach_of, area_around};
ghost use Rattle.zone_area.specs.Range.{far_middle, far_apart, far_square, far_squares, far_reach, IsNearArea};

use crate::area::Area;
use motion_track::LONGEST;
use nc_moves::Centre;
use nc_number::Point;

/// The least area that holds what an arc may reach.
pub(crate) fn arc_area(at: &Point, to: &Point, centre: &Centre) -> Area
    requires at { IsPosition at.now }
    requires to { IsPosition to.now }
    requires centre { IsCentreWithin LONGEST centre.now }
    ensures area { result ≡ area_around (middle_of at.now centre.now) (reach_of at.now to.now centre.now) }
    ensures near { IsNearArea result }
{
    area_around(&middle_of(at, centre), reach_of(at, to, centre))
}

/// The area of a middle plus and minus a reach in 0.0005 mm; along Z it is half of the reach,
/// rounded outward.
fn area_around(middle: &Point, reach: u64) -> Area
    requires middle { IsWithin far_middle middle.now }
    requires reach { reach ≤ far_reach }
    ensures area { result ≡ area_around middle.now reach }
    ensures near { IsNearArea result }
{
    let along = ((reach + 1) / 2) as i64;
    let across = reach as i64;
    Area {
        low: Point {
            x: middle.x - across,
            z: middle.z - along,
        },
        high: Point {
            x: middle.x + across,
            z: middle.z + along,
        },
    }
}

/// The middle of the circle that the arc may reach: its centre, or for an arc by its radius its
/// start.
fn middle_of(at: &Point, centre: &Centre) -> Point
    requires at { IsPosition at.now }
    requires centre { IsCentreWithin LONGEST centre.now }
    ensures middle { result ≡ middle_of at.now centre.now }
    ensures near { IsWithin far_middle result }
{
    match *centre {
        Centre::Offset { i, k } => Point {
            x: at.x + 2 * i,
            z: at.z + k,
        },
        Centre::Radius { .. } => *at,
    }
}

/// How far the arc may reach from its middle, in 0.0005 mm.
fn reach_of(at: &Point, to: &Point, centre: &Centre) -> u64
    requires at { IsPosition at.now }
    requires to { IsPosition to.now }
    requires centre { IsCentreWithin LONGEST centre.now }
    ensures reach { result ≡ reach_of at.now to.now centre.now }
    ensures near { result ≤ far_reach }
{
    match *centre {
        Centre::Offset { .. } => {
            let middle = middle_of(at, centre);
            least_root(square_between(&middle, at).max(square_between(&middle, to)))
        }
        Centre::Radius { r } => 4 * r.unsigned_abs(),
    }
}

/// The square of the distance of two points, in 0.0005 mm.
fn square_between(a: &Point, b: &Point) -> u128
    requires a { IsWithin far_middle a.now }
    requires b { IsPosition b.now }
    ensures square { result ≡ square_between (place_of a.now) (place_of b.now) }
    ensures bound { result ≤ far_squares }
{
    squared(a.x.abs_diff(b.x)) + squared(2 * a.z.abs_diff(b.z))
}

/// The square of how far two points are apart along one axis.
#[tactic(auto, using(crate::proofs::Squares::square_bound))]
fn squared(distance: u64) -> u128
    requires { distance ≤ far_apart }
    ensures square { result ≡ distance * distance }
    ensures bound { result ≤ far_square }
{
    u128::from(distance) * u128::from(distance)
}

/// The least number whose square is at least n.
fn least_root(n: u128) -> u64
    requires { n ≤ far_squares }
    ensures root { result ≡ least_root n }
    ensures near { result ≤ far_reach }
{
    let root = n.isqrt();
    if root * root < n {
        root as u64 + 1
    } else {
        root as u64
    }
}
