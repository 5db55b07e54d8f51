//! The programmed point of a tool, by the number of its tip, and its nose's centre.
ghost use Rattle.std.specs.Prelude.{◌≡◌, ◌≤◌, unsigned_abs};
ghost use Rattle.nc_number.specs.Position.{IsPosition};
ghost use Rattle.plane_ways.specs.declared.place.TheConstants.{FAR};
ghost use Rattle.plane_ways.specs.Plane.{IsWithin};
ghost use Rattle.nose_path.specs.Tips.{across_of, along_of, point_of, centre_of};

use nc_number::Point;
use plane_ways::Place;

/// How far across the programmed point lies from the nose's centre.
fn across(tip: u8, radius: u128) -> i128
    requires { radius ≤ 2000000 }
    ensures across { result ≡ across_of tip radius }
    ensures bound { unsigned_abs result ≤ 2000000 }
{
    let r = radius as i128;
    if tip == 1 || tip == 2 || tip == 6 {
        r
    } else if tip == 3 || tip == 4 || tip == 8 {
        -r
    } else {
        0
    }
}

/// How far along it lies.
fn along(tip: u8, radius: u128) -> i128
    requires { radius ≤ 2000000 }
    ensures along { result ≡ along_of tip radius }
    ensures bound { unsigned_abs result ≤ 2000000 }
{
    let r = radius as i128;
    if tip == 1 || tip == 4 || tip == 5 {
        r
    } else if tip == 2 || tip == 3 || tip == 7 {
        -r
    } else {
        0
    }
}

/// The programmed point of a tool whose nose's centre is at a place.
pub fn point_of(tip: u8, radius: u128, at: &Place) -> Point
    requires radius { radius ≤ 2000000 }
    requires at { IsWithin FAR at.now }
    ensures { result ≡ point_of tip radius at.now }
{
    Point {
        x: (at.across + across(tip, radius)) as i64,
        z: ((at.along + along(tip, radius)) / 2) as i64,
    }
}

/// The nose's centre when the programmed point is at a point; with tip 0 the point itself.
pub fn centre_of(tip: u8, radius: u128, p: &Point) -> Place
    requires radius { radius ≤ 2000000 }
    requires p { IsPosition p.now }
    ensures place { result ≡ centre_of tip radius p.now }
    ensures near { IsWithin FAR result }
{
    Place {
        across: i128::from(p.x) - across(tip, radius),
        along: 2 * i128::from(p.z) - along(tip, radius),
    }
}
