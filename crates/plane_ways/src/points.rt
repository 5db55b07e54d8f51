//! Points of the machine as places of the plane, and back.
ghost use Rattle.std.specs.Prelude.{◌≡◌};
ghost use Rattle.nc_number.specs.Position.{IsPosition};
ghost use Rattle.plane_ways.specs.declared.place.TheConstants.{FAR};
ghost use Rattle.plane_ways.specs.Plane.{IsWithin};
ghost use Rattle.plane_ways.specs.Points.{place_of, point_at};

use crate::place::Place;
use nc_number::Point;

/// The place of a point: its diameter in 0.001 mm is the radius in 0.0005 mm.
pub fn place_of(p: &Point) -> Place
    requires { IsPosition p.now }
    ensures place { result ≡ place_of p.now }
    ensures near { IsWithin FAR result }
{
    Place {
        across: i128::from(p.x),
        along: 2 * i128::from(p.z),
    }
}

/// The point at a place: X a diameter, Z rounded down, in 0.001 mm.
pub fn point_at(at: &Place) -> Point
    requires { IsWithin FAR at.now }
    ensures { result ≡ point_at at.now }
{
    Point {
        x: at.across as i64,
        z: (at.along / 2) as i64,
    }
}
