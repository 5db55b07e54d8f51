//! Rectangles in X and Z, in 0.001 mm, and the least one that holds two. How they lie in the cell is
//! in frame.rt.
ghost use Rattle.std.specs.Prelude.{◌≡◌, ◌≤◌, ℕ, unsigned_abs};
ghost use Rattle.std.specs.Int.{int_min, int_max};
ghost use Rattle.nc_number.specs.Position.{IsPosition};
ghost use Rattle.zone_area.specs.Area.{area_at, hull_of};
ghost use Rattle.zone_area.specs.Range.{far_in_cell, IsAreaWithin, IsInCell, IsNearArea};

use nc_number::Point;

/// A rectangle of whole counts of 0.001 mm, its edges included; X is a diameter.
#[derive(Clone, Copy, Debug, PartialEq, Eq)]
pub struct Area {
    /// The corner with the least X and the least Z, in 0.001 mm.
    pub low: Point,
    /// The corner with the greatest X and the greatest Z, in 0.001 mm.
    pub high: Point,
}

impl Area {
    /// The area of one point.
    pub(crate) fn at(point: &Point) -> Area
        requires { IsPosition point.now }
        ensures area { result ≡ area_at point.now }
        ensures near { IsNearArea result }
    {
        Area {
            low: *point,
            high: *point,
        }
    }

    /// The least area that holds this one and another.
    pub fn hull(&self, other: &Area) -> Area
        requires me { IsInCell self.now }
        requires other { IsInCell other.now }
        ensures hull { result ≡ hull_of self.now other.now }
        ensures near { (far : ℕ) → IsAreaWithin far self.now → IsAreaWithin far other.now → IsAreaWithin far result }
    {
        Area {
            low: Point {
                x: lesser(self.low.x, other.low.x),
                z: lesser(self.low.z, other.low.z),
            },
            high: Point {
                x: greater(self.high.x, other.high.x),
                z: greater(self.high.z, other.high.z),
            },
        }
    }
}

/// The lesser of two lengths.
fn lesser(a: i64, b: i64) -> i64
    requires a { unsigned_abs a ≤ far_in_cell }
    requires b { unsigned_abs b ≤ far_in_cell }
    ensures lesser { result ≡ int_min a b }
    ensures near { unsigned_abs result ≤ far_in_cell }
{
    if b < a { b } else { a }
}

/// The greater of two lengths.
fn greater(a: i64, b: i64) -> i64
    requires a { unsigned_abs a ≤ far_in_cell }
    requires b { unsigned_abs b ≤ far_in_cell }
    ensures greater { result ≡ int_max a b }
    ensures near { unsigned_abs result ≤ far_in_cell }
{
    if b < a { a } else { b }
}
