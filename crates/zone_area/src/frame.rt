//! How the points of a path lie in the cell, where the areas of both paths are compared: mirrored in
//! X and in Z or not, and shifted.
ghost use Rattle.std.specs.Prelude.{◌≡◌, ◌≤◌, ◌+ℤ◌, unsigned_abs, if◌then◌else◌};
ghost use Rattle.nc_number.specs.Position.{travel, IsPosition};
ghost use Rattle.nc_number.specs.Signs.{signed_number};
ghost use Rattle.zone_area.specs.Area.{area_in_cell};
ghost use Rattle.zone_area.specs.Range.{far_grown, far_in_cell, IsGrownArea, IsInCell};

use crate::area::Area;
use nc_number::Point;

/// How the points of a path lie in the cell: X negated under `mirror`, Z under `mirror_z`, and then
/// shifted.
#[derive(Clone, Copy, Debug, PartialEq, Eq)]
pub struct Frame {
    /// Whether X is negated in the cell.
    pub mirror: bool,
    /// Whether Z is negated in the cell.
    pub mirror_z: bool,
    /// What is added then, in 0.001 mm; X is a diameter.
    pub shift: Point,
}

impl Frame {
    /// The area as it lies in the cell.
    pub fn in_cell(&self, area: &Area) -> Area
        requires area { IsGrownArea area.now }
        requires shift { IsPosition self.now.shift }
        ensures area { result ≡ area_in_cell self.now area.now }
        ensures near { IsInCell result }
    {
        let Point { x, z } = self.shift;
        Area {
            low: Point {
                x: edge(self.mirror, area.low.x, area.high.x, x),
                z: edge(self.mirror_z, area.low.z, area.high.z, z),
            },
            high: Point {
                x: edge(self.mirror, area.high.x, area.low.x, x),
                z: edge(self.mirror_z, area.high.z, area.low.z, z),
            },
        }
    }
}

/// One edge of an area in the cell: of this edge and the other, which are exchanged under `mirror`.
fn edge(mirror: bool, edge: i64, other: i64, shift: i64) -> i64
    requires edge { unsigned_abs edge ≤ far_grown }
    requires other { unsigned_abs other ≤ far_grown }
    requires shift { unsigned_abs shift ≤ travel }
    ensures edge { result ≡ signed_number mirror (if mirror then other else edge) +ℤ shift }
    ensures near { unsigned_abs result ≤ far_in_cell }
{
    if mirror { shift - other } else { edge + shift }
}
