//! Where a canned cycle (G90, G92, G94) ends its cut, in 0.001 mm, X a diameter.
//! pass.rt of this crate and tests call `cycle_end`.
ghost use Rattle.std.specs.Prelude.{◌≡◌, IfOk, IfSome};
ghost use Rattle.nc_number.specs.Position.{IsWithin, IsPosition};
ghost use Rattle.nc_number.specs.Axes.{IsAxisWithin};
ghost use Rattle.turn_cycles.specs.End.{cycle_end_of};

use motion_track::{LONGEST, MotionFault, target};
use nc_number::{Axis, Point};

/// Where a cycle ends its cut, in machine coordinates.
///
/// An absolute word counts from the shift, an incremental one from the start of the cycle. An axis
/// without a word takes the end that is kept from the same cycle before, if it is still in force,
/// and else stays at the start. Alarm 41 exactly where a part is past 99,999.999 mm.
pub fn cycle_end(
    start: Point,
    kept: Option<Point>,
    shift: Point,
    x: Axis,
    z: Axis,
) -> Result<Point, MotionFault>
    requires start { IsWithin LONGEST start }
    requires kept { IfSome kept IsPosition }
    requires shift { IsWithin LONGEST shift }
    requires x { IsAxisWithin LONGEST x }
    requires z { IsAxisWithin LONGEST z }
    ensures end { result ≡ cycle_end_of start kept shift x z }
    ensures position { IfOk result IsPosition }
{
    let kept = kept.unwrap_or(start);
    let from = Point {
        x: if x.is_named() { start.x } else { kept.x },
        z: if z.is_named() { start.z } else { kept.z },
    };
    target(from, shift, x, z)
}
