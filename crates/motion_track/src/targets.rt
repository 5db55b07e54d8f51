//! Where a move ends, in 0.001 mm, X a diameter.
ghost use Rattle.std.specs.Prelude.{◌≡◌, ◌≤◌, unsigned_abs, IfOk};
ghost use Rattle.nc_number.specs.Position.{IsWithin, IsPosition};
ghost use Rattle.nc_number.specs.Axes.{IsAxisWithin};
ghost use Rattle.motion_track.specs.Target.{part_of, point_reached, target_of};

use crate::fault::MotionFault;
use nc_number::{Axis, Cause, Point};

/// The longest length that a call takes, in 0.001 mm: a thousand times what a word of a tape can
/// say. The bounds in src/circle.rt, in proofs/Places.antt and in zone_area (specs/Range.antt) are
/// worked out from it.
pub const LONGEST: u64 = 100_000_000_000_000;

/// Where a block leads from `at`, in machine coordinates: an absolute word counts from the shift,
/// an incremental one from the present position, and an axis without a word stays. Alarm 41 exactly
/// where a part is past 99,999.999 mm.
pub fn target(at: Point, shift: Point, x: Axis, z: Axis) -> Result<Point, MotionFault>
    requires at { IsWithin LONGEST at }
    requires shift { IsWithin LONGEST shift }
    requires x { IsAxisWithin LONGEST x }
    requires z { IsAxisWithin LONGEST z }
    ensures target { result ≡ target_of at shift x z }
    ensures position { IfOk result IsPosition }
{
    let to = reached(&at, &shift, x, z);
    if to.is_position() {
        Ok(to)
    } else {
        Err(MotionFault::of(Cause::PositionRange))
    }
}

/// Where the words lead, in range or not.
fn reached(at: &Point, shift: &Point, x: Axis, z: Axis) -> Point
    requires at { IsWithin LONGEST at.now }
    requires shift { IsWithin LONGEST shift.now }
    requires x { IsAxisWithin LONGEST x }
    requires z { IsAxisWithin LONGEST z }
    ensures { result ≡ point_reached at.now shift.now x z }
{
    Point {
        x: part(at.x, shift.x, x),
        z: part(at.z, shift.z, z),
    }
}

/// Where an axis word leads, in 0.001 mm: an absolute word from the shift, an incremental one from
/// where the turret stands.
fn part(at: i64, shift: i64, axis: Axis) -> i64
    requires at { unsigned_abs at ≤ LONGEST }
    requires shift { unsigned_abs shift ≤ LONGEST }
    requires axis { IsAxisWithin LONGEST axis }
    ensures part { result ≡ part_of at shift axis }
    ensures range { unsigned_abs result ≤ 200000000000000 }
{
    match axis {
        Axis::Keep => at,
        Axis::To(programmed) => programmed + shift,
        Axis::By(way) => at + way,
    }
}
