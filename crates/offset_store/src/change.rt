//! An offset with a block's words read: X and Z set, U and W add. For offsets.rt of this crate
//! alone (`Offsets::changed`).
ghost use Rattle.std.specs.Prelude.{◌≡◌, ◌≤◌, if◌then◌else◌, nat_le, unsigned_abs, Some, None, IfOk};
ghost use Rattle.nc_number.specs.Position.{IsPosition, travel};
ghost use Rattle.offset_store.specs.Changes.{changed_part, changed_point, in_range};

use crate::fault::OffsetFault;
use nc_number::{Axis, Cause, Point, TRAVEL};

/// An offset with a block's words read: X and Z set, U and W add, and an axis without a word stays.
/// Alarm 41 exactly where a part is then past 99,999.999 mm.
pub(crate) fn changed_point(now: &Point, x: Axis, z: Axis) -> Result<Point, OffsetFault>
    requires { IsPosition now.now }
    ensures point { result ≡ in_range (changed_point now.now x z) }
    ensures position { IfOk result IsPosition }
{
    match (changed_part(now.x, x), changed_part(now.z, z)) {
        (Some(x), Some(z)) => Ok(Point { x, z }),
        _ => Err(OffsetFault::of(Cause::PositionRange)),
    }
}

/// A part of an offset with its word read, if it is then no farther from 0 than 99,999.999 mm.
fn changed_part(now: i64, word: Axis) -> Option<i64>
    requires { unsigned_abs now ≤ travel }
    ensures { result ≡ (if nat_le (unsigned_abs (changed_part now word)) travel
        then Some (changed_part now word) else None) }
{
    let part = match word {
        Axis::Keep => now,
        Axis::To(length) => length,
        Axis::By(length) => now.checked_add(length)?,
    };
    if part.unsigned_abs() <= TRAVEL {
        Some(part)
    } else {
        None
    }
}
