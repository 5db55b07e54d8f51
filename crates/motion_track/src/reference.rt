//! The way home (G28): to the intermediate point, then to the reference position. For block.rt of
//! this crate; tests call it too.
ghost use Rattle.std.specs.Prelude.{◌≡◌};
ghost use Rattle.motion_track.specs.Home.{point_with_named, home_moves};

use nc_moves::Move;
use nc_number::Point;

/// The way home of the named axes: a rapid to the intermediate point, and one to the reference
/// position. `x` and `z` say whether X and Z are named; an axis that is not named stays where it
/// is.
pub fn home(at: Point, mid: Point, home: Point, x: bool, z: bool) -> [Move; 2]
    ensures { result ≡ home_moves at mid home x z }
{
    let by = named(&at, &mid, x, z);
    let to = named(&at, &home, x, z);
    [Move::Rapid { to: by }, Move::Rapid { to }]
}

/// The named parts of `to`, and the others of `at`; `x` and `z` say whether X and Z are named.
fn named(at: &Point, to: &Point, x: bool, z: bool) -> Point
    ensures { result ≡ point_with_named at.now to.now x z }
{
    Point {
        x: if x { to.x } else { at.x },
        z: if z { to.z } else { at.z },
    }
}
