//! Why a block has no move: an alarm, by its number. The causes are in nc_number.
ghost use Rattle.std.specs.Prelude.{◌≡◌};

use nc_number::Cause;
use thiserror::Error;

/// Why there is no move, as the number of the alarm.
#[derive(Clone, Copy, Debug, PartialEq, Eq, Error)]
#[error("motion alarm {number}")]
pub struct MotionFault {
    /// The number of the alarm.
    pub number: u8,
}

impl MotionFault {
    ghost use Rattle.motion_track.specs.Faults.{fault};

    /// The alarm of this cause.
    pub fn of(cause: Cause) -> MotionFault
        ensures { result ≡ fault cause }
    {
        MotionFault {
            number: cause.number(),
        }
    }
}
