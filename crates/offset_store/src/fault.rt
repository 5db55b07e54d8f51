//! Why an offset was not set: alarm 40 or 41.
ghost use Rattle.std.specs.Prelude.{◌≡◌};

use nc_number::Cause;
use thiserror::Error;

/// Why an offset was not set, as the number of the alarm: 40 where it does not exist, 41 where it
/// would be past the range.
#[derive(Clone, Copy, Debug, PartialEq, Eq, Error)]
#[error("offset alarm {number}")]
pub struct OffsetFault {
    /// 40, no offset has the number; or 41, the point is past the range.
    pub number: u8,
}

impl OffsetFault {
    ghost use Rattle.offset_store.specs.Faults.{fault};

    /// The fault with the alarm number of a cause.
    pub(crate) fn of(cause: Cause) -> Self
        ensures { result ≡ fault cause }
    {
        OffsetFault {
            number: cause.number(),
        }
    }
}
