//! Why a block is refused, as a number of the table of refusals in nc_number.
ghost use Rattle.std.specs.Prelude.{◌≡◌};
ghost use Rattle.nc_number.specs.Causes.{cause_number};

use nc_number::Cause;
use thiserror::Error;

/// Why a block is refused: of the refusals that hold of it the one of the least number.
#[derive(Clone, Copy, Debug, PartialEq, Eq, Error)]
#[error("refusal {number}")]
pub struct FormFault {
    /// The number of the refusal: 5, 20 to 25, 54, 56 to 59, 61, 62 or 64.
    pub number: u8,
}

impl FormFault {
    /// The refusal of a cause, under the number that it is printed with.
    pub(crate) fn of(cause: Cause) -> FormFault
        ensures { result.number ≡ cause_number cause }
    {
        FormFault {
            number: cause.number(),
        }
    }
}
