//! Why a block's words were not taken: the tool offset of T does not exist.
ghost use Rattle.std.specs.Prelude.{◌≡◌};

use nc_number::Cause;
use thiserror::Error;

/// Why a block's words were not taken, as the number of the alarm.
#[derive(Clone, Copy, Debug, PartialEq, Eq, Error)]
#[error("modal alarm {number}")]
pub struct ModalFault {
    /// The number of the alarm in the table of causes: 40.
    pub number: u8,
}

impl ModalFault {
    ghost use Rattle.modal_state.specs.Faults.{fault};

    /// The alarm of this cause.
    pub(crate) fn of(cause: Cause) -> Self
        ensures { result ≡ fault cause }
    {
        ModalFault {
            number: cause.number(),
        }
    }
}
