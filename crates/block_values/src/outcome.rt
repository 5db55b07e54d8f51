//! Why a step of a block gives no value: it needs a shared variable, or raises an alarm. Every call
//! of this crate that evaluates answers so.
ghost use Rattle.std.specs.Prelude.{◌≡◌, pos};
ghost use Rattle.nc_number.specs.Causes.{cause_number};

use nc_number::{Cause, Value};

/// Why a step of a block gives no value.
#[derive(Clone, Copy, Debug, PartialEq, Eq)]
pub enum Stop {
    /// The shared variable of this number must be read next.
    Needs(u32),
    /// An alarm by its number, and its value, which is 0 but for alarm 33.
    Alarms { number: u8, value: Value },
}

impl Stop {
    /// The alarm of this number, whose value is 0.
    pub fn fault(number: u8) -> Stop
        ensures { result ≡ Stop.Alarms number (pos 0) }
    {
        Stop::Alarms {
            number,
            value: Value::zero(),
        }
    }

    /// The alarm of the cause.
    pub fn of(cause: Cause) -> Stop
        ensures { result ≡ Stop.Alarms (cause_number cause) (pos 0) }
    {
        Stop::fault(cause.number())
    }
}
