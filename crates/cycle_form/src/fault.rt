//! Why the roughing cycles of a tape can't be written out. walk.rt and sizes.rt refuse with it.
ghost use Rattle.std.specs.Prelude.{◌≡◌};

use nc_number::Cause;
use thiserror::Error;

/// Why the roughing cycles of a tape can't be written out.
#[derive(Clone, Copy, Debug, PartialEq, Eq, Error)]
pub enum CycleFault {
    /// This line has a block with G70 or G71 that is part of no form, the first G71 of a form with
    /// more than 1,000 passes, or a block with G91 or G20.
    #[error("refusal 93 at line {0}")]
    BadCycle(u32),
    /// With the part that is replaced from this line on, the whole tape first has more than 20,000
    /// blocks.
    #[error("refusal 94 at line {0}")]
    TooLarge(u32),
}

impl CycleFault {
    ghost use Rattle.cycle_form.specs.Faults.{fault_cause, fault_line};

    /// The refusal that it is.
    pub fn cause(self) -> Cause
        ensures { result ≡ fault_cause self }
    {
        match self {
            CycleFault::BadCycle(_) => Cause::BadCycle,
            CycleFault::TooLarge(_) => Cause::TooLarge,
        }
    }

    /// The line that the refusal is about, from 1.
    pub fn line(self) -> u32
        ensures { result ≡ fault_line self }
    {
        match self {
            CycleFault::BadCycle(line) => line,
            CycleFault::TooLarge(line) => line,
        }
    }
}
