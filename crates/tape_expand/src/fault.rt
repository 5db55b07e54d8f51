//! Why a tape is not written out: it is no tape, or a cycle has a fault.
use cycle_form::CycleFault;
use nc_text::TextFault;
use thiserror::Error;

/// Why a tape is not written out.
#[derive(Clone, Copy, Debug, PartialEq, Eq, Error)]
pub enum ExpandFault {
    /// Its text reads as no tape: 5, 10 to 17 or 64.
    #[error(transparent)]
    Unreadable(TextFault),
    /// A cycle is part of no form, or the result is too large: 93 or 94.
    #[error(transparent)]
    Cycle(CycleFault),
}

impl ExpandFault {
    ghost use Rattle.std.specs.Prelude.{◌≡◌};
    ghost use Rattle.tape_expand.specs.Faults.{expand_number, expand_line};

    /// The number under which the refusal is printed.
    pub fn number(self) -> u8
        ensures { result ≡ expand_number self }
    {
        match self {
            ExpandFault::Unreadable(fault) => fault.number,
            ExpandFault::Cycle(fault) => fault.cause().number(),
        }
    }

    /// The line that the refusal is about, from 1.
    pub fn line(self) -> u32
        ensures { result ≡ expand_line self }
    {
        match self {
            ExpandFault::Unreadable(fault) => fault.line,
            ExpandFault::Cycle(fault) => fault.line(),
        }
    }
}
