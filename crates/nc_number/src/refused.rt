//! A refusal of a text: its number, by the table of causes, and its line.
ghost use Rattle.std.specs.Prelude.{◌≡◌};
ghost use Rattle.nc_number.specs.Refusals.{refused_at};

use crate::cause::Cause;
use thiserror::Error;

/// A text is refused at one of its lines.
#[derive(Clone, Copy, Debug, PartialEq, Eq, Error)]
#[error("refusal {number} at line {line}")]
pub struct Refused {
    /// The number of the refusal, as the table of causes has it.
    pub number: u8,
    /// The line, from 1.
    pub line: u32,
}

impl Refused {
    /// The refusal with this cause at this line.
    pub fn at(cause: Cause, line: u32) -> Refused
        ensures { result ≡ refused_at cause line }
    {
        Refused {
            number: cause.number(),
            line,
        }
    }
}
