//! Why a tape is not written out.
ghost use Rattle.std.specs.Prelude.{◌≡◌};

use nc_number::Cause;
use nc_text::TextFault;
use plain_form::PlainFault;
use thiserror::Error;

/// Why a tape is not written out.
#[derive(Clone, Copy, Debug, PartialEq, Eq, Error)]
pub enum PlainTapeFault {
    /// This line of the settings is not allowed: 90.
    #[error("refusal 90 at line {0} of the settings")]
    BadSetting(u32),
    /// Its text reads as no tape: 5, 10 to 17 or 64.
    #[error(transparent)]
    Unreadable(TextFault),
    /// A block can't be written out: 96.
    #[error(transparent)]
    NotPlain(PlainFault),
    /// With what stands in place of this line, the whole tape first has more than 20,000 blocks: 94.
    #[error("refusal 94 at line {0}")]
    TooLarge(u32),
}

impl PlainTapeFault {
    ghost use Rattle.std.specs.Prelude.{◌≡◌};
    ghost use Rattle.tape_plain.specs.Faults.{plain_number, plain_line};

    /// The number under which the refusal is printed.
    pub fn number(&self) -> u8
        ensures { result ≡ plain_number self.now }
    {
        match self {
            PlainTapeFault::BadSetting(_) => Cause::BadSetting.number(),
            PlainTapeFault::Unreadable(fault) => fault.number,
            PlainTapeFault::NotPlain(_) => Cause::NotPlain.number(),
            PlainTapeFault::TooLarge(_) => Cause::TooLarge.number(),
        }
    }

    /// The line that the refusal is about, from 1.
    pub fn line(&self) -> u32
        ensures { result ≡ plain_line self.now }
    {
        match self {
            PlainTapeFault::BadSetting(line) => *line,
            PlainTapeFault::Unreadable(fault) => fault.line,
            PlainTapeFault::NotPlain(fault) => fault.line,
            PlainTapeFault::TooLarge(line) => *line,
        }
    }
}
