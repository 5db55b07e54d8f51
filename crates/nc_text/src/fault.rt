//! A refusal of a tape: its number and its line. docs/ERRORS.md explains each number. A reader
//! answers it.
use thiserror::Error;

/// A refusal of a tape's text: its number, and the line that it is about.
#[derive(Clone, Copy, Debug, PartialEq, Eq, Error)]
#[error("refusal {number} at line {line}")]
pub struct TextFault {
    /// The number of the refusal, a row of nc_number's table of causes.
    pub number: u8,
    /// The line, counted from 1.
    pub line: u32,
}
