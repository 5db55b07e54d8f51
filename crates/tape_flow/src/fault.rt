//! A refusal of a tape, of one of its blocks or of their order. docs/ERRORS.md explains each number.
//! `compile` answers it.
use thiserror::Error;

/// A refusal of a tape: its number, and the line that it is about, counted from 1.
#[derive(Clone, Copy, Debug, PartialEq, Eq, Error)]
#[error("refusal {number} at line {line}")]
pub struct FlowFault {
    /// The number of the refusal.
    pub number: u8,
    /// The line, from 1.
    pub line: u32,
}
