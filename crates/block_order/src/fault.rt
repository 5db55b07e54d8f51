//! What is wrong with the order of a tape's blocks: the fault and its line.

use nc_number::Cause;
use thiserror::Error;

/// The fault for which a tape is refused, and its line.
#[derive(Clone, Copy, Debug, PartialEq, Eq, Error)]
#[error("refusal {} at line {line}", .cause.number())]
pub struct OrderFault {
    /// Why the tape is refused.
    pub cause: Cause,
    /// The number of the line, from 1.
    pub line: u32,
}
