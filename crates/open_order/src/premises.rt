//! What a tape is read by: how its words are read under the settings of the cell, and which programs
//! it may lack.
use crate::outside::Outside;
use block_forms::Dialect;

/// What a tape is read by.
#[derive(Clone, Copy, Debug)]
pub struct Premises {
    /// How the tapes of the cell are read: the wait codes, how P names paths, the code system.
    pub dialect: Dialect,
    /// The programs that a tape may lack; none if it may lack none.
    pub outside: Option<Outside>,
}
