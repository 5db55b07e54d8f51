//! Words after a comma: `,C`, `,R` and `,A` of a shop's tape, which this control does not read.
//!
//! A text with them is read as if a blank stood in place of each such comma, and the words behind
//! them get small letters: c, r and a. So no word of the control's own is taken for one of them.
#![tactic(auto)]

mod places;
mod reading;
mod small;

pub use places::CommaPlace;
pub use reading::{comma_tape, read_tape};
