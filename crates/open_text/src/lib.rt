//! The text of a tape as it is read for its waits alone.
//!
//! [`open_text`] takes out of a text, or replaces by blanks, what the reader of tapes refuses and no
//! wait depends on, so that a pair is judged that a run of it would refuse. Each line keeps its
//! number.
#![tactic(auto)]

mod bytes;
mod manner;
mod opening;
mod place;
mod spot;
mod steps;

pub use manner::{Calls, Jumps, Manner};
pub use opening::open_text;
pub use place::Place;
pub use spot::{Spot, Step};
