//! What a tape that was written out says: the blocks that stay and those that stand in place of the
//! others.
//!
//! `is_read_as` compares a tape that was read from what was written with these.
#![tactic(auto)]

mod law;
mod saying;
mod tapes;

pub use law::what_is_read_was_written;
pub use tapes::is_read_as;
