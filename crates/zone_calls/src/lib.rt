//! What is due to three texts and a text of zones: where both turrets may come to one place in the
//! run whose paths take turns, by boxes of whole segments or move by move. For callers and for
//! commands, over texts in memory, with no file and no disk.
//!
//! [`tell_zones`] writes the text that is due to a sink and gives its status; [`answer_zones`] hands
//! the front of the same into a caller's room, and tells how long the whole is. [`tell_plan`] writes
//! what a text of zones asks for of any history, and [`tell_bad_zone`] the line of a text that asks
//! for nothing.
#![tactic(auto)]

mod judging;
mod putting;

pub use judging::{answer_zones, tell_bad_zone, tell_zones};
pub use putting::tell_plan;
