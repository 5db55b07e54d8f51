//! What is known of a path before each block of its tape, by the text alone: where the tool is as
//! the program counts, which codes are in force, the feed and the tool.
//!
//! `known_behind` takes what is known over one block. That it is so in each run is a law of its own,
//! above.
#![tactic(auto)]

mod aims;
mod behind;
mod codes;
mod entries;
mod heard;
mod known;
mod places;

pub use aims::Aims;
pub use behind::known_behind;
pub use entries::{is_entered, is_left};
pub use heard::{Heard, heard_words};
pub use known::Known;
