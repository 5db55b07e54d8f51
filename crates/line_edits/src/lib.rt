//! A text in which some lines give way to others, byte for byte the same in every other line.
#![tactic(auto)]

mod edits;
mod law;

pub use edits::{Edit, edited, push_all};
pub use law::a_text_without_edits_stays;
