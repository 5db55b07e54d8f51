//! The least line of each part of a path, among the blocks that are looked for.
//!
//! A part is the blocks that the path may run between one wait and the next. [`least_lines`] goes
//! through a tape as the calls that lead to waits or ends are unfolded, and makes the lines of each
//! program once. What is looked for, a [`BlockLines`] tells: this crate knows of no variable.
#![tactic(auto)]

mod callers;
mod lines;
mod listing;
mod piece;
mod quiet;

pub use lines::BlockLines;
pub use listing::least_lines;
