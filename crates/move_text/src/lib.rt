//! How a turret's moves are printed.
//!
//! A place and a move are each a line: where a turret begins, and what a block asked for, after the
//! line of the tape whose block it was. The report of a run, its trace and a turret that writes what
//! it gets print the same lines.
#![tactic(auto)]

mod line;

pub use line::{move_line, place_line};
