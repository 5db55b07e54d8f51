//! The two threads of a path: the worker, which sends the moves that its steps answer along a drive
//! line, and the drive, which hands them to the turret. So a slow turret does not hold up its path's
//! blocks until the line is full or a wait comes.
//!
//! A worker (`run_path`) sends each step's moves once the step has answered, and where a step asks
//! for that it drains the line for a wait and tells the stepper of it. A drive (`run_drive`) answers
//! the mark of a drain once its turret stands still behind every move before it, so that a wait is
//! recorded only then; where the turret failed it halts the run first. `run_lane` runs both, and
//! promises: the turret got what the stepper answered for it, moves and rests in order, and then its
//! rest at the end of the path if the path has ended: all of that, or a prefix of it if it failed.
//! The caller is told how many moves the turret missed.
#![tactic(auto)]

mod drive;
mod lane;
mod worker;

pub use lane::{Lane, LaneEnd, run_lane};
pub use worker::Why;

// For users of the library: each of the two threads by itself.
pub use drive::run_drive;
pub use worker::run_path;
