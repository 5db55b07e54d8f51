//! The moves of a block, in whole increments: where an axis word leads, a line, a thread, an arc,
//! and the way home.
//!
//! `track` is the table of the control: from the kind of a block's code, its words and the state of
//! its path to its moves, or to the alarm that comes first. Points are machine positions in 0.001
//! mm, X a diameter. No call overflows at any length that it may be given. An arc by its centre is
//! refused exactly where its end is farther than 0.010 mm from the circle through its start, and
//! `arcs_end_on_their_circle` is the law that says so.
#![tactic(auto)]

mod block;
mod centre;
mod circle;
mod cut;
mod fault;
mod reference;
mod targets;

pub use block::{BlockMotion, track};
pub use cut::is_feed_zero;
pub use fault::MotionFault;
pub use targets::{LONGEST, target};

// For users of the library: what no crate of the program takes.
pub use block::return_home;
pub use centre::centre_of;
pub use circle::{arc, arcs_end_on_their_circle};
pub use cut::{line, thread};
pub use reference::home;
