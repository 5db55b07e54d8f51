//! The trace of a run (`trace`): the text of a whole history, with each event in its place.
//!
//! [`write_trace`] does the records of a legal history again, once, and puts a line for each event
//! in the order of the history: where both turrets begin, each change of a shift, each move, each
//! wait and meeting, an alarm, and the ends. On an error it holds a prefix of it.
#![tactic(auto)]

mod blocks;
mod laws;
mod lines;
mod looking;
mod tracing;

pub use blocks::says_speed;
pub use looking::{Look, is_same_point, is_same_way, look_of};
pub use tracing::{homes_of, write_trace};

// For users of the library: laws that no crate of the program takes.
pub use laws::{
    a_trace_has_the_moves_of_the_report, meetings_are_numbered_and_paired,
    the_waits_of_a_trace_are_the_labels,
};
