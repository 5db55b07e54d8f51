//! The texts of a run: the report of a history, the summary of a made pair, and the state of a
//! machine.
//!
//! [`write_report`] does the records of a legal history again, once, and puts for each path its
//! records' moves, the number of records and how the run ended. [`write_state`] puts what a machine
//! holds. On an error it holds a prefix of it.
#![tactic(auto)]

mod condition;
mod end_line;
mod laws;
mod listing;
mod report;
mod standing;
mod state;
mod summary;
mod turns;

pub use end_line::{add_cause, end_lines};
pub use nc_outside::Reason;
pub use report::write_report;
pub use state::write_state;
pub use summary::write_summary;

// For users of the library: laws that no crate of the program takes.
pub use laws::{law_of_later_moves, law_of_streams};
