//! The records of a run whose paths take turns, in memory.
//!
//! Path 1 and path 2 get a turn each, from path 1 on, until the run has ended or has as many
//! records as it may have. A path that waits or has ended is passed over. [`records_in_turn`] makes
//! the records of that run and of no other; the layer above leans on this: they are a legal
//! history, they hang on the two tapes, the settings and the number of records alone, and the run
//! always ends.
#![tactic(auto)]

mod ending;
mod laws;
mod turns;

pub use laws::one_run_in_turn;
pub use turns::{InTurn, records_in_turn};

// For users of the library: laws that no crate of the program takes.
pub use laws::runs_in_turn_are_legal;
