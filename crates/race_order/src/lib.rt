//! Races: shared variables whose values may depend on which path comes first.
//!
//! Each part of a path, as the text alone tells it, names some variables and may write some. If no
//! part of one path may write a shared variable that the same part of the other names, all runs that
//! finish come to the same, whichever path has which turn: [`race_free_runs_agree`]. And all runs go
//! alike from meeting to meeting, also those that stop or could go on for ever:
//! [`race_free_runs_go_alike`].
#![tactic(auto)]

mod laws;

pub use laws::{race_free_runs_agree, race_free_runs_go_alike};
