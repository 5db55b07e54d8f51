//! The races of a pair: shared variables whose values may depend on which path comes first.
//!
//! [`races`] lists, for each shared variable that has a race, the earliest one, and [`write_races`]
//! prints the list, whose first line is [`head_line`]. If it is empty, all runs that finish come to
//! the same: [`a_pair_without_races_has_one_outcome`], and all runs go alike from meeting to meeting:
//! [`the_runs_of_a_pair_without_races_go_alike`].
#![tactic(auto)]

mod laws;
mod list;
mod meeting;
mod naming;
mod race;
mod racing;
mod sought;
mod table;
mod writing;

pub use list::RaceList;
pub use race::Race;
pub use racing::races;
pub use writing::{head_line, write_races};

// For users of the library: laws that no crate of the program takes.
pub use laws::{
    a_pair_has_one_list_of_races, a_pair_without_races_has_one_outcome,
    the_runs_of_a_pair_without_races_go_alike,
};
pub use list::no_race;
