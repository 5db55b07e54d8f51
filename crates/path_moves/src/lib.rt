//! The moves of a path are one thing, whichever of three words says it: of records (two_path), of the
//! records of a history between two numbers (run_table), or of turns (race_order).
#![tactic(auto)]

mod laws;

// For users of the library: no crate of the program takes them.
pub use laws::{
    the_moves_of_a_path_are_one, the_moves_of_records_are_one,
    the_moves_of_turns_are_those_of_their_records,
};
