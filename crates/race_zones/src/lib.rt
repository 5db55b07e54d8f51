//! What an empty list of races says of zones: the zones of one run are those of every run that both
//! paths finish. The law is the contract of a function that does nothing.
#![tactic(auto)]

mod law;

// For users of the library: no crate of the program takes it.
pub use law::a_pair_without_races_has_one_zoning;
