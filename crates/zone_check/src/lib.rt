//! The zones of a run: for each segment of it, up to a meeting or the end, the areas that both
//! paths may pass, in one cell.
//!
//! [`boxes`] does the records of a legal history again, once, and answers a zone for each segment.
//! The layer above leans on this: the list is that of the history's segments, each of which begins
//! where the machine stands at its meeting; an area holds each point that its path may pass in the
//! segment, and is the least that does; where a zone is clear, any two points that the paths may
//! pass there differ by more than the gap in X or in Z, whatever their timing.
//!
//! [`findings`] judges the same segments move by move, each move with the body of the tool in force:
//! its list has of each segment what is hit first, if anything.
#![tactic(auto)]

mod judging;
mod laws;
mod meetings;
mod standing;
mod telling;
mod trailing;
mod writing;

pub use judging::findings;
pub use meetings::boxes;
pub use telling::{write_end, write_findings};
pub use writing::write_zones;

// For users of the library: laws that no crate of the program takes.
pub use laws::{
    a_zone_holds_what_may_be_passed, clear_laps_keep_apart, clear_zones_keep_apart,
    moves_lead_to_positions,
};
