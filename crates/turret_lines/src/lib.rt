//! A turret that writes what it gets, a line each, to a sink: for a simulator, or to be looked at
//! beside a run.
//!
//! `LineTurret` writes the line of its place and the lines of its moves, as the report of a run
//! prints them, and between them at which wait its path stands, and that it has met there.
#![tactic(auto)]

mod line_turret;
mod meeting_lines;
mod putting;
mod told;

pub use line_turret::LineTurret;
pub use told::Told;

// For users of the library: laws that no crate of the program takes.
pub use line_turret::line_turrets_cross;
