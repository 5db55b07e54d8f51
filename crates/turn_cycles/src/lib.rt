//! The canned cycles of a lathe: four moves round the rectangle between a start and an end.
//!
//! Every cycle ends where it started.
#![tactic(auto)]

mod end;
mod pass;
mod rectangle;

pub use pass::{CyclePass, cycle_pass};
pub use rectangle::CycleKind;

// For users of the library: what no crate of the program takes.
pub use end::cycle_end;
pub use rectangle::cycle;
