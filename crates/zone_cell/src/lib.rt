//! How both paths lie in one cell: the frame of each, the gap that they are to keep, and the zone
//! of two areas.
//!
//! [`read_zones`] reads a text of lines: `frame`, `mirror` and `gap`. [`Zones::zone`] brings an area
//! of each path into the cell and says whether they are clear. The lines of a list of zones are
//! texts of one piece each.
#![tactic(auto)]

mod cell;
mod cell_entry;
mod cell_line;
mod entry;
mod finding;
mod hit_lines;
mod lines;
mod named;
mod plan;
mod reading;

pub use cell::{Zone, Zones};
pub use finding::Finding;
pub use hit_lines::finding_lines;
pub use lines::{end_line, head_line, zone_line};
pub use plan::{Plan, read_plan};
pub use reading::{ZoneFault, read_zones};
