//! Places of the X and Z plane in 0.0005 mm, the ways between them, and steps off them in whole
//! counts.
//!
//! A layer above has here whether two straight lines keep a distance, all their places: the test
//! looks for a way along which a strip of that width parts them (`lines_keep_their_distance`).
#![tactic(auto)]

mod law;
mod meeting;
mod place;
mod points;
mod steps;
mod strip;
mod ways;

pub use meeting::{Meeting, sharp_meeting, wide_meeting};
pub use place::{FAR, LONG, Line, Place, Side};
pub use points::{place_of, point_at};
pub use steps::{direction, is_same, length, nearest_step, step_off};
pub use strip::{is_apart, is_off};
pub use ways::{dot, plus, square, times, turned, way};

// For readers: what no crate of the program takes.
pub use law::lines_keep_their_distance;
