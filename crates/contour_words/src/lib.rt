//! The contour that a roughing cycle calls, read from the blocks of a tape: its first block, and the
//! lines and arcs behind it, each with the feed and the speed that it sets for the finish.
#![tactic(auto)]

mod causes;
mod contour;
mod motion;
mod radius;
mod step;
mod tempo;

pub use causes::{fault, refuse};
pub use contour::{Call, Contour, ContourLine, ContourLineList, First, contour_of, is_numbered};
pub use motion::Motion;
pub use radius::{Centre, radius_centre};
pub use step::{Step, length_or_none};
pub use tempo::{Tempo, tempo_cause, tempo_of};
