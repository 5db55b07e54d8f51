//! The area that the moves of a path may pass, and whether two of them are clear of each other.
//!
//! [`Swept`] takes one move after the other. Its area is the least of whole counts that holds where
//! the path began, where each move ends, and what each arc may reach. The laws: such an area holds
//! every point that a move may pass, however finely points are counted, also as it lies in the cell;
//! it lies within each other area that holds those ends and reaches; and where two areas are clear,
//! any two points that may be passed in them are more than the gap apart in X or in Z.
#![tactic(auto)]

mod arc;
mod area;
mod clear;
mod frame;
mod laws;
mod swept;

pub use area::Area;
pub use clear::is_clear;
pub use frame::Frame;
pub use laws::{an_area_in_the_cell_holds_what_may_be_passed, clear_areas_keep_apart};
pub use swept::Swept;

// For users of the library: laws that no crate of the program takes.
pub use laws::{an_area_holds_what_may_be_passed, an_area_is_the_least};
