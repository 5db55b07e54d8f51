//! G71 and G70 over a line contour, as plain blocks. Which blocks of a tape are such a form, the
//! crates above say, which rest on the law that no move enters the contour.
#![tactic(auto)]

mod block;
mod contour;
mod form;
mod law;

pub use block::PlainBlock;
pub use form::{RoughForm, TRIED};
pub use law::no_move_enters_the_contour;

// For users of the library: what no crate of the program takes.
pub use contour::inside;
pub use law::an_end_is_the_least;
