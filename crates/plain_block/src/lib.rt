//! The plain blocks that the cycles and forms of a shop's program are written out as: moves by G00,
//! G01, G02, G03 and G32 to a place in X and Z, and rests. No text is known here: a form makes
//! blocks, and who writes them prints them. Beside them a length that is moved by so much.
#![tactic(auto)]

mod block;
mod course;
mod shift;
mod writing;

pub use block::PlainBlock;
pub use course::{ArcCentre, Course};
pub use shift::moved;
pub use writing::push_block;
