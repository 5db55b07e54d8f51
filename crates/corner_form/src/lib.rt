//! Corners between two lines as plain blocks: a chamfer (`,C`), or a rounding (`,R`) by an arc with I
//! and K. No text is known here.
//!
//! A layer above has the two blocks that lead to the corner's end, or why there is no such corner.
//! What holds of what is written is `corners_lie_on_their_lines`: both ends lie on their lines
//! within 0.001 mm, and the arc's centre at the radius from both lines within 0.001 mm.
#![tactic(auto)]

mod blocks;
mod chamfer;
mod corner;
mod law;
mod lines;
mod rounding;

pub use blocks::corner_blocks;
pub use corner::{
    Corner, CornerBlocks, CornerEnds, CornerFault, CornerKind, LARGEST_CORNER, NEAR, ROUND,
    RoundCorner,
};

// For readers: a law that no crate of the program takes.
pub use law::corners_lie_on_their_lines;
