//! Which variables a block names and which it may write, by its text alone.
//!
//! Whatever a path holds as it comes to a block, the block reads and writes no other shared
//! variable: [`a_block_does_as_its_text_says`].
#![tactic(auto)]

mod laws;

pub use laws::a_block_does_as_its_text_says;
