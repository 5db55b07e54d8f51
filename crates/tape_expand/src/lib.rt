//! A tape with its roughing cycles written out as plain blocks.
//!
//! `expand_tape` answers the text of the tape in which each part (`cycle_form`) gives way to its
//! blocks, byte for byte the same in every other line. The blocks that it prints never enter the
//! contour of their part.
#![tactic(auto)]

mod expand;
mod fault;
mod part_text;

pub use expand::expand_tape;
pub use fault::ExpandFault;
