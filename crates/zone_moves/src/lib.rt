//! The moves of two paths in one cell, each with the body of the tool in force: which two of them
//! come within the gap, and which comes near a fixed box.
//!
//! A [`Cell`] has the frame of each path, the gap, the bodies of tools and the fixed boxes. A
//! [`Trail`] takes the moves of a path, one after the other, and keeps a [`Stretch`] for each: the
//! area that the tool's body may touch meanwhile, as it lies in the cell. [`judge`] finds the first
//! two stretches that come within the gap, or else the first that comes near a fixed box. The laws:
//! where nothing is found, whatever the timing of the moves the bodies keep the gap from each other
//! and from the boxes, however finely points are counted; and what is found does come within the
//! gap.
#![tactic(auto)]

mod body;
mod cell;
mod contact;
mod fixed;
mod judging;
mod laws;
mod pairs;
mod parts;
mod pruning;
mod span;
mod stretch;
mod trail;

pub use body::Body;
pub use cell::Cell;
pub use fixed::{FixedBox, Keeps};
pub use judging::{Hit, judge};
pub use laws::clear_moves_keep_apart;
pub use stretch::{Source, Stretch};
pub use trail::Trail;

// For users of the library: laws that no crate of the program takes.
pub use laws::{clear_moves_keep_off_boxes, what_is_hit_is_near};
