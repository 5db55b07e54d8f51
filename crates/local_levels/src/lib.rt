//! The local variables of one path of the lathe.
//!
//! A macro call (G65) opens a level of 33 local variables, its return closes it, and at most eight
//! levels are open above the base level (as many as calls may be open); a call by M98 leaves them as
//! they are. Contracts see [`Levels`] as the list of its levels, the running one first; a level
//! keeps the arguments it was opened with, so that a repeated call can open it anew. Nothing here
//! takes memory.

#![tactic(auto)]

mod stack;

pub use stack::{LOCALS, Level, Levels, MOST_OPEN};
