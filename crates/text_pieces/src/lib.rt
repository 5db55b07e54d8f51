//! A text in pieces that take no memory.
//!
//! A [`Piece`] is an array of a fixed size, and each call that adds to it says how much room it asks
//! for: so no call fails, and a line that is made of a piece is written by one call of its sink.
//! Reports, verdicts, traces, races and zones print numbers, values, points, codes, paths and the
//! names of causes by it. A text without a bound is gathered in memory, by calls that add to it and
//! can run out of memory.
#![tactic(auto)]

mod piece;
mod pushing;
mod refusing;

pub use piece::{MOST_BYTES, Piece};
pub use pushing::{push_bytes, push_numbered, push_piece};
pub use refusing::{refused, refused_at};
