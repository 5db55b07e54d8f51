//! The order of the blocks of a tape, read for its waits alone.
//!
//! Each block is read for what it does to the order of blocks, and goes on to the next one if it
//! says nothing of that. A call of a program that the tape may lack goes on too. [`open_order`] is
//! the order of a tape in which nothing is wrong, or its one refusal; [`add_tape`] tells what was
//! taken on trust.
#![tactic(auto)]

mod code;
mod contour;
mod counts;
mod cycles;
mod doubles;
mod hanging;
mod laws;
mod ordering;
mod outside;
mod premises;
mod reading;
mod trusting;

pub use hanging::Hanging;
pub use ordering::open_order;
pub use outside::Outside;
pub use premises::Premises;
pub use trusting::{Trust, add_tape, no_trust};

// For users of the library: laws that no crate of the program takes.
pub use laws::{
    a_jump_may_take_any_block_of_its_number, the_first_refused_block_has_the_least_line,
};
