//! The parts of a path: what it may run between one wait and the next, by the text alone.
//!
//! A program is loud if it, or one that it calls, has a wait or an end; the others are quiet. A
//! stretch is a run of blocks of the main program or a loud one up to and with a wait, an end, an
//! M99 without a number or a call of a loud program. The list of a path has its stretches and its
//! waits in the order in which they come, with the calls of loud programs unfolded. Part n is what
//! stands after n waits of the list, and the quiet programs that are called there. No program runs
//! this crate.
#![tactic(auto)]

mod laws;

pub use laws::{
    each_block_stands_in_its_part, equal_lists_have_equally_many_waits, parts_repeat_with_the_waits,
};
