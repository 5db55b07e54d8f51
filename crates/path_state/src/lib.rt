//! What a block does to its path: the definitions, worked blocks, and the path itself.
//!
//! The specs say step by step what a block comes to, from the state of its path and the values that
//! were read: of a block of words its words evaluated in order, the codes and words taken, the
//! motion and the moves; of a statement its operands; of both what is written, and control. What
//! words and operands say, and what they make of what is in force, of motion and of moves, is
//! `block_values`. A [`PathState`] is the scope of its own variables, and takes an operator's edits.
//! It decides what a block comes to before anything of it changes. Crates above that print or check
//! a machine look at its paths, and take laws from here.
#![tactic(auto)]

mod acting;
mod advance;
mod control_law;
mod decision;
mod editing;
mod path;
mod refusing;
mod route;
mod scope;
mod standing;
mod statements;
mod taking;
mod words_step;
mod worked;
mod writing;

pub use advance::{Advance, BlockAnswer};
pub use control_law::{
    a_block_asks_for_each_variable_once_at_most, control_goes_as_the_flow_orders,
    waits_and_ends_stop_a_path, what_is_written_is_shared,
};
pub use decision::Decision;
pub use path::PathState;

// For users of the library: what else holds of every path.
pub use control_law::{
    each_block_keeps_the_labels, the_flow_of_an_accepted_tape_is_unforked, what_is_needed_is_shared,
};
pub use editing::edits_keep_control;
pub use refusing::a_protected_variable_is_not_written;
pub use worked::worked_blocks_come_to_these;
