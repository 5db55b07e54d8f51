//! What the text of a block comes to: what its words, its arguments and its operands say, what is
//! in force behind it, its motion and its moves.
//!
//! What is evaluated is generic over what is known of each variable, a [`Scope`](macro_eval::Scope),
//! and takes the reads of shared variables one by one; the parts of a block are given what they
//! depend on. So nothing here knows the state of a path.
#![tactic(auto)]

mod arguments;
mod modal;
mod motion;
mod moves;
mod operands;
mod outcome;
mod readings;
mod sense;
mod values;
mod words;

pub use arguments::arguments_taken;
pub use modal::modal_after;
pub use motion::{MotionStep, motion_behind};
pub use moves::{last_end, moves_behind};
pub use operands::{condition_taken, length_of, sequence_taken, value_taken, variable_taken};
pub use outcome::Stop;
pub use readings::{code_in_force, in_millimetres, in_units, part, programmed, variable_in};
pub use sense::Sense;
pub use values::Values;
pub use words::words_taken;

// For users of the library: the parts of these calls.
pub use arguments::{argument, local_of};
pub use modal::modal_of_rows;
pub use motion::{Motion, MotionWords, motion_of, setting};
pub use moves::all_moves;
pub use values::taken;
