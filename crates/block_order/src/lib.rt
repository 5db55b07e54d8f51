//! The order in which the blocks of a tape run.
//!
//! Each block has a [`Control`]: what it does to the order of blocks. From the controls of a tape's
//! programs follow where jumps lead, which loops hold a block, which programs reach a wait or an
//! end, the marks of a program (blocks at which its labels change) and the labels ahead of a place
//! (the waits to which the path still comes, and what is last). [`each_step_keeps_the_labels`] is
//! the law of one path: whatever its variables hold, it comes to the labels of its tape in their
//! order.
#![tactic(auto)]

mod callers;
mod control;
mod draft;
mod fault;
mod finding;
mod fitting;
mod fitting_law;
mod frame;
mod label;
mod laws;
mod loops;
mod loud;
mod mismatch;
mod moves;
mod numbers;
mod order;
mod place;
mod program;
mod sequence;
mod tables;

pub use callers::Callers;
pub use control::Control;
pub use draft::DraftOrder;
pub use fault::OrderFault;
pub use frame::Frame;
pub use label::{Label, Mark};
pub use laws::{a_tape_without_faults_is_unforked, each_step_keeps_the_labels};
pub use loops::{LoopTable, Reach};
pub use loud::LoudPrograms;
pub use numbers::ProgramNumbers;
pub use order::BlockOrder;
pub use place::{MOST_CALLS, Place};
pub use program::{ControlBlock, ControlBlockList, ControlProgram};
pub use sequence::{Finders, SequenceIndex};
pub use tables::ProgramTables;

// For users of the library: laws that no crate of the program takes.
pub use fitting_law::loops_that_fit_are_nested;
pub use laws::{a_loop_ends_at_its_nearest_end, being_loud_is_reaching_a_wait_or_an_end};
