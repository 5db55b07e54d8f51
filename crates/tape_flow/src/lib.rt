//! A tape, checked: its blocks with what they say, and the order in which they run.
//!
//! [`compile`] reads each block of a tape, resolves what it does to the order of blocks, and
//! refuses the tape where the control would not take it: of several refusals the first of a fixed
//! order. The [`Flow`] that it makes finds what stands at a place by one look-up of the program's O
//! number, however many programs the tape has.
#![tactic(auto)]

mod fault;
mod flow;
mod laws;
mod lending;
mod ordering;
mod program;
mod reading;

pub use fault::FlowFault;
pub use flow::{Flow, compile};
pub use laws::an_accepted_tape_is_not_refused;
pub use lending::last_line;
pub use program::{FlowBlockList, FlowProgram, FlowProgramList};
