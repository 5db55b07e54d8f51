//! A tape's blocks as the control of this house runs them: the blocks that its language has stay, and
//! forms write the others out. A block that no form takes refuses the tape.
//!
//! `written_tape` answers for each block of a tape whether it stays, or what stands in its place. The
//! forms that it asks are listed in asking.rt.
#![tactic(auto)]

mod asking;
mod law;
mod order;
mod passing;
mod step;
mod targets;
mod walk;

pub use step::{Replaced, Step, StepList};
pub use walk::{MarkList, Rules, written_tape};

// For users of the library: laws that no crate of the program takes.
pub use law::{no_wait_moves, what_is_own_stays};
