//! Both paths of a table at once: a worker and a drive for each, in the threads of a crew and that of
//! the caller.
//!
//! `gather` asks the system for the threads of a run, and answers at once if one is refused; until
//! then nothing was done for the run. `run_pair` gives them their work, and asks for no further
//! thread. The layer above leans on that, and on this: each turret got what its path's steps told it,
//! moves and rests in order, and then its rest at the end of the path if the path has ended; or a
//! prefix of that, if it failed, and then the table has halted.
#![tactic(auto)]

mod gathering;
mod jobs;
mod pair;
mod sharing;

pub use gathering::{Crew, gather};
pub use pair::{Ran, Unrun, run_pair};
