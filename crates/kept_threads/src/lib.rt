//! Threads that are asked for before it is known whether they are needed: each waits for one order,
//! which is a job or to go home, and gives back what the job came to.
//!
//! `keep` asks the system for a thread, and answers at once if it is refused. `Kept::finish` promises
//! the layer above what it leans on: the thread did the job that it was told to do, if it was told
//! one, and nothing else.
#![tactic(auto)]

mod kept;
mod order;

pub use kept::{Kept, keep};
pub use order::{Job, Order};
