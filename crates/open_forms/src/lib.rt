//! What one block of a tape does to the order of blocks, read for that alone.
//!
//! A block goes on to the next one unless its words or its statement say that it calls, returns,
//! jumps, loops, waits or ends; what else it says is not looked into. So a block whose codes the
//! control does not know still has its `Control`. It is refused if that can't be told.
#![tactic(auto)]

mod codes;
mod controls;
mod laws;
mod letters;
mod reading;
mod refusals;
mod role;
mod statement;

pub use laws::{the_statements_of_a_tape_are_clean, what_reads_in_full_leads_where_it_said};
pub use letters::{last_number, number, written};
pub use reading::open_control;
pub use role::Role;
