//! The machine: two paths that take turns, and what they share.
//!
//! An event is a turn of a path or an operator's edit of one. Most turns make a record, and so does
//! each edit. The records of any events are a legal history, and each legal history is the records
//! of some events: its fold, each record done again, is their machine but for what unfinished blocks
//! have read. A record that can't follow those before it is illegal, and changes nothing. Over a
//! pair of tapes whose lists of labels agree no order of events ends where neither path can go on.
#![tactic(auto)]

mod again;
mod editing;
mod ending;
mod joint;
mod laws;
mod machine;
mod part;
mod turn;
mod turning;
mod walk;

pub use again::Illegal;
pub use laws::{
    a_machine_begins_without_waits, each_event_keeps_the_history, histories_are_runs,
    no_legal_history_is_stuck, no_pair_is_stuck,
};
pub use machine::Machine;
pub use turn::{Answered, Turn, TurnAnswer, Turned};
pub use walk::done_again;

// For users of the library: laws that no crate of the program takes.
pub use laws::{no_block_says_that_waits_differ, restarts_keep_the_history};
