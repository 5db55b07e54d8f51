//! The laws of the refusals of a tape: each has one, none lacks one, and 65 and 66 are exactly what
//! keeps a tape from having one list of labels.
//!
//! Each law is the contract of a function that does nothing: who calls it has the law. They speak of
//! definitions alone, of what is read, accepted and refused, whatever code finds it. The two laws on
//! one list of labels are for readers, and no other crate calls them.
#![tactic(auto)]

mod lines;
mod order;
mod tape;

pub use lines::lines_of_blocks_rise;
pub use order::{
    a_tape_has_one_first_fault, a_tape_has_one_list_where_no_wait_is_at_fault,
    no_tape_is_unsound_without_a_fault,
};
pub use tape::{
    a_refused_tape_has_one_refusal, a_tape_is_accepted_exactly_with_one_list,
    no_tape_is_without_an_answer,
};
