//! Tables of tests of the parts of a tape: its text (nc_text), the order of its blocks
//! (block_order, wait_order), what each block says (block_forms, open_forms), and the tape as a
//! whole (tape_flow). No crate uses it.
//!
//! The answers that are expected are worked by hand from the rules of tapes, and never from what a
//! call answered.
#![tactic(auto)]

#[cfg(test)]
mod call;
#[cfg(test)]
mod forms;
#[cfg(test)]
mod open_blocks;
#[cfg(test)]
mod orders;
#[cfg(test)]
mod places;
#[cfg(test)]
mod tape;
#[cfg(test)]
mod texts;
