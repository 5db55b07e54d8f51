//! Tables of tests of roughing cycles: tapes, and what they are once their cycles are written out.
//! They test `expand_tape` (tape_expand) and `inside` (rough_cycle). No crate uses this one.
//!
//! The answers that are expected are worked by hand from the rules of the cycles, and never from
//! what a call answered.
#![tactic(auto)]

#[cfg(test)]
mod sizes;
#[cfg(test)]
mod tapes;
#[cfg(test)]
mod written;
