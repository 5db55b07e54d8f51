//! Tables of tests of threads, grooves and holes: what a cycle says, and the moves that it stands
//! for. They test the public calls of thread_cycle and peck_cycle. No crate uses this one.
//!
//! The moves that are expected are worked by hand from the rules of the cycles, and never from what
//! a call answered.
#![tactic(auto)]

#[cfg(test)]
mod examples;
#[cfg(test)]
mod grooves;
#[cfg(test)]
mod holes;
#[cfg(test)]
mod refusals;
#[cfg(test)]
mod threads;
#[cfg(test)]
mod written;
