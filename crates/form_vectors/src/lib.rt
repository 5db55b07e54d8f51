//! Tables of tests of the forms of threads, tapers, grooves and holes, and of G30: lines of a tape, where the tool
//! stands before them, and the lines in their place, or the line at fault and its cause. They test
//! `thread_form`, `taper_form`, `reference_form` and `peck_form`. No crate uses this one.
//!
//! The answers that are expected are worked by hand from the rules of the cycles, and never from
//! what a call answered.
#![tactic(auto)]

#[cfg(test)]
mod choices;
#[cfg(test)]
mod holes;
#[cfg(test)]
mod reading;
#[cfg(test)]
mod refusals;
#[cfg(test)]
mod tapers;
#[cfg(test)]
mod threads;
