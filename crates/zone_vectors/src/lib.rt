//! Tables of tests of zones: texts of frames, mirrors and gaps, and pairs whose paths may come to
//! one place or not.
//!
//! The answers that are expected are worked by hand from the rules of zones, and never from what a
//! call answered. No crate uses it.
#![tactic(auto)]

#[cfg(test)]
mod moves;
#[cfg(test)]
mod pairs;
#[cfg(test)]
mod row;
#[cfg(test)]
mod texts;
