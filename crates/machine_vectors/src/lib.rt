//! Tables of tests of the machine of two paths: what its turns answer, what its edits set, that
//! each record is done again on a second machine with the same answer, and which records are
//! illegal.
//!
//! The answers that are expected stem from the rules of turns and of histories, and never from what
//! a machine answered. No crate uses this one.
#![tactic(auto)]

#[cfg(test)]
mod answer;
#[cfg(test)]
mod edit;
#[cfg(test)]
mod edit_rows;
#[cfg(test)]
mod edit_walk;
#[cfg(test)]
mod held;
#[cfg(test)]
mod pair;
#[cfg(test)]
mod record;
#[cfg(test)]
mod record_rows;
#[cfg(test)]
mod turn_rows;
#[cfg(test)]
mod walk;
