//! Tests of the races of pairs (race_report), as tables with a row for each pair: small pairs, and
//! made ones.
//!
//! The lists that are expected are worked by hand from what parts and races are, and never from
//! what the program answered. No crate uses it.
#![tactic(auto)]

#[cfg(test)]
mod listing;
#[cfg(test)]
mod made;
#[cfg(test)]
mod rows;
