//! Tables of tests of disks, gates, records, journals and branches: what each writes, byte by byte,
//! what a stop at each of its calls leaves, and why a file is refused.
//!
//! The bytes and the answers that are expected are worked by hand from the rules of the journal,
//! and never from what a call answered. No crate uses it.
#![tactic(auto)]

#[cfg(test)]
mod branches;
#[cfg(test)]
mod bytes;
#[cfg(test)]
mod devices;
#[cfg(test)]
mod disks;
#[cfg(test)]
mod gates;
#[cfg(test)]
mod image_rows;
#[cfg(test)]
mod journals;
#[cfg(test)]
mod records;
#[cfg(test)]
mod rows;
