//! Tests of the parts of a run in threads: the seats of two paths at a table (seat_table), the line
//! from a worker to its drive (drive_line), both of one path (path_worker), and both paths at once
//! (lane_pair, turret_run).
//!
//! The answers that are expected are worked by hand from the rules of runs, and never from what a
//! run answered. No crate uses it.
#![tactic(auto)]

#[cfg(test)]
mod drains;
#[cfg(test)]
mod lines;
#[cfg(test)]
mod pairs;
#[cfg(test)]
mod seats;
#[cfg(test)]
mod workers;
