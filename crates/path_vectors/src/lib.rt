//! Tests of the crates path_state and block_values, most of them tables: what single blocks and
//! whole tapes do to one path, and the two tapes of a shop's pair, each run by its path alone.
//! Nothing is built from this crate and no crate uses it.
//!
//! The answers that are expected stem from the rules of tapes and of the control, and never from
//! what the path answered.
#![tactic(auto)]

#[cfg(test)]
mod block_parts;
#[cfg(test)]
mod block_rows;
#[cfg(test)]
mod lone_path;
#[cfg(test)]
mod move_text;
#[cfg(test)]
mod path_rows;
#[cfg(test)]
mod system_rows;
