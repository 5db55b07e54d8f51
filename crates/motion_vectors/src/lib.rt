//! Tables of tests of moves and of what they come from: the modal state and the offsets of a path,
//! the settings of the cell, the moves of a block and of a cycle, and the forms in memory of what
//! is outside the control. No crate uses it.
//!
//! The answers that are expected are worked by hand from the rules of the control, and never from
//! what a call answered. Most stand in texts with a row a line, in the words of a tape.
#![tactic(auto)]

#[cfg(test)]
mod answers;
#[cfg(test)]
mod block_rows;
#[cfg(test)]
mod cycles;
#[cfg(test)]
mod device_rows;
#[cfg(test)]
mod modal_rows;
#[cfg(test)]
mod move_text;
#[cfg(test)]
mod moves;
#[cfg(test)]
mod offset_rows;
#[cfg(test)]
mod setting_rows;
#[cfg(test)]
mod words;
