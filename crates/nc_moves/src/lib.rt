//! What a block asks a turret to do (`Move`), the moves of one block (`MoveList`, and with its line
//! `Moves`), and the alarm that ends a path (`Alarm`).
//!
//! Who takes them is said in the contracts of the outside.
#![tactic(auto)]

mod alarm;
mod motion;

pub use alarm::Alarm;
pub use motion::{Centre, MOVES_PER_BLOCK, Move, MoveList, Moves};
