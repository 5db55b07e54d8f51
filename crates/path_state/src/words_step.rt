//! What the words of a block do to its path, as acting.rt decides it and taking.rt does it; their
//! moves stand in a list that was lent.
//! Other crates see it only within a [`Decision`](crate::Decision).

use crate::route::Route;
use block_values::Stop;
use modal_state::Modal;
use nc_number::Point;
use offset_store::Slot;

/// What the words of a block do to its path, but for where control goes.
#[derive(Drop)]
pub struct WordsStep {
    /// What is in force behind the block.
    pub(crate) modal: Modal,
    /// The offset that G10 sets, and its new value.
    pub(crate) offset: Option<(Slot, Point)>,
    /// Where the turret stands behind the block, in machine coordinates.
    pub(crate) position: Point,
}

/// What a block of words comes to that calls no macro.
#[derive(Drop)]
pub enum WordsTurn {
    /// The block must read first, or raises an alarm.
    Stops(Stop),
    /// The path is at a wait of this code.
    AtWait(u16),
    /// The path is at its end, behind these words.
    AtEnd(WordsStep),
    /// The words are done, and control goes on.
    Goes(WordsStep, Route),
}
