//! What is due to the text of one tape, its settings and a question: the tape with its roughing
//! cycles written out (`expand`), or in the language that the control runs (`plain`). For callers
//! and for commands, over texts in memory, with no file.
//!
//! [`tell_tape`] writes the text that is due to a sink and gives its status: a command that has
//! fetched its files answers so. [`answer_tape`] hands the front of the same into a caller's room,
//! and tells how long the whole is.
#![tactic(auto)]

mod answering;
mod expanding;
mod plaining;
mod question;
mod tape_texts;

pub use answering::{answer_tape, tell_tape};
pub use question::TapeQuestion;
pub use tape_texts::TapeTexts;
