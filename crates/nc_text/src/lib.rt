//! The text of a tape, read into blocks.
//!
//! `Reader` takes the bytes of a tape in any pieces, and answers with its programs and blocks or
//! with the one refusal and its line.
#![tactic(auto)]

mod fault;
mod feed;
mod going_back;
mod line_feed;
mod mark;
mod open_line;
mod programs;
mod progress;
mod reader;
mod stage;
mod step;
mod tape;

pub use fault::TextFault;
pub use line_text::{Body, Piece, Reading, Refusal, Said, SaidBlock, Sign, Word, WordList};
pub use reader::Reader;
pub use tape::{Block, BlockList, Program, Tape};
