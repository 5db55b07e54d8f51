//! What one line of a tape says.
//!
//! `read_line` takes the bytes of a line between the `%` lines, and answers with what it says
//! (nothing, an O number or a block), or with the least refusal of the line by itself. What stands
//! before the line, how long it may be and how many blocks a tape may have is not asked here.
#![tactic(auto)]

mod body;
mod cut;
mod front;
mod line;
mod line_buffer;
mod piece;
mod refusal;
mod said;
mod sign;
mod values;
mod words;

pub use body::{Body, Word, WordList};
pub use line::read_line;
pub use line_buffer::LineBuffer;
pub use piece::Piece;
pub use refusal::Refusal;
pub use said::{Reading, Said, SaidBlock};
pub use sign::Sign;
