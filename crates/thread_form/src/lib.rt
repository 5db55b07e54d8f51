//! The forms of threads: G76 in two lines and in one, and G92 (G78 in system B) with a taper, as
//! plain blocks. A block with one of these codes is of this form: it is written out, with the lines
//! after it that are, or refused with its cause.
#![tactic(auto)]

mod answers;
mod coded;
mod form;
mod law;
mod one_line;
mod rounding;
mod taper;
mod two_lines;

pub use form::thread_form;
pub use taper::{TaperSaid, TaperStep, begins_taper, letters_of, said_before};

// For users of the library: what no crate of the program takes.
pub use law::a_written_thread_is_clear;
