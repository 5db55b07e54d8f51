//! A shop's tape written out in the language that this control runs.
//!
//! `plain_tape` answers the text of the tape in which each line whose block is none of this
//! control's language gives way to plain blocks; all other lines stay byte for byte.
#![tactic(auto)]

mod again;
mod block_text;
mod comments;
mod draft;
mod fault;
mod law;
mod noting;
mod plain;
mod rules;

pub use fault::PlainTapeFault;
pub use plain::{plain_tape, plain_text};

// For users of the library: a law that no crate of the program takes.
pub use law::a_plain_tape_stays;
