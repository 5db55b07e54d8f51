//! Lines of a text with a statement that prints or writes a file (DPRNT, BPRNT, POPEN, PCLOS, SETVN), which
//! moves nothing: they are made comments.
#![tactic(auto)]

mod front;
mod lines;

pub use lines::without_outputs;
