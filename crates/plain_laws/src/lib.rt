//! The laws that the text which `plain` writes reads as what became of the tape, and is written as
//! itself if it is written out again. For users of the library: no other crate takes them.
#![tactic(auto)]

mod laws;

pub use laws::{plain_is_idempotent, what_plain_writes_reads};
