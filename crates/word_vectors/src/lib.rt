//! Tests of the command line: words, with the commands that `read_words` of clap_reading must give.
//!
//! What is expected is written by hand from the grammar, and never taken from an answer. No crate
//! uses this one; a further command needs its rows here.
#![tactic(auto)]

#[cfg(test)]
mod words;
