//! The words of the command line, read by `clap`.
//!
//! The rows of `command_words` are made into one `clap` command with one level of subcommands, and
//! `read_words` reads the program's words through it. A law says that what this command reads in any
//! words, as `clap`'s contracts have it, is what the listed grammar reads, so `read_words` promises
//! the command of that grammar.
#![tactic(auto)]

mod grammar;
mod law;
mod reading;

pub use grammar::program;
pub use reading::read_words;

// For users of the library: laws that no crate of the program takes.
pub use law::law_of_clap;
