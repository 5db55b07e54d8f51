//! The words of the command line.
//!
//! The commands of the program stand in one list of rows: a command's name, what its words are
//! called, the options that it takes, and what it asks for. The grammar in `specs/` says by these rows
//! which command any words give. A further command is a row and the arm that makes it.
#![tactic(auto)]

mod command;
mod fault;
mod journal;
mod laws;
mod making;
mod number;
mod option_texts;
mod table;

pub use command::{Command, Name, ProgramRange, TurretFiles};
pub use fault::WordsFault;
pub use journal::{Journal, journal_of};
pub use making::{DEFAULT_BLOCKS, LAST_MADE, LAST_PROGRAM, MOST_TO_RUN, command_of};
pub use option_texts::OptionTexts;
pub use table::{Row, Task, row_named, rows, takes_option};

// For users of the library: laws that no crate of the program takes.
pub use laws::{law_of_names, law_of_options, law_of_rows};
