//! What the program's commands answer that only look: they ask what is due to the texts of a
//! shelf's files, or show what the journal on a disk holds, and write nothing but their text.
//!
//! [`ask`] answers a question of crate `lathe_calls` over the files of a pair: `verify`, `waits`,
//! `races` and `trace`. [`expand`] writes a tape with its roughing cycles as plain blocks, [`plain`]
//! a shop's tape in the language that the control runs. [`show`] writes a text of the run whose
//! journal the disk has, [`show_zones`] what a file that [`plan_of_file`] reads asks of it, and
//! [`ask_zones`] what one asks of the run of the files of a pair; [`edits_of_file`] reads the file
//! of `edit`. No function here starts a thread or waits: each call returns. What running a pair has
//! in common with looking stands here too: the texts of files, and why there is no run to go on
//! with.
#![tactic(auto)]

mod asking;
mod editing;
mod expanding;
mod fetching;
mod files;
mod laws;
mod plaining;
mod refusing;
mod showing;
mod standing;
mod zoning;

pub use asking::ask;
pub use editing::edits_of_file;
pub use expanding::expand;
pub use fetching::{FileFault, Texts, Unfetched, fetch_texts, tell_unfetched};
pub use files::{CommandFile, FileNames};
pub use plaining::plain;
pub use refusing::{tell_unfound, tell_usage};
pub use showing::{Showing, Shown, show};
pub use standing::{is_over, reason_of};
pub use zoning::{ask_zones, plan_of_file, show_zones};

// For users of the library: laws that no crate of the program takes.
pub use laws::the_program_answers_what_the_library_answers;
