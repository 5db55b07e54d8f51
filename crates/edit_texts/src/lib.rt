//! The text of an operator's edits: the offsets and the common variables that are corrected before
//! a run goes on.
//!
//! [`read_edits`] reads a text of lines. Offsets are written as in the settings: `work`, `tool` and
//! `wear`; a variable is `var p v` and a number, or `vacant`. The layer above leans on this: the
//! text gives exactly the edits of its definition, in order, or the first line that is not allowed.
//! Each line is an edit, also if an earlier one sets the same.
#![tactic(auto)]

mod edit_list;
mod entry;
mod laws;
mod named;
mod reading;

pub use edit_list::{EditList, MOST_EDITS, PathEdit};
pub use reading::{EditFault, read_edits};

// For users of the library: laws that no crate of the program takes.
pub use laws::a_text_gives_the_edits_of_its_lines;
