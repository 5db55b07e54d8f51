//! The lines of the settings that say what the machine decides of the forms that `plain` writes out.
//! They stand among the lines of the cell, and a line that says no such choice is one of those.
#![tactic(auto)]

mod cell;
mod choice;
mod choosing;
mod naming;

pub use cell::cell_text;
pub use choosing::read_choices;
