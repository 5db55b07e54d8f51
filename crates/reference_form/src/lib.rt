//! The form of G30, the return to the second reference position, as a rapid to its intermediate point
//! and a rapid in machine coordinates.
#![tactic(auto)]

mod form;
mod lines;

pub use form::reference_form;
