//! The forms of grooves and holes as plain blocks: G74 and G75 in one line or two, and G83 to G89
//! with the blocks after them that are holes. A block with one of these codes is of this form: it is
//! written out, with the lines after it that are, or refused with its cause.
#![tactic(auto)]

mod answers;
mod form;
mod groove;
mod hole;
mod kind;
mod law;
mod run;
mod turns;

pub use form::peck_form;

// For users of the library: what no crate of the program takes.
pub use law::{a_written_groove_is_safe, written_holes_are_safe};
