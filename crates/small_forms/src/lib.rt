//! Small forms of a shop's program, each of one block: several M codes; words that change nothing
//! here; G31, which is a cut; and what is refused by a cause of its own.
#![tactic(auto)]

mod codes;
mod foreign;
mod idle;

pub use codes::codes_form;
pub use foreign::foreign_form;
