//! The variables of the lathe: what each number names, and the common variables.
//!
//! [`variable_of`] is the table of numbers. [`Own`] holds the common variables of one path.
//! [`Shared`] holds those that both paths share, and keeps every write with the number of records at
//! it, so that each variable's value after any number of records can be told: contracts see it as
//! the list of its writes.

#![tactic(auto)]

mod links;
mod number;
mod own;
mod shared;
mod variable;

pub use links::Write;
pub use number::CommonNumber;
pub use own::Own;
pub use shared::Shared;
pub use variable::{AxisLetter, Variable, a_variable_has_one_number, variable_of};

// For users of the library: what no crate of the program takes.
pub use own::is_common;
pub use shared::{
    a_write_is_seen_from_its_stamp_on, is_shared, later_writes_change_no_earlier_value,
    nothing_changes_behind_the_last_write,
};
