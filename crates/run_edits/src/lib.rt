//! An operator's edits, made in a run that was recovered: a record for each of them, all of them
//! written as one batch.
//!
//! [`has_room`] tells whether the settings allow so many records more. [`make_edits`] takes all its
//! memory first, raises a journal of version 1, has the machine make the record of each edit, and
//! writes the records at once. The layer above leans on this: a crash at any moment leaves the run
//! as it was found, or the run and all edits behind it, and after an Ok it is the latter.
#![tactic(auto)]

mod making;

pub use making::{Made, has_room, make_edits};
