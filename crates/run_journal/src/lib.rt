//! The journal of a run: records that are gathered in batches, and written as bodies after gates.
//!
//! The first body is the header of the run, and each other one is a batch of 1 to 64 records, or
//! the mark that raises a journal of version 1 to version 2: edits stand in version 2 alone.
//! [`Journal::flush`] writes all records that are to be written as one batch, so that a crash at
//! any moment leaves the records from before the call, or those and the whole batch. The layer
//! above leans on that, and on what [`open_journal`] gives: exactly the header and the records that
//! the file stands for, or the one reason why it stands for none. [`journal_bodies`] gives all
//! bodies of a journal at once.
#![tactic(auto)]

mod batch;
mod fault;
mod filling;
mod journal;
mod laws;
mod opening;
mod reading;

pub use fault::{JournalFault, JournalFull};
pub use filling::journal_bodies;
pub use journal::Journal;
pub use laws::{
    a_held_journal_is_small, a_held_journal_leaves_its_records, a_journal_stands_for_one_thing,
};
pub use nc_number::MOST_RECORDS;
pub use opening::{OffsetList, Opened, open_journal};
