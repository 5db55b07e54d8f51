//! The command of the program, over a shelf of files, a disk for the journal and a second one, a
//! turret for each path, and a sink for its text.
//!
//! [`top`] reads the words, does what they say, writes the answer and gives the status. `verify`,
//! `waits`, `races`, `trace`, `expand`, `plain`, and `zones` with a pair, answer over files alone.
//! `run` begins a journal on the disk and runs both paths at once, each with its turret, and
//! `resume` goes on with the run that the journal holds; both end with the report of all its
//! records. `make` runs a made pair, and ends with a summary if both paths have ended, and else with
//! the report. `edit` makes an operator's edits in the run that the journal holds. `branch` writes
//! that run up to a meeting onto the second disk, which no other command calls. `moves`, `state`,
//! and `zones` without a pair, show what the journal holds, and write nothing to it. Each turret
//! gets its place and then the moves of its path's records that the call made.
//!
//! [`look_or_edit`] does the same for words that make no run. It takes no threads, and it always
//! returns.
#![tactic(auto)]

mod beginning;
mod branching;
mod control;
mod editing;
mod going;
mod held;
mod laws;
mod locking;
mod looking;
mod making;
mod outcome;
mod refusing;
mod resuming;
mod returning;
mod stream_laws;
mod telling;

pub use control::top;
pub use outcome::Outcome;

// For users of the library: the call for words that make no run, which always returns.
pub use returning::{look_or_edit, makes_run};

// For users of the library: laws that no crate of the program takes.
pub use laws::{
    a_call_leaves_as_its_kind_may, a_session_hands_eight_moves_a_record_at_most,
    a_stop_leaves_one_history, calls_make_one_history,
};
pub use locking::a_command_uses_the_journal_as_its_kind_does;
pub use stream_laws::a_stream_has_the_reports_lines;
