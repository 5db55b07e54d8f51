//! Tests of restarts, as tables with a row for each: what is found in a journal, byte for byte, and
//! what a restart comes to. A journal in batches is stopped after chosen calls of its disk. A
//! history that an operator edits is cut after its records, in both versions of a journal.
//!
//! The histories that are expected are worked out from the rules of turns, and never from what a
//! run recorded. No crate uses it.
#![tactic(auto)]

#[cfg(test)]
mod batch_rows;
#[cfg(test)]
mod edit_rows;
#[cfg(test)]
mod journal_rows;
#[cfg(test)]
mod record_text;
#[cfg(test)]
mod run;
#[cfg(test)]
mod step_rows;
#[cfg(test)]
mod step_text;
#[cfg(test)]
mod texts;
#[cfg(test)]
mod turns;
