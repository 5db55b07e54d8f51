//! What the forms of corners and of the tool's nose share: where a line begins, where it ends by both
//! ends or by one of them and its angle (`,A`), and words that say a thing twice.
#![tactic(auto)]

mod angle;
mod angled;
mod places;
mod twice;

pub use angled::{angle_cause, end_cause, line_end};
pub use places::{LINE_CODE, RAPID_CODE, begin_of, position_of};
pub use twice::twice_of;
