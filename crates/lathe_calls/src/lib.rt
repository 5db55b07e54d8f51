//! What is due to three texts and a question, for programs that call and for the commands: over
//! texts in memory, with no thread, no file and no disk.
//!
//! [`tell`] writes the text that is due to a sink and gives its status: a command that has fetched
//! its files answers so. [`answer`] hands the same to a caller; [`events`] gives the events of a run
//! whose paths get their turns in an order that the caller gives. Both write the front of what they
//! have into the caller's room, leave what lies behind it as it was, and tell how long the whole is.
#![tactic(auto)]

mod answering;
mod ending;
mod event;
mod handing;
mod happening;
mod judging;
mod listing;
mod machine;
mod ordering;
mod pair_texts;
mod question;
mod racing;
mod running;
mod said;
mod text_sink;
mod waiting;
mod weighing;

pub use answering::{answer, tell};
pub use ending::{Status, reason_status, status_behind, write_text};
pub use event::{Event, Kind};
pub use handing::{hand_out, hand_text};
pub use happening::events;
pub use judging::refuse;
pub use pair_texts::{LONGEST_SETTINGS, PairTexts};
pub use question::Question;
pub use said::Said;
pub use text_sink::TextSink;
pub use weighing::{RefusedAs, Weighed, weigh};
