//! The table of a run: the accepted pair, the machine, the history with its journal, and why it
//! stopped.
//!
//! A step is one turn of a path. Its record joins the history, and what the step shows to the
//! outside, as moves for a turret, is answered only once all records are on the disk. The machine is
//! the fold of the history at any time, and what a crash may leave stands for a prefix of it that
//! has all that was flushed. The layer above leans on that, whatever the disk.
#![tactic(auto)]

mod answer;
mod draining;
mod handing;
mod held;
mod laws;
mod recording;
mod resting;
mod stepping;
mod table;

pub use answer::{Parts, StepAnswer, TableStep};
pub use held::{Held, Opening};
pub use laws::{a_record_makes_seven_moves_at_most, a_table_opens_itself, a_taken_table_ended_so};
pub use resting::Resting;
pub use table::Table;

// For users of the library: laws that no crate of the program takes.
pub use laws::who_is_waited_for_goes_on;
