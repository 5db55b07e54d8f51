//! The seats of two paths at one table, without a lock.
//!
//! A path steps in its turn: its seat takes the table out of its place, lets it do one step, and
//! puts it back. A path that waits sleeps until its wait is over. Each seat lists what its steps
//! answered for the turret of its path, moves and rests in order (its tellings), and the layer above
//! leans on this: while nobody has the turn, the list of a path's seat is that of the table's
//! tellings of the path, and `close` gives the table back with both lists. A step takes no memory. A
//! stepper over a seat tells its calls too, and what they answered is what is listed. A table takes
//! its turns here, and the seats are given to threads.
#![tactic(auto)]

mod knowing;
mod seats;
mod shelf;
mod stepper;
mod taking;
mod turning;

pub use seats::{HaltPass, SeatPass, SeatTable, Seated};
pub use turning::Turns;

// For users of the library: the names of what `stepper` and `halter` give.
pub use stepper::{HaltStepper, SeatStepper};
