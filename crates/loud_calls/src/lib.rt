//! Calls of loud programs: those in which a path comes to a wait or an end, or that call such a
//! one.
//!
//! A reader of a whole path unfolds these calls, and makes its piece of each program once:
//! [`KnownPrograms`] keeps what was made, and [`unknown_call`] tells what is still to be made before
//! a block can be read.
#![tactic(auto)]

mod calling;
mod known;
mod unforked;

pub use calling::unknown_call;
pub use known::KnownPrograms;
pub use unforked::runs_have_one_list;

// For users of the library: what no crate of the program takes.
pub use calling::loud_call;
