//! A file of bodies behind gates, which a crash at any moment leaves whole.
//!
//! A body counts if its gate is open and its end, with the gate after it, is on the disk.
//! [`GateFile::append`] writes the body and a new shut gate after the shut one, syncs, opens the
//! gate by a write of one byte, and syncs again; so a crash leaves the bodies from before the call,
//! or those and the new one. [`GateFile::create`] begins a file so with its first body, and
//! [`GateFile::create_filled`] with many: the later ones stand after gates that are open before
//! the first is, so a crash leaves no run or all of them. The layer above leans on that, and on
//! what [`GateFile::open_file`] gives: exactly the bodies that the file spells.
#![tactic(auto)]

mod body_list;
mod create;
mod fault;
mod gate;
mod laws;
mod open;

pub use body_list::BodyList;
pub use fault::{DiskFault, GateFault};
pub use gate::{GateFile, LONGEST_BODY};
pub use laws::a_file_stands_for_one_thing;

// For users of the library: laws that no crate of the program takes.
pub use laws::{a_file_ends_behind_its_bodies, appends_leave_prefixes};
