//! The outside of a lathe: where tapes and other texts come from (`Shelf`), where reports go
//! (`Sink`), who takes the moves of a path (`Turret`), and what gives a path its steps (`Stepper`).
//!
//! An object of the outside has one state for contracts: what it holds or got, if it tells that, and
//! its count of faults. It answers that it failed only if that count rose, so that the layers above
//! can say of every failure that the outside was its cause; a call that did not fail leaves the
//! count as it was. A shelf tells what it was asked for. A turret may queue what it gets, and
//! `settle` waits until it stands still; it tells the turret where its path rests (`Rest`), and
//! what a turret got has the rests and the moves in order. A stepper tells its calls: its steps with their answers,
//! its drains and its halts. The forms in memory (`MemoryShelf`, `VecSink`, `MemoryTurret`,
//! `ListStepper`) tell all, and fail exactly as planned; if an object tells nothing, as a real file,
//! no clause speaks of what it holds.
#![tactic(auto)]

mod asked;
mod drain;
mod got;
mod halt;
mod laws;
mod lined_move;
mod list_stepper;
mod memory_shelf;
mod memory_turret;
mod plan;
mod reason;
mod rest;
mod shelf;
mod sink;
mod stepper;
mod turret;
mod vec_sink;

pub use drain::Drain;
pub use got::Got;
pub use halt::{Halt, Next};
pub use lined_move::LinedMove;
pub use list_stepper::ListStepper;
pub use memory_shelf::MemoryShelf;
pub use memory_turret::MemoryTurret;
pub use nc_number::Failed;
pub use reason::Reason;
pub use rest::Rest;
pub use shelf::{FetchFault, Shelf};
pub use sink::{PutFault, Sink};
pub use stepper::{Call, Drainable, Stepper};
pub use turret::Turret;
pub use vec_sink::VecSink;

// For users of the library: laws that no crate of the program takes.
pub use laws::calls_add_up;
