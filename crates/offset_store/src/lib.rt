//! The offsets of a path: seven work offsets, and geometry and wear for 64 tool offsets.
//!
//! The shift between machine and programmed coordinates is the sum of the external offset, the work
//! offset in force, and the geometry and wear of the tool offset in force. To change an offset moves
//! nothing by itself. The layer above leans on `Offsets::shift`, which is exactly that sum, and on a
//! decision in three parts: `Slot::named` says which offset G10 names, `Offsets::changed` what its
//! words make of it, each with its alarm exactly where it must come, and `Offsets::put` can't fail.
#![tactic(auto)]

mod change;
mod fault;
mod list;
mod number;
mod offset;
mod offsets;
mod slot;

pub use fault::OffsetFault;
pub use number::{LAST_WORK, ToolNumber, WorkNumber};
pub use offset::Offset;
pub use offsets::Offsets;
pub use slot::{OffsetForm, Slot};
