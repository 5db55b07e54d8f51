//! A drive line: from the worker of a path to the drive of its turret. It is bounded, so that a
//! worker that is far ahead waits, and first in, first out.
//!
//! The worker sends moves, that its path has ended, and the end, and can drain the line for a wait:
//! it sends a mark, and waits for the drive's answer to that. The drive takes these one by one, and answers a mark only with its turret
//! (`Driven`): that stands still behind every move that was taken, or it failed and the run was
//! halted. Each end means what went through it. `close_line` puts both ends together: what was taken
//! is a beginning of what was sent, in order, each once, all of it where the end was taken, and
//! every move that was sent before a drain that returned was taken. A call that waits sleeps; each
//! promises what it says if it returns.
#![tactic(auto)]

mod counting;
mod driven;
mod item;
mod line;
mod line_in;
mod line_out;
mod phase;
mod wire;

pub use driven::Driven;
pub use item::Item;
pub use line::{Line, close_line};
pub use line_in::{Drained, LineIn};
pub use line_out::LineOut;
pub use phase::Phase;
pub use wire::{WireIn, WireOut, close_wire, new_wire};
