//! A drive line, made and put together again: `Line::new` gives its two ends, `close_line` tells
//! what came through.
ghost use Rattle.std.specs.Prelude.{◌≡◌, ◌<◌, ℕ, List, false, [], ◌++◌, All, IfOk, IsTrue};
ghost use Rattle.nc_outside.specs.declared.lined_move.LinedMove.{LinedMove};
ghost use Rattle.drive_line.specs.declared.item.Item.{Item as Sent};
ghost use Rattle.drive_line.specs.Line.{moves_among, mark_counts, has_end, AreTaken};

use crate::wire::{close_wire, new_wire};
use crate::{Item, LineIn, LineOut};
use nc_number::NoMemory;
use nc_outside::Turret;
use std::alloc::Global;

/// A line from a worker to the drive of a turret. There is no value of it: it is made of its two
/// ends.
pub struct Line;

impl Line {
    /// The two ends of a new line, along which nothing went yet. It holds at most `bound` items.
    pub fn new<T: Turret>(alloc: Global, bound: usize) -> Result<(LineIn, LineOut<T>), NoMemory>
        requires { 0 < bound }
        ensures one { IfOk result (λ r. r.0.line ≡ r.1.line) }
        ensures sending { IfOk result (λ r. (r.0.items ≡ []) × (r.0.received ≡ [])) }
        ensures taking { IfOk result (λ r. (r.1.items ≡ []) × (r.1.asked ≡ false)) }
        ensures bound { IfOk result (λ r. (r.0.line.forth.bound ≡ bound) × (r.0.line.back.bound ≡ bound)) }
    {
        let (to_drive, from_worker) = new_wire::<Item>(alloc, bound)?;
        let (to_worker, from_drive) = new_wire::<u64>(alloc, bound)?;
        let sending = LineIn::over(to_drive, from_drive);
        let taking = LineOut::over(from_worker, to_worker);
        Ok((sending, taking))
    }
}

/// Puts the two ends of a line together, and answers whether the end was taken. What was taken is a
/// beginning of what was sent, the answers received are a beginning of those given, and what was
/// sent before a drain that returned was taken.
pub fn close_line<T: Turret>(sending: LineIn, taking: LineOut<T>) -> bool
    requires { sending.line ≡ taking.line }
    ensures items { (rest : List Sent) × (sending.items ≡ taking.items ++ rest) }
    ensures moves { (rest : List LinedMove)
        × (moves_among sending.items ≡ moves_among taking.items ++ rest) }
    ensures received { (rest : List ℕ) × (mark_counts 0 taking.items ≡ sending.received ++ rest) }
    ensures drained { All (AreTaken sending.items taking.items) (mark_counts 0 sending.items) }
    ensures ended { result ≡ has_end taking.items }
    ensures whole { IsTrue result → taking.items ≡ sending.items }
{
    let (to_drive, from_drive) = sending.into_wires();
    let (from_worker, to_worker, ended) = taking.into_wires();
    close_wire(to_drive, from_worker);
    close_wire(to_worker, from_drive);
    ended
}
