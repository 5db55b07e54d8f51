//! The loud program that a block calls, and whether its piece is still to be made. A program is loud
//! if it, or one that it calls, has a wait or an end. What a piece is, the reader says (known.rt).
ghost use Rattle.std.specs.Prelude.{ℕ, IfSome, IfNone};
ghost use Rattle.loud_calls.specs.Calls.{IsCallOf, IsReady};
ghost use Rattle.loud_calls.specs.Known.{piece_known};

use crate::known::KnownPrograms;
use block_order::{BlockOrder, Control};

/// The loud program that a block calls at least once.
pub fn loud_call(order: &BlockOrder, control: &Control) -> Option<u16>
    ensures some { IfSome result (IsCallOf order.now control.now) }
    ensures none { IfNone result ((program : ℕ) → IsCallOf order.now control.now program → ⊥) }
{
    match *control {
        Control::Call { program, repeats } => if repeats > 0 && order.is_loud(program) {
            Some(program)
        } else {
            None
        }
        _ => None,
    }
}

/// The loud program that a block calls at least once, if the piece of that program is still to be
/// made.
pub fn unknown_call<P: Drop>(
    order: &BlockOrder,
    known: &KnownPrograms<P>,
    control: &Control,
) -> Option<u16>
    ensures some { IfSome result (IsCallOf order.now control.now) }
    ensures none { IfNone result (IsReady order.now (piece_known known.now) control.now) }
{
    match loud_call(order, control) {
        Some(program) => match known.get(program) {
            Some(_) => None,
            None => Some(program),
        }
        None => None,
    }
}
