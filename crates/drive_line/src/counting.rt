//! Counts of moves that never wrap: past 2^64 - 1 a call does not return.
//! For line_in.rt, line_out.rt and driven.rt of this crate.
ghost use Rattle.std.specs.Prelude.{◌≡◌, ◌+◌};

use std::sync::Wait;

/// One more. Past the last number it does not return.
pub(crate) fn next_count<R: Wait>(rt: &R, count: u64) -> u64
    ensures { result ≡ count + 1 }
{
    for _ in rt.forever() {
        if let Some(next) = count.checked_add(1) {
            return next;
        }
    }
    unreachable!()
}
