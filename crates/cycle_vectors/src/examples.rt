//! The manual's example of a thread, and whether a thread's blocks are those of a text.
ghost use Rattle.std.specs.Prelude.{◌≡◌, None};
ghost use Rattle.thread_cycle.specs.Faults.{pass_fault_of};

use crate::written::{lead, text_of};
use nc_number::Point;
use std::alloc::{AllocError, Global};
use thread_cycle::{RootRounding, ThreadCycle, TipAngle};

/// The cycle of the manual's example: P011060 Q100 R200, X60.64 Z25. P3680 Q1800 F6. from X80. Z130.
pub(crate) fn example() -> ThreadCycle {
    ThreadCycle {
        start: Point {
            x: 80_000,
            z: 130_000,
        },
        target: Point {
            x: 60_640,
            z: 25_000,
        },
        taper: 0,
        depth: 3_680,
        first: 1_800,
        least: 100,
        left: 200,
        finishing: 1,
        pull_out: 10,
        tip: TipAngle::Degrees60,
        rounding: RootRounding::Down,
        lead: lead(6),
    }
}

/// The same in one cut, and then at the whole depth, which is that cut's.
pub(crate) fn in_one_cut() -> ThreadCycle {
    let mut cycle = example();
    cycle.first = 3_680;
    cycle.left = 0;
    cycle
}

/// Whether the cycle's blocks, a text each, are these.
pub(crate) fn has_blocks(
    alloc: Global,
    cycle: &ThreadCycle,
    wanted: &str,
) -> Result<bool, AllocError> {
    match cycle.pass_fault() {
        Some(_) => Ok(false),
        None => {
            let text = blocks_text(alloc, cycle)?;
            Ok(text.as_str() == wanted)
        }
    }
}

/// The text of the blocks of a cycle whose passes have no fault.
fn blocks_text(alloc: Global, cycle: &ThreadCycle) -> Result<String, AllocError>
    requires { pass_fault_of cycle.now ≡ None }
{
    let blocks = cycle.blocks(alloc)?;
    text_of(alloc, blocks)
}
