//! Canned cycles in the rows of block_rows.rt: where they end, their moves, and the end that they
//! keep.
ghost use Rattle.std.specs.Prelude.{IfSome};
ghost use Rattle.nc_number.specs.Position.{IsPosition};
ghost use Rattle.motion_track.specs.Block.{IsBlockWithin};

use crate::move_text::{are_moves, is_alarm, is_reached};
use crate::words::position;
use code_tables::CodeKind;
use motion_track::{BlockMotion, LONGEST};
use nc_number::Point;
use turn_cycles::{CycleKind, cycle, cycle_end, cycle_pass};

/// The cycle of a code, if it has one.
fn cycle_of(code: &str) -> Option<CycleKind> {
    CycleKind::of(match code {
        "G90" => CodeKind::CycleTurn,
        "G92" => CodeKind::CycleThread,
        "G94" => CodeKind::CycleFace,
        _ => CodeKind::Thread,
    })
}

/// Whether a block with the cycle has these moves and keeps this end.
fn passes(kind: CycleKind, kept: Option<Point>, block: &BlockMotion, wanted: &str) -> bool
    requires kept { IfSome kept IsPosition }
    requires block { IsBlockWithin LONGEST block.now }
{
    match cycle_pass(kind, kept, block) {
        Ok(pass) => {
            let (moves, end) = wanted.split_once("; keeps ").unwrap_or((wanted, ""));
            are_moves(pass.moves.as_slice(), moves) && pass.kept == position(end)
        }
        Err(fault) => is_alarm(fault.number, wanted),
    }
}

/// Whether the cycle from the block's start to this end has these moves.
fn goes_round(kind: CycleKind, block: &BlockMotion, end: Point, wanted: &str) -> bool {
    match cycle(kind, block.start, end, block.feed, block.per_rev) {
        Ok(moves) => are_moves(&moves, wanted),
        Err(fault) => is_alarm(fault.number, wanted),
    }
}

/// Whether a call with a cycle, `G90` or `G90 kept X40. Z-20.`, answers what is wanted.
pub(crate) fn cycle_holds(
    call: &str,
    code: &str,
    block: &BlockMotion,
    to: Point,
    wanted: &str,
) -> bool
    requires { IsBlockWithin LONGEST block.now }
{
    let (code, kept) = code.split_once(" kept ").unwrap_or((code, ""));
    let kept = position(kept);
    let Some(kind) = cycle_of(code) else {
        return wanted == "no cycle";
    };
    match call {
        "round" => goes_round(kind, block, to, wanted),
        "end" => is_reached(
            cycle_end(block.start, kept, block.shift, block.x, block.z),
            wanted,
        ),
        _ => passes(kind, kept, block, wanted),
    }
}
