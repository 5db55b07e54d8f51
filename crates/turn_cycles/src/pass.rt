//! A whole block with a canned cycle: its moves, and the end that it keeps for the next block.
//! Lengths are in 0.001 mm.
ghost use Rattle.std.specs.Prelude.{◌≡◌, ◌≤◌, length, IfOk, IfSome};
ghost use Rattle.nc_number.specs.Position.{IsPosition};
ghost use Rattle.motion_track.specs.Block.{IsBlockWithin};
ghost use Rattle.motion_track.specs.Within.{AreMovesWithin};
ghost use Rattle.turn_cycles.specs.Pass.{pass_of};

use crate::end::cycle_end;
use crate::rectangle::{CycleKind, cycle};
use motion_track::{BlockMotion, LONGEST, MotionFault};
use nc_moves::MoveList;
use nc_number::Point;

/// What a block with a cycle does.
#[derive(Debug, Drop)]
pub struct CyclePass {
    /// The cycle's moves; none where the block names no axis.
    pub moves: MoveList,
    /// The end that the next block with the same cycle takes for an axis that it does not name.
    pub kept: Option<Point>,
}

/// A block with a cycle, where `kept` is the end of the block before if the same cycle was in force
/// in it.
///
/// A block that names no axis has no move, no alarm, and leaves the kept end. Else alarm 41 exactly
/// where the end is past 99,999.999 mm, and then 44 exactly where the feed is 0.
pub fn cycle_pass(
    kind: CycleKind,
    kept: Option<Point>,
    block: &BlockMotion,
) -> Result<CyclePass, MotionFault>
    requires kept { IfSome kept IsPosition }
    requires block { IsBlockWithin LONGEST block.now }
    ensures pass { result ≡ pass_of kind kept block.now }
    ensures few { IfOk result (λ pass. length pass.moves ≤ 4) }
    ensures within { IsPosition block.now.start → IfOk result (λ pass. AreMovesWithin LONGEST pass.moves) }
    ensures kept { IfOk result (λ pass. IfSome pass.kept IsPosition) }
{
    let mut moves = MoveList::empty();
    if !block.names_axis() {
        return Ok(CyclePass { moves, kept });
    }
    let end = cycle_end(block.start, kept, block.shift, block.x, block.z)?;
    let round = cycle(kind, block.start, end, block.feed, block.per_rev)?;
    moves.append(&round);
    Ok(CyclePass {
        moves,
        kept: Some(end),
    })
}
