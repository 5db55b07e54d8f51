//! The blocks of a corner.
ghost use Rattle.std.specs.Prelude.{◌≡◌};
ghost use Rattle.corner_form.specs.Cuts.{is_clockwise, chamfer_blocks, rounding_blocks, blocks_of, IsCornerOf};

use crate::chamfer::chamfer_of;
use crate::corner::{Corner, CornerBlocks, CornerEnds, CornerFault, CornerKind, RoundCorner};
use crate::rounding::rounding_of;
use plain_block::{ArcCentre, Course, PlainBlock};
use plane_ways::Side;

/// Whether an arc that turns to this side is clockwise.
fn is_clockwise(side: Side) -> bool
    ensures { result ≡ is_clockwise side }
{
    match side {
        Side::Left => false,
        Side::Right => true,
    }
}

/// The blocks of a chamfer.
fn chamfer_blocks(ends: &Result<CornerEnds, CornerFault>) -> Result<CornerBlocks, CornerFault>
    ensures { result ≡ chamfer_blocks ends.now }
{
    match ends {
        Err(fault) => Err(*fault),
        Ok(ends) => Ok(CornerBlocks {
            first: PlainBlock::straight_to(Course::Cut, &ends.start),
            second: PlainBlock::straight_to(Course::Cut, &ends.end),
        }),
    }
}

/// The blocks of a rounding.
fn rounding_blocks(round: &Result<RoundCorner, CornerFault>) -> Result<CornerBlocks, CornerFault>
    ensures { result ≡ rounding_blocks round.now }
{
    match round {
        Err(fault) => Err(*fault),
        Ok(round) => {
            let centre = ArcCentre::Offset {
                i: round.i,
                k: round.k,
            };
            let clockwise = is_clockwise(round.side);
            let arc = Course::Arc { clockwise, centre };
            Ok(CornerBlocks {
                first: PlainBlock::straight_to(Course::Cut, &round.ends.start),
                second: PlainBlock::straight_to(arc, &round.ends.end),
            })
        }
    }
}

/// The blocks that lead along a corner's first line and to its end on the second line, from which
/// the next block leads where it did; or why the corner can't be cut.
pub fn corner_blocks(corner: &Corner) -> Result<CornerBlocks, CornerFault>
    requires { IsCornerOf corner.now }
    ensures { result ≡ blocks_of corner.now }
{
    match corner.kind {
        CornerKind::Chamfer => chamfer_blocks(&chamfer_of(corner)),
        CornerKind::Rounding => rounding_blocks(&rounding_of(corner)),
    }
}
