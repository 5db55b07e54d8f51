//! Tests of corners.
ghost use Rattle.std.specs.Prelude.{◌≡◌};
ghost use Rattle.corner_form.specs.Cuts.{IsCornerOf};

use crate::numbers::{number_at, numbers};
use corner_form::{Corner, CornerBlocks, CornerFault, CornerKind, corner_blocks};
use nc_number::Point;
use plain_block::{ArcCentre, Course, PlainBlock};
use std::alloc::{AllocError, Global};
use std::test::Fail;

/// Rows: the kind, its size, the points before, at and after the corner, and what is written: the
/// corner's start and end, and of an arc G02 or G03, I and K. All in 0.001 mm, X a diameter, I a
/// radius value.
const ROWS: &str = "\
C 1000 0 0 40000 0 40000 -30000 = 38000 0 40000 -1000
R 2000 0 0 40000 0 40000 -30000 = 36000 0 40000 -2000 3 0 -2000
C 1500 40000 0 40000 -30000 60000 -30000 = 40000 -28500 43000 -30000
R 3000 40000 0 40000 -30000 60000 -30000 = 40000 -27000 46000 -30000 2 3000 0
C 2000 50000 -40000 50000 -10000 30000 -10000 = 50000 -12000 46000 -10000
R 2500 50000 -40000 50000 -10000 30000 -10000 = 50000 -12500 45000 -10000 2 -2500 0
C 500 30000 -40000 30000 -10000 50000 -10000 = 30000 -10500 31000 -10000
R 1000 30000 -40000 30000 -10000 50000 -10000 = 30000 -11000 32000 -10000 3 1000 0
C 1000 50000 -10000 30000 -10000 30000 -40000 = 32000 -10000 30000 -11000
R 1000 50000 -10000 30000 -10000 30000 -40000 = 32000 -10000 30000 -11000 2 0 -1000
C 750 50000 -40000 30000 -40000 30000 -10000 = 31500 -40000 30000 -39250
R 1000 50000 -40000 30000 -40000 30000 -10000 = 32000 -40000 30000 -39000 3 0 1000
C 1000 30000 -40000 50000 -40000 50000 -10000 = 48000 -40000 50000 -39000
R 1000 30000 -40000 50000 -40000 50000 -10000 = 48000 -40000 50000 -39000 2 0 1000
R 400 40001 0 40001 -30003 60001 -30003 = 40001 -29603 40801 -30003 2 400 0
C 10000 20000 0 40000 0 40000 -10000 = 20000 0 40000 -10000
C 10001 20000 0 40000 0 40000 -10000 = long
R 10000 20000 0 40000 0 40000 -10000 = 20000 0 40000 -10000 3 0 -10000
R 10001 20000 0 40000 0 40000 -20000 = long
R 10001 10000 0 40000 0 40000 -10000 = long
C 2000 40000 0 40000 -20000 60000 -30000 = 40000 -18000 42828 -21414
R 2000 40000 0 40000 -20000 60000 -30000 = 40000 -19172 41172 -20586 2 2000 0
R 5000 20000 0 40000 -10000 40000 -40000 = 37070 -8535 40000 -12071 3 -3535 -3536
C 2000 40000 0 40000 -20000 60000 -10000 = 40000 -18000 42828 -18586
R 2000 40000 0 40000 -20000 60000 -10000 = 40000 -15172 46828 -16586 2 2000 0
C 5000 30000 0 30000 -10000 36000 -14000 = 30000 -5000 36000 -14000
R 3000 30000 0 30000 -10000 36000 -14000 = 30000 -9000 31200 -10800 2 3000 0
R 3000 30000 0 30000 -10000 24000 -14000 = 30000 -9000 28800 -10800 3 -3000 0
R 3000 30000 -9001 30000 -10000 36000 -14000 = long
R 3000 30000 -9000 30000 -10000 36000 -14000 = 30000 -9000 31200 -10800 2 3000 0
C 1000 30000 0 30000 -10000 30000 -20000 = no turn
R 1000 30000 0 30000 -10000 30000 -5000 = no turn
R 1000 30000 0 30000 0 40000 -5000 = no turn
C 1000 30000 0 40000 -5000 40000 -5000 = no turn
R 1000001 0 0 40000 0 40000 -30000 = large
";

/// A point of a row.
fn point_of(all: &[i64], place: usize) -> Point {
    Point {
        x: number_at(all, place),
        z: number_at(all, place.saturating_add(1)),
    }
}

/// The words of a corner's fault.
fn fault_text(fault: CornerFault) -> &'static str {
    match fault {
        CornerFault::TooLarge => "large",
        CornerFault::NoTurn => "no turn",
        CornerFault::TooLong => "long",
        CornerFault::Inexact => "inexact",
    }
}

/// The words of a block: where it leads, and how it gets there, if by an arc.
fn block_text(alloc: Global, block: &PlainBlock) -> Result<String, AllocError> {
    match *block {
        PlainBlock::Move { course, x, z } => {
            let to = format!(in alloc; "{} {}", x.unwrap_or(0), z.unwrap_or(0))?;
            match course {
                Course::Arc { clockwise, centre } => {
                    let code = if clockwise { 2 } else { 3 };
                    match centre {
                        ArcCentre::Offset { i, k } => format!(in alloc; "{to} {code} {i} {k}"),
                        ArcCentre::Radius { r } => format!(in alloc; "{to} {code} {r}"),
                    }
                }
                _ => Ok(to),
            }
        }
        PlainBlock::Dwell { ms } => format!(in alloc; "{ms}"),
    }
}

/// What is written of a corner.
fn corner_text(alloc: Global, corner: &Corner) -> Result<String, AllocError> {
    if !(corner.from.is_position() && corner.at.is_position() && corner.to.is_position()) {
        return format!(in alloc; "far");
    }
    match corner_blocks(corner) {
        Err(fault) => format!(in alloc; "{}", fault_text(fault)),
        Ok(blocks) => {
            let first = block_text(alloc, &blocks.first)?;
            let second = block_text(alloc, &blocks.second)?;
            format!(in alloc; "{first} {second}")
        }
    }
}

/// Whether a row is so.
fn is_so(alloc: Global, row: &str) -> Result<bool, AllocError> {
    let (asked, wanted) = row.split_once(" = ").unwrap_or((row, ""));
    let all = numbers(alloc, asked)?;
    let kind = if row.starts_with("C") {
        CornerKind::Chamfer
    } else {
        CornerKind::Rounding
    };
    let corner = Corner {
        from: point_of(&all, 2),
        at: point_of(&all, 4),
        to: point_of(&all, 6),
        kind,
        size: number_at(&all, 1).unsigned_abs(),
    };
    let text = corner_text(alloc, &corner)?;
    Ok(text.as_str() == wanted)
}

#[test]
fn each_corner_is_cut_by_its_numbers(rt: HostRuntime) -> Result<(), Fail> {
    for row in ROWS.lines() {
        assert!(rt; is_so(rt.alloc(), row)?, "{row}");
    }
    Ok(())
}
