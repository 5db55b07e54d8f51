//! Tests of zone_cell: texts of zones, and what they make of an area of path 1 from X1. Z3. to X2.
//! Z4. and one of path 2 from X11. Z13. to X12. Z14.
use crate::row::lines_of;
use nc_number::{Both, Failing, Point};
use std::alloc::Global;
use std::test::Fail;
use text_pieces::Piece;
use zone_area::Area;
use zone_cell::{Zones, read_zones, zone_line};

/// A text, in which `~` stands for the end of a line, and the line that is refused, or the line of
/// the two areas.
const ROWS: &str = "\
|0 X1.000 X2.000 Z3.000 Z4.000 X11.000 X12.000 Z13.000 Z14.000 clear
mirror 1~|0 X-2.000 X-1.000 Z3.000 Z4.000 X11.000 X12.000 Z13.000 Z14.000 clear
mirror 2~|0 X1.000 X2.000 Z3.000 Z4.000 X-12.000 X-11.000 Z13.000 Z14.000 clear
mirror 1~mirror 1~|0 X-2.000 X-1.000 Z3.000 Z4.000 X11.000 X12.000 Z13.000 Z14.000 clear
frame 1 X100. Z-100.~|0 X101.000 X102.000 Z-97.000 Z-96.000 X11.000 X12.000 Z13.000 Z14.000 clear
frame 2 X-10. Z-10.~|0 X1.000 X2.000 Z3.000 Z4.000 X1.000 X2.000 Z3.000 Z4.000 hit
mirror 2~frame 2 X13. Z-10.~|0 X1.000 X2.000 Z3.000 Z4.000 X1.000 X2.000 Z3.000 Z4.000 hit
frame 1 X1. Z1.~mirror 1~|0 X-1.000 X0.000 Z4.000 Z5.000 X11.000 X12.000 Z13.000 Z14.000 clear
frame 2 X-10. Z-10.~frame 2 X0 Z0~|0 X1.000 X2.000 Z3.000 Z4.000 X11.000 X12.000 Z13.000 Z14.000 clear
frame 2 X-9. Z-10.~|0 X1.000 X2.000 Z3.000 Z4.000 X2.000 X3.000 Z3.000 Z4.000 hit
frame 2 X-8.999 Z-10.~|0 X1.000 X2.000 Z3.000 Z4.000 X2.001 X3.001 Z3.000 Z4.000 clear
gap X9. Z9.~|0 X1.000 X2.000 Z3.000 Z4.000 X11.000 X12.000 Z13.000 Z14.000 hit
gap X8.999 Z9.~|0 X1.000 X2.000 Z3.000 Z4.000 X11.000 X12.000 Z13.000 Z14.000 clear
gap X9. Z8.999~|0 X1.000 X2.000 Z3.000 Z4.000 X11.000 X12.000 Z13.000 Z14.000 clear
gap X9. Z9.~gap X1 Z1~|0 X1.000 X2.000 Z3.000 Z4.000 X11.000 X12.000 Z13.000 Z14.000 clear
gap X-0.0004 Z0~|0 X1.000 X2.000 Z3.000 Z4.000 X11.000 X12.000 Z13.000 Z14.000 clear
frame 1 X99999.9994 Z-99999.999~|0 X100000.999 X100001.999 Z-99996.999 Z-99995.999 X11.000 X12.000 Z13.000 Z14.000 clear
  mirror   1  \r~(a comment~  (another)~~|0 X-2.000 X-1.000 Z3.000 Z4.000 X11.000 X12.000 Z13.000 Z14.000 clear
gap X-0.0005 Z0~|line 1
gap X-1. Z0~|line 1
gap X0 Z-.001~|line 1
gap X0~|line 1
gap 1 X0 Z0~|line 1
gap Z0 X0~|line 1
mirror~|line 1
mirror 0~|line 1
mirror 3~|line 1
mirror 01~|line 1
mirror 1 2~|line 1
Mirror 1~|line 1
frame X1. Z1.~|line 1
frame 1 X1.~|line 1
frame 1 Z1. X1.~|line 1
frame 1 x1. Z1.~|line 1
frame 1 X1. Z1. Z1.~|line 1
frame 1 X100000. Z0~|line 1
frame 1 X99999.9995 Z0~|line 1
frame 1 X0 Z-99999.9995~|line 1
frame 1 X1.1234567 Z0~|line 1
place 1 X0 Z0~|line 1
mirror\t1~|line 1
mirror 1\r|line 1
mirror 1 (of path 1)~|line 1
mirror 1~~gap~frame~|line 3";

/// The area of path 1, in 0.001 mm.
const LEFT: Area = Area {
    low: Point { x: 1_000, z: 3_000 },
    high: Point { x: 2_000, z: 4_000 },
};

/// The area of path 2, in 0.001 mm.
const RIGHT: Area = Area {
    low: Point {
        x: 11_000,
        z: 13_000,
    },
    high: Point {
        x: 12_000,
        z: 14_000,
    },
};

/// Whether the zones make this line of the two areas.
fn gives(zones: &Zones, wanted: &str) -> bool {
    let areas = Both {
        one: LEFT,
        two: RIGHT,
    };
    let piece: Piece = zone_line(0, &zones.zone(&areas));
    match piece.as_slice() {
        [line @ .., b'\n'] => line == wanted.as_bytes(),
        _ => false,
    }
}

/// Whether this is the line that a row wants.
fn is_line(line: u32, wanted: &str) -> bool {
    match wanted.strip_prefix("line ") {
        Some(number) => u64::from(line) == number.parse().unwrap_or(u64::MAX),
        None => false,
    }
}

/// Whether the text of a row reads as the row says.
fn row_holds(alloc: Global, row: &str) -> Result<bool, Fail> {
    let (text, wanted) = row.split_once('|').unwrap_or((row, ""));
    let text = lines_of(alloc, text)?;
    if text.len() > 1_000 {
        return Ok(false);
    }
    Ok(match read_zones(alloc, text.as_slice()) {
        Ok(zones) => gives(&zones, wanted),
        Err(Failing::Fault(fault)) => is_line(fault.line, wanted),
        Err(Failing::NoMemory) => false,
    })
}

#[test]
fn what_a_text_of_zones_says(rt: HostRuntime) -> Result<(), Fail> {
    for row in ROWS.lines() {
        assert!(&rt; row_holds(rt.alloc(), row)?, "{row}");
    }
    Ok(())
}
