//! Tests of zone_check by moves: pairs of tapes whose paths take turns (turn_order), and what is hit in
//! the segments of their runs.
use crate::row::{behind_moves, is_text, lines_of};
use nc_outside::VecSink;
use nc_verify::{Verified, verdict};
use std::alloc::Global;
use std::test::Fail;
use turn_order::records_in_turn;
use zone_cell::{Plan, read_plan};
use zone_check::{findings, write_end, write_findings};
use zone_moves::Cell;

/// `WHAT IT TRIES|TAPE OF PATH 1|TAPE OF PATH 2|SETTINGS|ZONES|TEXT`; the text is what
/// `write_findings` and `write_end` are to give. In each, `~` stands for the end of a line; the zones
/// begin with `by moves`, which is not written here.
const ROWS: &str = "\
two ends of a bar|%~O1~G00 X100. Z0.~G00 X20. Z0.~M30~%~|%~O1~G00 X80. Z80.~M30~%~|place 1 X100. Z100.~place 2 X60. Z60.~|gap X5. Z5.~|zones 1~0 clear~end clear~
the first move that comes near|%~O1~G00 X100. Z0.~G00 X20. Z0.~M30~%~|%~O1~M30~%~|place 1 X100. Z100.~place 2 X50. Z3.~|gap X5. Z5.~|zones 1~0 hit path 1 line 4 path 2 stands tool 0 tool 0~end hit 1~
the first move of each path|%~O1~G00 X100. Z0.~G00 X20. Z0.~G00 X0. Z0.~M30~%~|%~O1~G00 X200. Z200.~G00 X50. Z3.~G00 X50. Z0.~M30~%~|place 1 X100. Z-100.~place 2 X250. Z200.~|gap X5. Z5.~|zones 1~0 hit path 1 line 3 path 2 line 4 tool 0 tool 0~end hit 1~
a body beside the other path|%~O1~T0300~G00 X100. Z0.~M30~%~|%~O1~M30~%~|place 1 X100. Z100.~place 2 X50. Z3.~|gap X5. Z5.~tool 1 3 X-40. X20. Z0. Z120.~|zones 1~0 clear~end clear~
a body that touches the gap|%~O1~T0300~G00 X100. Z0.~M30~%~|%~O1~M30~%~|place 1 X100. Z100.~place 2 X50. Z3.~|gap X10. Z5.~tool 1 3 X-40. X20. Z0. Z120.~|zones 1~0 hit path 1 line 4 path 2 stands tool 3 tool 0~end hit 1~
a body of another tool|%~O1~T0300~G00 X100. Z0.~M30~%~|%~O1~M30~%~|place 1 X100. Z100.~place 2 X50. Z3.~|gap X10. Z5.~tool 1 4 X-40. X20. Z0. Z120.~|zones 1~0 clear~end clear~
a body of another path|%~O1~T0300~G00 X100. Z0.~M30~%~|%~O1~M30~%~|place 1 X100. Z100.~place 2 X50. Z3.~|gap X10. Z5.~tool 2 3 X-40. X20. Z0. Z120.~|zones 1~0 clear~end clear~
the body of each tool without one|%~O1~T0300~G00 X100. Z0.~M30~%~|%~O1~M30~%~|place 1 X100. Z100.~place 2 X50. Z3.~|gap X10. Z5.~tool 1 0 X-40. X20. Z0. Z120.~|zones 1~0 hit path 1 line 4 path 2 stands tool 3 tool 0~end hit 1~
the body of the tool before that of each|%~O1~T0300~G00 X100. Z0.~M30~%~|%~O1~M30~%~|place 1 X100. Z100.~place 2 X50. Z3.~|gap X10. Z5.~tool 1 3 X0. X0. Z0. Z0.~tool 1 0 X-40. X20. Z0. Z120.~|zones 1~0 clear~end clear~
the later body of a tool|%~O1~T0300~G00 X100. Z0.~M30~%~|%~O1~M30~%~|place 1 X100. Z100.~place 2 X50. Z3.~|gap X10. Z5.~tool 1 3 X-40. X20. Z0. Z120.~tool 1 3 X0. X0. Z0. Z0.~|zones 1~0 clear~end clear~
a tool that is changed|%~O1~G00 X100. Z0.~T0300~M30~%~|%~O1~M30~%~|place 1 X100. Z100.~place 2 X50. Z3.~|gap X10. Z5.~tool 1 3 X-40. X20. Z0. Z120.~|zones 1~0 hit path 1 line 4 path 2 stands tool 3 tool 0~end hit 1~
a tool that is in force from the segment before|%~O1~T0300~M101~G00 X100. Z0.~M30~%~|%~O1~M101~M30~%~|place 1 X100. Z100.~place 2 X50. Z3.~|gap X10. Z5.~tool 1 3 X-40. X20. Z0. Z120.~|zones 2~0 clear~met 101~1 hit path 1 line 5 path 2 stands tool 3 tool 0~end hit 1~
a move of the segment before|%~O1~G00 X20. Z0.~G00 X100. Z50.~M101~M30~%~|%~O1~M101~G00 X20. Z0.~M30~%~|place 1 X100. Z100.~place 2 X300. Z0.~||zones 2~0 clear~met 101~1 clear~end clear~
a move behind a meeting|%~O1~G00 X100. Z50.~M101~G00 X20. Z0.~M30~%~|%~O1~M101~M30~%~|place 1 X100. Z100.~place 2 X50. Z3.~|gap X5. Z5.~|zones 2~0 clear~met 101~1 hit path 1 line 5 path 2 stands tool 0 tool 0~end hit 1~
a cut into a chuck|%~O1~G01 X40. Z-10. F.1~M30~%~|%~O1~M30~%~|place 1 X60. Z5.~place 2 X300. Z300.~|fixed 1 X0. X50. Z-100. Z0.~|zones 1~0 hit path 1 line 3 fixed 1 tool 0~end hit 1~
a cut into a work piece|%~O1~G01 X40. Z-10. F.1~M30~%~|%~O1~M30~%~|place 1 X60. Z5.~place 2 X300. Z300.~|fixed 1 X0. X50. Z-100. Z0. cut~|zones 1~0 clear~end clear~
a rapid out of a work piece|%~O1~G01 X40. Z-10. F.1~G00 X60.~M30~%~|%~O1~M30~%~|place 1 X60. Z5.~place 2 X300. Z300.~|fixed 1 X0. X50. Z-100. Z0. cut~|zones 1~0 hit path 1 line 4 fixed 1 tool 0~end hit 1~
a chuck of the other path|%~O1~G01 X40. Z-10. F.1~M30~%~|%~O1~M30~%~|place 1 X60. Z5.~place 2 X300. Z300.~|fixed 2 X0. X50. Z-100. Z0.~|zones 1~0 clear~end clear~
the second box|%~O1~M30~%~|%~O1~G00 X40. Z-10.~M30~%~|place 1 X300. Z300.~place 2 X60. Z5.~|fixed 2 X200. X250. Z0. Z10.~fixed 2 X0. X50. Z-100. Z0.~|zones 1~0 hit path 2 line 3 fixed 2 tool 0~end hit 1~
the gap of a box|%~O1~M30~%~|%~O1~M30~%~|place 1 X53. Z-5.~place 2 X300. Z300.~|gap X3. Z1.~fixed 1 X0. X50. Z-100. Z0.~|zones 1~0 hit path 1 stands fixed 1 tool 0~end hit 1~
beyond the gap of a box|%~O1~M30~%~|%~O1~M30~%~|place 1 X53.001 Z-5.~place 2 X300. Z300.~|gap X3. Z1.~fixed 1 X0. X50. Z-100. Z0.~|zones 1~0 clear~end clear~
paths that stand|%~O1~M30~%~|%~O1~M30~%~|place 1 X50. Z3.~place 2 X50. Z3.~||zones 1~0 hit path 1 stands path 2 stands tool 0 tool 0~end hit 1~
a path that counts Z from the other side|%~O1~M30~%~|%~O1~M30~%~|place 1 X50. Z3.~place 2 X50. Z3.~|mirror 2 Z~gap X0 Z5.999~|zones 1~0 clear~end clear~
as far apart as the gap|%~O1~M30~%~|%~O1~M30~%~|place 1 X50. Z3.~place 2 X50. Z3.~|mirror 2 Z~gap X0 Z6.~|zones 1~0 hit path 1 stands path 2 stands tool 0 tool 0~end hit 1~
a body on the other side|%~O1~M30~%~|%~O1~M30~%~|place 1 X0 Z0~place 2 X0 Z10.~|mirror 2 Z~tool 2 0 X0 X0 Z-3. Z0~|zones 1~0 clear~end clear~
a body that is mirrored in Z|%~O1~M30~%~|%~O1~M30~%~|place 1 X0 Z0~place 2 X0 Z10.~|mirror 2 Z~tool 2 0 X0 X0 Z-10. Z0~|zones 1~0 hit path 1 stands path 2 stands tool 0 tool 0~end hit 1~
a body that is mirrored in X|%~O1~M30~%~|%~O1~M30~%~|place 1 X0 Z0~place 2 X10. Z0~|mirror 2~tool 2 0 X-10. X0 Z0 Z0~|zones 1~0 hit path 1 stands path 2 stands tool 0 tool 0~end hit 1~
an arc within its reach|%~O1~G02 X38. Z98. I1. K1. F.1~M30~%~|%~O1~M30~%~|place 1 X34. Z96.~place 2 X38.83 Z97.~||zones 1~0 clear~end clear~
an arc at its reach|%~O1~G03 X38. Z98. I1. K1. F.1~M30~%~|%~O1~M30~%~|place 1 X34. Z96.~place 2 X38.829 Z97.~||zones 1~0 hit path 1 line 3 path 2 stands tool 0 tool 0~end hit 1~";

/// The text of what is hit in the pair's run.
fn text_of(alloc: Global, pair: &Verified, cell: &Cell) -> Result<Vec<u8>, Fail> {
    let run = records_in_turn(alloc, pair, 10_000)?;
    let list = findings(alloc, pair, &run.entries, cell)?;
    let mut sink = VecSink::new(alloc, &[])?;
    write_findings(list.as_slice(), &mut sink)?;
    write_end(list.as_slice(), &mut sink)?;
    Ok(Vec::from_slice(alloc, sink.bytes())?)
}

/// The text of what is hit in the run of a pair that is accepted.
fn answer(
    alloc: Global,
    left: &[u8],
    right: &[u8],
    settings: &[u8],
    zones: &[u8],
) -> Result<Vec<u8>, Fail> {
    if settings.len() > 1_000 || zones.len() > 1_000 {
        return Err(Fail::new("a text that is too long"));
    }
    let Ok(Plan::Moves(cell)) = read_plan(alloc, zones) else {
        return Err(Fail::new("zones that are refused"));
    };
    match verdict(alloc, left, right, settings) {
        Ok(pair) => text_of(alloc, &pair, &cell),
        Err(_) => Err(Fail::new("a pair that is refused")),
    }
}

/// Whether the run of a row has the text that the row says.
fn holds(alloc: Global, row: &str) -> Result<bool, Fail> {
    let (_, texts) = row.split_once('|').unwrap_or((row, ""));
    let (left, texts) = texts.split_once('|').unwrap_or((texts, ""));
    let (right, texts) = texts.split_once('|').unwrap_or((texts, ""));
    let (settings, texts) = texts.split_once('|').unwrap_or((texts, ""));
    let (zones, wanted) = texts.split_once('|').unwrap_or((texts, ""));
    let left = lines_of(alloc, left)?;
    let right = lines_of(alloc, right)?;
    let settings = lines_of(alloc, settings)?;
    let zones = behind_moves(alloc, zones)?;
    let text = answer(
        alloc,
        left.as_slice(),
        right.as_slice(),
        settings.as_slice(),
        zones.as_slice(),
    )?;
    Ok(is_text(alloc, text.as_slice(), wanted)?)
}

#[test]
fn a_run_by_moves(rt: HostRuntime) -> Result<(), Fail> {
    for row in ROWS.lines() {
        assert!(&rt; holds(rt.alloc(), row)?, "{row}");
    }
    Ok(())
}
