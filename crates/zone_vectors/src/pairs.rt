//! Tests of zone_check: pairs of tapes whose paths take turns (turn_order), and the zones of their
//! runs.
use crate::row::{is_text, lines_of};
use nc_outside::VecSink;
use nc_verify::{Verified, verdict};
use std::alloc::Global;
use std::test::Fail;
use turn_order::records_in_turn;
use zone_cell::{Zones, read_zones};
use zone_check::{boxes, write_zones};

/// `WHAT IT TRIES|TAPE OF PATH 1|TAPE OF PATH 2|SETTINGS|ZONES|TEXT`; the text is the list of zones
/// that `write_zones` is to give. In each, `~` stands for the end of a line.
const ROWS: &str = "\
a shaft on two turrets that face each other|%~O0001 (UPPER TURRET)~N10 G21 G40 G97 G99~N20 G28 U0 W0~N30 G50 S2500~N40 T0101~N50 G97 S800 M03~N60 G00 X52. Z2. M08~N70 M101~N80 G90 X48. Z-30. F0.25~N90 X46.~N100 G00 X100. Z50. M09~N110 T0100~N120 M102~N130 M30~%~|%~O0002 (LOWER TURRET)~N10 G21 G40 G99~N20 G28 U0 W0~N30 T0202~N40 M101~N50 G97 S600 M03~N60 G00 X54. Z-10.~N70 G01 X40. F0.1~N80 G03 X46. Z-13. R3.~N90 G04 P500~N100 G00 X60.~N110 T0200~N120 M102~N130 M30~%~|place 1 X200. Z150.~place 2 X200. Z150.~home 1 X300. Z200.~home 2 X300. Z200.~work 1 54 X0 Z100.~work 2 54 X0 Z100.~tool 1 1 X-20. Z-10.~tool 2 2 X-10. Z5.~|mirror 2~|zones 3~0 X32.000 X300.000 Z92.000 Z200.000 X-300.000 X-200.000 Z150.000 Z200.000 clear~1 X26.000 X80.000 Z60.000 Z140.000 X-300.000 X-18.000 Z89.000 Z200.000 clear~2 X80.000 X80.000 Z140.000 Z140.000 X-50.000 X-50.000 Z92.000 Z92.000 clear~end clear~
the same shaft on turrets of one side|%~O0001 (UPPER TURRET)~N10 G21 G40 G97 G99~N20 G28 U0 W0~N30 G50 S2500~N40 T0101~N50 G97 S800 M03~N60 G00 X52. Z2. M08~N70 M101~N80 G90 X48. Z-30. F0.25~N90 X46.~N100 G00 X100. Z50. M09~N110 T0100~N120 M102~N130 M30~%~|%~O0002 (LOWER TURRET)~N10 G21 G40 G99~N20 G28 U0 W0~N30 T0202~N40 M101~N50 G97 S600 M03~N60 G00 X54. Z-10.~N70 G01 X40. F0.1~N80 G03 X46. Z-13. R3.~N90 G04 P500~N100 G00 X60.~N110 T0200~N120 M102~N130 M30~%~|place 1 X200. Z150.~place 2 X200. Z150.~home 1 X300. Z200.~home 2 X300. Z200.~work 1 54 X0 Z100.~work 2 54 X0 Z100.~tool 1 1 X-20. Z-10.~tool 2 2 X-10. Z5.~||zones 3~0 X32.000 X300.000 Z92.000 Z200.000 X200.000 X300.000 Z150.000 Z200.000 hit~1 X26.000 X80.000 Z60.000 Z140.000 X18.000 X300.000 Z89.000 Z200.000 hit~2 X80.000 X80.000 Z140.000 Z140.000 X50.000 X50.000 Z92.000 Z92.000 clear~end hit 2~
no move at all|%~O1~M30~%~|%~O1~M30~%~|||zones 1~0 X0.000 X0.000 Z0.000 Z0.000 X0.000 X0.000 Z0.000 Z0.000 hit~end hit 1~
no move, at two places|%~O1~M30~%~|%~O1~M30~%~|place 1 X10. Z0~||zones 1~0 X10.000 X10.000 Z0.000 Z0.000 X0.000 X0.000 Z0.000 Z0.000 clear~end clear~
a gap that is touched|%~O1~M30~%~|%~O1~M30~%~|place 1 X10. Z0~|gap X10. Z0~|zones 1~0 X10.000 X10.000 Z0.000 Z0.000 X0.000 X0.000 Z0.000 Z0.000 hit~end hit 1~
a gap that is kept|%~O1~M30~%~|%~O1~M30~%~|place 1 X10. Z0~|gap X9.999 Z99999.999~|zones 1~0 X10.000 X10.000 Z0.000 Z0.000 X0.000 X0.000 Z0.000 Z0.000 clear~end clear~
the next count without a gap|%~O1~M30~%~|%~O1~M30~%~|place 2 X0 Z.001~||zones 1~0 X0.000 X0.000 Z0.000 Z0.000 X0.000 X0.000 Z0.001 Z0.001 clear~end clear~
straight moves hold their ends|%~O1~G00 X10. Z-5.~G01 X-2. Z3. F.1~M30~%~|%~O1~M30~%~|place 1 X1. Z1.~||zones 1~0 X-2.000 X10.000 Z-5.000 Z3.000 X0.000 X0.000 Z0.000 Z0.000 hit~end hit 1~
other codes do not move|%~O1~S500 M03~T0000~G04 P10~M30~%~|%~O1~M30~%~|place 1 X1. Z1.~||zones 1~0 X1.000 X1.000 Z1.000 Z1.000 X0.000 X0.000 Z0.000 Z0.000 clear~end clear~
a segment begins where the one before ends|%~O1~G00 X10.~M101~G00 X20. Z1.~M102~M30~%~|%~O1~M101~M102~M30~%~|place 2 X100. Z0~||zones 3~0 X0.000 X10.000 Z0.000 Z0.000 X100.000 X100.000 Z0.000 Z0.000 clear~1 X10.000 X20.000 Z0.000 Z1.000 X100.000 X100.000 Z0.000 Z0.000 clear~2 X20.000 X20.000 Z1.000 Z1.000 X100.000 X100.000 Z0.000 Z0.000 clear~end clear~
moves before an alarm count|%~O1~G00 X10.~#3000=1~M30~%~|%~O1~M30~%~|place 2 X0 Z9.~||zones 1~0 X0.000 X10.000 Z0.000 Z0.000 X0.000 X0.000 Z9.000 Z9.000 clear~end clear~
an arc by its centre, an odd root, to X34 Z98|%~O1~G02 X34. Z98. I1. K1. F.1~M30~%~|%~O1~M30~%~|place 1 X34. Z96.~||zones 1~0 X33.171 X38.829 Z95.585 Z98.415 X0.000 X0.000 Z0.000 Z0.000 clear~end clear~
an arc by its centre, an odd root, to X38 Z98|%~O1~G03 X38. Z98. I1. K1. F.1~M30~%~|%~O1~M30~%~|place 1 X34. Z96.~||zones 1~0 X33.171 X38.829 Z95.585 Z98.415 X0.000 X0.000 Z0.000 Z0.000 clear~end clear~
an arc by its centre, an odd root, to X38 Z96|%~O1~G02 X38. Z96. I1. K1. F.1~M30~%~|%~O1~M30~%~|place 1 X34. Z96.~||zones 1~0 X33.171 X38.829 Z95.585 Z98.415 X0.000 X0.000 Z0.000 Z0.000 clear~end clear~
an arc by its centre from X38 Z98|%~O1~G02 X34. Z96. I-1. K-1. F.1~M30~%~|%~O1~M30~%~|place 1 X38. Z98.~||zones 1~0 X33.171 X38.829 Z95.585 Z98.415 X0.000 X0.000 Z0.000 Z0.000 clear~end clear~
an arc by its centre from X34 Z98|%~O1~G03 X38. Z98. I1. K-1. F.1~M30~%~|%~O1~M30~%~|place 1 X34. Z98.~||zones 1~0 X33.171 X38.829 Z95.585 Z98.415 X0.000 X0.000 Z0.000 Z0.000 clear~end clear~
an arc by its centre from X38 Z96|%~O1~G03 X34. Z96. I-1. K1. F.1~M30~%~|%~O1~M30~%~|place 1 X38. Z96.~||zones 1~0 X33.171 X38.829 Z95.585 Z98.415 X0.000 X0.000 Z0.000 Z0.000 clear~end clear~
an arc whose end is the farther, an odd root|%~O1~G02 X20.005 Z0 K-10. F.1~M30~%~|%~O1~M30~%~|place 1 X0 Z10.~|gap X0 Z50.~|zones 1~0 X-20.005 X20.005 Z-10.003 Z10.003 X0.000 X0.000 Z0.000 Z0.000 hit~end hit 1~
an arc whose start is the farther|%~O1~G02 X20. Z0 K-10.005 F.1~M30~%~|%~O1~M30~%~|place 1 X0 Z10.005~|gap X0 Z50.~|zones 1~0 X-20.010 X20.010 Z-10.005 Z10.005 X0.000 X0.000 Z0.000 Z0.000 hit~end hit 1~
an arc by its radius to X30 Z-5|%~O1~G02 X30. Z-5. R5. F.1~M30~%~|%~O1~M30~%~|place 1 X20. Z0~||zones 1~0 X0.000 X40.000 Z-10.000 Z10.000 X0.000 X0.000 Z0.000 Z0.000 hit~end hit 1~
an arc by its radius to X10 Z-5|%~O1~G03 X10. Z-5. R5. F.1~M30~%~|%~O1~M30~%~|place 1 X20. Z0~|frame 2 X-.001 Z0~|zones 1~0 X0.000 X40.000 Z-10.000 Z10.000 X-0.001 X-0.001 Z0.000 Z0.000 clear~end clear~
an arc by its radius to X10 Z5|%~O1~G02 X10. Z5. R5. F.1~M30~%~|%~O1~M30~%~|place 1 X20. Z0~||zones 1~0 X0.000 X40.000 Z-10.000 Z10.000 X0.000 X0.000 Z0.000 Z0.000 hit~end hit 1~
an arc by its radius to X30 Z5|%~O1~G03 X30. Z5. R-5. F.1~M30~%~|%~O1~M30~%~|place 1 X20. Z0~||zones 1~0 X0.000 X40.000 Z-10.000 Z10.000 X0.000 X0.000 Z0.000 Z0.000 hit~end hit 1~
the frame comes behind the mirror|%~O1~G00 X30.~M30~%~|%~O1~M30~%~|place 1 X10. Z0~|mirror 1~frame 1 X100. Z1.~|zones 1~0 X70.000 X90.000 Z1.000 Z1.000 X0.000 X0.000 Z0.000 Z0.000 clear~end clear~
frames at the edge|%~O1~M30~%~|%~O1~M30~%~|place 1 X99999.999 Z-99999.999~place 2 X99999.999 Z99999.999~|frame 1 X99999.999 Z-99999.999~mirror 2~frame 2 X-99999.999 Z99999.999~gap X99999.999 Z99999.999~|zones 1~0 X199999.998 X199999.998 Z-199999.998 Z-199999.998 X-199999.998 X-199999.998 Z199999.998 Z199999.998 clear~end clear~";

/// The text of the zones of the pair's run.
fn text_of(alloc: Global, pair: &Verified, zones: &Zones) -> Result<Vec<u8>, Fail> {
    let run = records_in_turn(alloc, pair, 10_000)?;
    let list = boxes(alloc, pair, &run.entries, zones)?;
    let mut sink = VecSink::new(alloc, &[])?;
    write_zones(list.as_slice(), &mut sink)?;
    Ok(Vec::from_slice(alloc, sink.bytes())?)
}

/// The text of the zones of a pair that is accepted.
fn answer(
    alloc: Global,
    left: &[u8],
    right: &[u8],
    settings: &[u8],
    zones: &[u8],
) -> Result<Vec<u8>, Fail> {
    if settings.len() > 1_000 || zones.len() > 1_000 {
        return Err(Fail::new("a text that is too long"));
    }
    let Ok(zones) = read_zones(alloc, zones) else {
        return Err(Fail::new("zones that are refused"));
    };
    match verdict(alloc, left, right, settings) {
        Ok(pair) => text_of(alloc, &pair, &zones),
        Err(_) => Err(Fail::new("a pair that is refused")),
    }
}

/// Whether the run of a row has the zones that the row says.
fn holds(alloc: Global, row: &str) -> Result<bool, Fail> {
    let (_, texts) = row.split_once('|').unwrap_or((row, ""));
    let (left, texts) = texts.split_once('|').unwrap_or((texts, ""));
    let (right, texts) = texts.split_once('|').unwrap_or((texts, ""));
    let (settings, texts) = texts.split_once('|').unwrap_or((texts, ""));
    let (zones, wanted) = texts.split_once('|').unwrap_or((texts, ""));
    let left = lines_of(alloc, left)?;
    let right = lines_of(alloc, right)?;
    let settings = lines_of(alloc, settings)?;
    let zones = lines_of(alloc, zones)?;
    let text = answer(
        alloc,
        left.as_slice(),
        right.as_slice(),
        settings.as_slice(),
        zones.as_slice(),
    )?;
    Ok(is_text(alloc, text.as_slice(), wanted)?)
}

#[test]
fn a_run_and_its_zones(rt: HostRuntime) -> Result<(), Fail> {
    for row in ROWS.lines() {
        assert!(&rt; holds(rt.alloc(), row)?, "{row}");
    }
    Ok(())
}
