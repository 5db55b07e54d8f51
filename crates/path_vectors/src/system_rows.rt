//! A table of tests of path_state by whole tapes in both systems of G codes, where the same letter
//! and number means another thing in each. A row is run by path 1 alone (`path_rows::run`).
use crate::lone_path::{flow_of, refusal_of, settings_of};
use crate::path_rows::run;
use cell_settings::Settings;
use nc_number::Path;
use std::alloc::{AllocError, Global};
use std::process::Abort;
use std::test::Fail;

/// The cell, to which the row's line `codes` is added. The path begins at X100. Z50. in machine
/// coordinates, with no shift. G55 shifts by X2. Z20., and T0101 by X-20. Z-5.
const CELL: &str = "place 1 X100. Z50.~home 1 X300. Z200.~work 1 55 X2. Z20.~tool 1 1 X-20. Z-5.~";

/// A row each: the system, the blocks of the tape from line 3 on, and what the path does: each
/// move, in machine coordinates, behind the line of its block, waits that it passes at once, its
/// end or its alarm, the parts of its state that are not as at the start, and the line where it
/// stands after so many blocks. Or the number of the refusal and its line.
const ROWS: &str = "\
B|G90 G00 X50. Z2.~G77 X40. Z-20. F0.2~G91 G01 X-5. Z-1.~M30|3 rapid X50.000 Z2.000~4 rapid X40.000 Z2.000~4 feed X40.000 Z-20.000 F0.2 rev~4 feed X50.000 Z-20.000 F0.2 rev~4 rapid X50.000 Z2.000~5 feed X45.000 Z1.000 F0.2 rev~end~at X45.000 Z1.000~G01~G91~F 0.2~line 6 after 4 turns
A|G90 G00 X50. Z2.~G77 X40. Z-20. F0.2~M30|refused 56 line 4
A|G00 X50. Z2.~G90 X40. Z-20. F0.2~G01 U-5. W-1.~M30|3 rapid X50.000 Z2.000~4 rapid X40.000 Z2.000~4 feed X40.000 Z-20.000 F0.2 rev~4 feed X50.000 Z-20.000 F0.2 rev~4 rapid X50.000 Z2.000~5 feed X45.000 Z1.000 F0.2 rev~end~at X45.000 Z1.000~G01~F 0.2~line 6 after 4 turns
A|G90 X40. Z0 F0.2~M30|3 rapid X40.000 Z50.000~3 feed X40.000 Z0.000 F0.2 rev~3 feed X100.000 Z0.000 F0.2 rev~3 rapid X100.000 Z50.000~end~G90~F 0.2~cycle X40.000 Z0.000~line 4 after 2 turns
B|G90 X40. Z0 F0.2~M30|3 rapid X40.000 Z0.000~end~at X40.000 Z0.000~F 0.2~line 4 after 2 turns
A|G92 X40. Z0 F2.~M30|3 rapid X40.000 Z50.000~3 thread X40.000 Z0.000 F2~3 rapid X100.000 Z0.000~3 rapid X100.000 Z50.000~end~G92~F 2~cycle X40.000 Z0.000~line 4 after 2 turns
B|G78 X40. Z0 F2.~M30|3 rapid X40.000 Z50.000~3 thread X40.000 Z0.000 F2~3 rapid X100.000 Z0.000~3 rapid X100.000 Z50.000~end~G78~F 2~cycle X40.000 Z0.000~line 4 after 2 turns
A|G94 X40. Z0 F0.2~M30|3 rapid X100.000 Z0.000~3 feed X40.000 Z0.000 F0.2 rev~3 feed X40.000 Z50.000 F0.2 rev~3 rapid X100.000 Z50.000~end~G94~F 0.2~cycle X40.000 Z0.000~line 4 after 2 turns
B|G94 X40. Z0 F0.2~M30|3 rapid X40.000 Z0.000~end~at X40.000 Z0.000~G94~F 0.2~line 4 after 2 turns
B|G79 X40. Z0 F0.2~M30|3 rapid X100.000 Z0.000~3 feed X40.000 Z0.000 F0.2 rev~3 feed X40.000 Z50.000 F0.2 rev~3 rapid X100.000 Z50.000~end~G79~F 0.2~cycle X40.000 Z0.000~line 4 after 2 turns
A|G92 S2500~M30|3 speed G97 S2500~end~G92~S 2500~line 4 after 2 turns
B|G92 S2500~G96 S200~M30|3 limit S2500~4 speed G96 S200~end~G96~S 200~limit 2500~line 5 after 3 turns
A|G50 S2500~G96 S200~M30|3 limit S2500~4 speed G96 S200~end~G96~S 200~limit 2500~line 5 after 3 turns
B|G50 S2500~M30|refused 56 line 3
B|G92~M30|refused 56 line 3
B|X1.~G92 S1000 Z1.~M30|refused 56 line 4
A|G32 Z0 F2.~M30|3 thread X100.000 Z0.000 F2~end~at X100.000 Z0.000~G32~F 2~line 4 after 2 turns
B|G33 Z0 F2.~Z-10.~M30|3 thread X100.000 Z0.000 F2~4 thread X100.000 Z-10.000 F2~end~at X100.000 Z-10.000~G33~F 2~line 5 after 3 turns
A|G33 Z0 F2.~M30|refused 56 line 3
B|G32 Z1.~M30|refused 56 line 3
A|G98 G01 X50. F100~G99 X40. F0.2~M30|3 feed X50.000 Z50.000 F100 min~4 feed X40.000 Z50.000 F0.2 rev~end~at X40.000 Z50.000~G01~F 0.2~line 5 after 3 turns
B|G01 X50. F0.2~G94 X40. F100~G95 Z0 F0.3~M30|3 feed X50.000 Z50.000 F0.2 rev~4 feed X40.000 Z50.000 F100 min~5 feed X40.000 Z0.000 F0.3 rev~end~at X40.000 Z0.000~G01~F 0.3~line 6 after 4 turns
B|G94 G01 X50. F100~M30|3 feed X50.000 Z50.000 F100 min~end~at X50.000 Z50.000~G01~G94~F 100~line 4 after 2 turns
B|G98~M30|refused 56 line 3
B|X1.~G99~M30|refused 56 line 4
A|G95~M30|refused 56 line 3
A|G91 X1.~M30|refused 56 line 3
A|U-10. W-5.~M30|3 rapid X90.000 Z45.000~end~at X90.000 Z45.000~line 4 after 2 turns
B|U1.~M30|refused 56 line 3
B|G91 G01 X-5. F0.1~W-1.~M30|refused 56 line 4
A|X1. U1.~M30|refused 62 line 3
B|X1. U1.~M30|refused 56 line 3
B|G04 U1.5~M30|refused 56 line 3
B|G10 P1 U1.~M30|refused 56 line 3
B|G98 S100000~M30|refused 56 line 3
A|G65 P2 U1. W2.~M30~O2~#100=#21+#23~M99|end~#100 3~line 4 after 4 turns
B|G65 P2 U1. W2.~M30~O2~#100=#21+#23~M99|end~#100 3~line 4 after 4 turns
B|G91 G77 X-60. Z-50. F0.2~X-62.~M30|3 rapid X40.000 Z50.000~3 feed X40.000 Z0.000 F0.2 rev~3 feed X100.000 Z0.000 F0.2 rev~3 rapid X100.000 Z50.000~4 rapid X38.000 Z50.000~4 feed X38.000 Z0.000 F0.2 rev~4 feed X100.000 Z0.000 F0.2 rev~4 rapid X100.000 Z50.000~end~G77~G91~F 0.2~cycle X38.000 Z0.000~line 5 after 3 turns
B|G77 X40. Z0 F0.2~G91 X-62.~G90 X36.~M30|3 rapid X40.000 Z50.000~3 feed X40.000 Z0.000 F0.2 rev~3 feed X100.000 Z0.000 F0.2 rev~3 rapid X100.000 Z50.000~4 rapid X38.000 Z50.000~4 feed X38.000 Z0.000 F0.2 rev~4 feed X100.000 Z0.000 F0.2 rev~4 rapid X100.000 Z50.000~5 rapid X36.000 Z50.000~5 feed X36.000 Z0.000 F0.2 rev~5 feed X100.000 Z0.000 F0.2 rev~5 rapid X100.000 Z50.000~end~G77~F 0.2~cycle X36.000 Z0.000~line 6 after 4 turns
B|G91 G77 X-60. Z-50. F0.2~G00 X-10.~G77 X-60.~M30|3 rapid X40.000 Z50.000~3 feed X40.000 Z0.000 F0.2 rev~3 feed X100.000 Z0.000 F0.2 rev~3 rapid X100.000 Z50.000~4 rapid X90.000 Z50.000~5 rapid X30.000 Z50.000~5 feed X30.000 Z50.000 F0.2 rev~5 feed X90.000 Z50.000 F0.2 rev~5 rapid X90.000 Z50.000~end~at X90.000 Z50.000~G77~G91~F 0.2~cycle X30.000 Z50.000~line 6 after 4 turns
B|G77 X40. Z-30. R-3.7 F0.2~M30|alarm 56~line 3 after 1 turns
B|G01 X20. Z0 F0.1~G91 G02 X-20. Z-10. I-10. K0~M30|3 feed X20.000 Z0.000 F0.1 rev~4 cw X0.000 Z-10.000 I-10.000 K0.000 F0.1 rev~end~at X0.000 Z-10.000~G02~G91~F 0.1~line 5 after 3 turns
B|G00 X20. Z0~G91 G02 X-20. Z-10.011 I-10. K0 F0.1~M30|3 rapid X20.000 Z0.000~alarm 42~at X20.000 Z0.000~line 4 after 2 turns
B|G00 X0 Z0~G91 G03 Z-20. R10. F0.1~M30|3 rapid X0.000 Z0.000~4 ccw X0.000 Z-20.000 R10.000 F0.1 rev~end~at X0.000 Z-20.000~G03~G91~F 0.1~line 5 after 3 turns
B|G91 G02 I5. F1.~M30|3 cw X100.000 Z50.000 I5.000 K0.000 F1 rev~end~G02~G91~F 1~line 4 after 2 turns
B|G91 X-1. G90~M30|3 rapid X-1.000 Z50.000~end~at X-1.000 Z50.000~line 4 after 2 turns
B|G90 X-1. G91~M30|3 rapid X99.000 Z50.000~end~at X99.000 Z50.000~G91~line 4 after 2 turns
B|G91 X1000 Z-500~M30|3 rapid X101.000 Z49.500~end~at X101.000 Z49.500~G91~line 4 after 2 turns
B|G91~#1=-2.5~X#1 Z#2~M30|5 rapid X97.500 Z50.000~end~at X97.500 Z50.000~G91~#1 -2.5~line 6 after 4 turns
B|G91 X0~M30|3 rapid X100.000 Z50.000~end~G91~line 4 after 2 turns
B|G91 X1. X-2.~M30|3 rapid X98.000 Z50.000~end~at X98.000 Z50.000~G91~line 4 after 2 turns
B|G00 X99999.~G91 X1.~M30|3 rapid X99999.000 Z50.000~alarm 41~at X99999.000 Z50.000~line 4 after 2 turns
B|G91 G01 X-1.~M30|alarm 44~line 3 after 1 turns
B|G91 G04 X1.5~M30|3 dwell 1500~end~G91~line 4 after 2 turns
B|T0101 G00 X50. Z0~G91 X-10. Z-1.~G90 X50.~M30|3 tool T0101~3 rapid X30.000 Z-5.000~4 rapid X20.000 Z-6.000~5 rapid X30.000 Z-6.000~end~at X30.000 Z-6.000~T0101~offset 1~line 6 after 4 turns
B|G91 T0101 X1. Z1.~M30|3 tool T0101~3 rapid X101.000 Z51.000~end~at X101.000 Z51.000~G91~T0101~offset 1~line 4 after 2 turns
B|T0101~G91 X-1.~#1=#5001~#2=#5021~M30|3 tool T0101~4 rapid X99.000 Z50.000~end~at X99.000 Z50.000~G91~T0101~offset 1~#1 119~#2 99~line 7 after 5 turns
B|G91~M98 P2~X-1.~M30~O2~X-10.~G90~M99|8 rapid X90.000 Z50.000~5 rapid X-1.000 Z50.000~end~at X-1.000 Z50.000~line 6 after 7 turns
B|G91~M101~X-1.~M30|wait 101~5 rapid X99.000 Z50.000~end~at X99.000 Z50.000~G91~line 6 after 4 turns
B|G91~WHILE [#1 LT 3] DO1~G01 X-2. F0.1~#1=#1+1~END1~M30|5 feed X98.000 Z50.000 F0.1 rev~5 feed X96.000 Z50.000 F0.1 rev~5 feed X94.000 Z50.000 F0.1 rev~end~at X94.000 Z50.000~G01~G91~F 0.1~#1 3~line 8 after 15 turns
B|G28 X50. Z0~M30|3 rapid X50.000 Z0.000~3 rapid X300.000 Z200.000~end~at X300.000 Z200.000~line 4 after 2 turns
B|G91 G28 X0 Z0~M30|3 rapid X100.000 Z50.000~3 rapid X300.000 Z200.000~end~at X300.000 Z200.000~G91~line 4 after 2 turns
B|G91 G28 X-10.~M30|3 rapid X90.000 Z50.000~3 rapid X300.000 Z50.000~end~at X300.000 Z50.000~G91~line 4 after 2 turns
A|G28 U-10.~M30|3 rapid X90.000 Z50.000~3 rapid X300.000 Z50.000~end~at X300.000 Z50.000~line 4 after 2 turns
B|G55 G53 X10. Z20.~M30|3 rapid X10.000 Z20.000~end~at X10.000 Z20.000~G55~line 4 after 2 turns
B|G91 G53 X0~M30|alarm 56~line 3 after 1 turns
B|G53 X0 G91~M30|alarm 56~line 3 after 1 turns
B|G91~G53~M30|alarm 56~G91~line 4 after 2 turns
B|G91 G53 X100000.~M30|alarm 56~line 3 after 1 turns
B|G91 G53 X0 T0165~M30|alarm 40~line 3 after 1 turns
B|G91 G53 X#34~M30|alarm 30~line 3 after 1 turns
B|G91 G00 X-10.~G90 G53 X0 Z0~M30|3 rapid X90.000 Z50.000~4 rapid X0.000 Z0.000~end~at X0.000 Z0.000~line 5 after 3 turns
B|G91 G53 G90 X5.~M30|3 rapid X5.000 Z50.000~end~at X5.000 Z50.000~line 4 after 2 turns
B|G91 G53 G04 P5~M30|3 dwell 5~end~G91~line 4 after 2 turns
B|G53 W1.~M30|refused 56 line 3
A|G53 W1.~M30|refused 56 line 3
A|G90 G53 X0~M30|3 rapid X0.000 Z50.000~end~at X0.000 Z50.000~G90~line 4 after 2 turns
B|G10 L2 P2 X1. Z2.~G91 G10 L2 P2 X0.5 Z-1.~G90 G10 P1 X0.1~G91 G10 P1 X0.2 Z-0.3~M30|end~G91~work 2 X1.500 Z1.000~wear 1 X0.300 Z-0.300~line 7 after 5 turns
A|G10 L2 P2 X1. Z2.~G10 L2 P2 U0.5 W-1.~G10 P1 X0.1~G10 P1 U0.2 W-0.3~M30|end~work 2 X1.500 Z1.000~wear 1 X0.300 Z-0.300~line 7 after 5 turns
B|G91 G10 P10001 X1. Z1.~M30|end~G91~geometry 1 X-19.000 Z-4.000~line 4 after 2 turns
B|G10 P1 X99999.~G91 G10 P1 X1.~M30|alarm 41~wear 1 X99999.000 Z0.000~line 4 after 2 turns
B|#1=#4003~G91~#2=#4003~G90~#3=#4003~M30|end~#1 90~#2 91~#3 90~line 8 after 6 turns
A|#1=#4003~M30|alarm 30~line 3 after 1 turns
B|#4003=91~M30|alarm 31~line 3 after 1 turns
A|#4003=91~M30|alarm 30~line 3 after 1 turns
B|#1=#4001+#4002+#4005+#4006+#4007+#4014~M30|end~#1 307~line 4 after 2 turns
B|G33~#1=#4001~G79~#2=#4001~G94~#3=#4005~M30|end~G79~G94~#1 33~#2 79~#3 94~line 9 after 7 turns
B|G18 G67 G80 G21 G40~M30|end~line 4 after 2 turns
B|X1.~G20~M30|refused 56 line 4
B|G42~M30|refused 56 line 3";

/// What the path does by the tape, or the refusal of the tape where one is due.
fn outcome(
    alloc: Global,
    settings: &Settings,
    text: &str,
    is_refused: bool,
) -> Result<String, Fail> {
    if is_refused {
        return refusal_of(alloc, text, settings);
    }
    let flow = flow_of(alloc, text, settings)?;
    Ok(run(alloc, &flow, settings, Path::One)?)
}

/// The settings of the cell for tapes of this system.
fn cell_text(alloc: Global, system: &str) -> Result<String, AllocError> {
    format!(in alloc; "{CELL}codes {system}~")
}

/// A tape whose one program has these blocks.
fn tape_text(alloc: Global, blocks: &str) -> Result<String, AllocError> {
    format!(in alloc; "%~O1~{blocks}~%~")
}

/// What the path does by the blocks in this system, or the refusal of their tape where one is due.
fn outcome_in(alloc: Global, system: &str, blocks: &str, is_refused: bool) -> Result<String, Fail> {
    let cell = cell_text(alloc, system)?;
    let text = tape_text(alloc, blocks)?;
    let settings = settings_of(alloc, cell.as_str())?;
    outcome(alloc, &settings, text.as_str(), is_refused)
}

/// Fails the test where the blocks of a row do not do what the row says.
fn row_holds(rt: &impl Abort, alloc: Global, row: &str) -> Result<(), Fail> {
    let (system, rest) = row.split_once('|').unwrap_or((row, ""));
    let (blocks, wanted) = rest.split_once('|').unwrap_or((rest, ""));
    let got = outcome_in(alloc, system, blocks, wanted.starts_with("refused"))?;
    assert_eq!(rt; got.as_str(), wanted, "{row}");
    Ok(())
}

#[test]
fn a_tape_in_its_system_and_what_its_path_does(rt: HostRuntime) -> Result<(), Fail> {
    for row in ROWS.lines() {
        row_holds(&rt, rt.alloc(), row)?;
    }
    Ok(())
}
