//! Tables of tests of path_state by whole tapes of G-code system A, each run by one path alone
//! (`lone_path`), until it ends or raises an alarm. `system_rows` takes `run`.
use crate::lone_path::{flow_of, on_one_line, put_changes, put_turn, settings_of, state_of};
use cell_settings::Settings;
use nc_number::{NoMemory, Path};
use path_state::PathState;
use std::alloc::{AllocError, Global};
use std::process::Abort;
use std::test::Fail;
use tape_flow::Flow;

/// The settings of a pair of tapes as a shop has them.
const CELL: &str = "\
place 1 X200. Z150.~place 2 X200. Z150.~home 1 X300. Z200.~home 2 X300. Z200.~\
work 1 54 X0 Z100.~work 2 54 X0 Z100.~tool 1 1 X-20. Z-10.~tool 2 2 X-10. Z5.~";

/// A row each: a tape, where `~` stands for the end of a line, and what the path does: each move,
/// in machine coordinates, behind the line of its block, waits that it passes at once, its end or
/// its alarm, the parts of its state that are not as at the start, and the line where it stands
/// after so many blocks (a block with all its readings counts as one turn).
const ROWS: &str = "\
%~O1~M30~%~|end~line 3 after 1 turns
%~O1~IF [#1 EQ 0] GOTO 90~IF [#1 GE 0] GOTO 20~N90 #3000=1~N20 G00 X#1 Z5.~#2=#1~IF [#2 EQ #0] GOTO 30~#3000=2~N30 M30~%~|6 rapid X0.000 Z5.000~end~at X0.000 Z5.000~line 10 after 6 turns
%~O1~#1=1/3~#2=#1*3~#3=99999999.999999+0.000001~M30~%~|alarm 1~#1 0.333333~#2 0.999999~line 5 after 3 turns
%~O1~G00 X50. Z2.~G90 X40. Z-20. F0.2~X38.~G00 X60.~M30~%~|3 rapid X50.000 Z2.000~4 rapid X40.000 Z2.000~4 feed X40.000 Z-20.000 F0.2 rev~4 feed X50.000 Z-20.000 F0.2 rev~4 rapid X50.000 Z2.000~5 rapid X38.000 Z2.000~5 feed X38.000 Z-20.000 F0.2 rev~5 feed X50.000 Z-20.000 F0.2 rev~5 rapid X50.000 Z2.000~6 rapid X60.000 Z2.000~end~at X60.000 Z2.000~F 0.2~line 7 after 5 turns
%~O1~G00 X20. Z0~G02 X0 Z-10.01 I-10. K0 F0.1~M30~%~|3 rapid X20.000 Z0.000~4 cw X0.000 Z-10.010 I-10.000 K0.000 F0.1 rev~end~at X0.000 Z-10.010~G02~F 0.1~line 5 after 3 turns
%~O1~G00 X20. Z0~G02 X0 Z-10.011 I-10. K0 F0.1~M30~%~|3 rapid X20.000 Z0.000~alarm 42~at X20.000 Z0.000~line 4 after 2 turns
%~O1~G00 X0 Z0~G03 X0 Z-20. R10. F0.1~M30~%~|3 rapid X0.000 Z0.000~4 ccw X0.000 Z-20.000 R10.000 F0.1 rev~end~at X0.000 Z-20.000~G03~F 0.1~line 5 after 3 turns
%~O1~G00 X0 Z0~G03 X0 Z-20. R9.999 F0.1~M30~%~|3 rapid X0.000 Z0.000~alarm 42~line 4 after 2 turns
%~O1~G65 P1000 A1.~M30~O1000~IF [#1 GE 8] GOTO 9~G65 P1000 A[#1+1]~#101=#1~N9 M99~%~|end~#101 1~line 4 after 32 turns
%~O1~#1=7~G65 P9010 L2 A5.~M30~O9010~#102=#102*10+#1~#1=3~M99~%~|end~#1 7~#102 55~line 5 after 9 turns
%~O1~M98 P2~M30~O2~M98 P2~M99~%~|alarm 32~depth 8~in O2~line 6 after 9 turns
%~O1~G65 P1000 A1.~M30~O1000~IF [#1 GE 9] GOTO 9~G65 P1000 A[#1+1]~#101=#1~N9 M99~%~|alarm 32~depth 8~in O1000~#1 8~line 7 after 17 turns
%~O1~T0101~G00 X10.~#1=#5001~#2=#5021~M30~%~|3 tool T0101~4 rapid X9.000 Z0.000~end~at X9.000 Z0.000~T0101~offset 1~#1 10~#2 9~line 7 after 5 turns
%~O1~M98 P30203~M30~O203~M101~M99~%~|wait 101~wait 101~wait 101~end~line 4 after 8 turns
%~O1~#500=#500+1~M30~%~|reads #500~writes #500 11~end~line 4 after 2 turns
%~O1~G00 X10. Z5.~G01 Z-20. F0.2~M101~M30~%~|3 rapid X10.000 Z5.000~4 feed X10.000 Z-20.000 F0.2 rev~wait 101~end~at X10.000 Z-20.000~G01~F 0.2~line 6 after 4 turns
%~O1~WHILE [#1 LT 3] DO1~#1=#1+1~END1~M30~%~|end~#1 3~line 6 after 11 turns
%~O1~DO1~#1=#1+1~IF [#1 EQ 2] GOTO 9~END1~N9 M30~%~|end~#1 2~line 7 after 8 turns
%~O1~X1.~%~|3 rapid X1.000 Z0.000~alarm 63~at X1.000 Z0.000~line 3 after 2 turns
%~O1~%~|alarm 63~line 2 after 1 turns
%~O1~M98 P2~M30~O2~X1.~%~|6 rapid X1.000 Z0.000~alarm 63~at X1.000 Z0.000~depth 1~in O2~line 6 after 3 turns";

/// The tapes of a shop's pair, path 1's and then path 2's, as rows of the form of `ROWS`.
const PAIR: &str = "\
%~O0001 (UPPER TURRET)~N10 G21 G40 G97 G99~N20 G28 U0 W0~N30 G50 S2500~N40 T0101~N50 G97 S800 M03~N60 G00 X52. Z2. M08~N70 M101~N80 G90 X48. Z-30. F0.25~N90 X46.~N100 G00 X100. Z50. M09~N110 T0100~N120 M102~N130 M30~%~|4 rapid X200.000 Z150.000~4 rapid X300.000 Z200.000~5 limit S2500~6 tool T0101~7 speed G97 S800~7 aux M03~8 rapid X32.000 Z92.000~8 aux M08~wait 101~10 rapid X28.000 Z92.000~10 feed X28.000 Z60.000 F0.25 rev~10 feed X32.000 Z60.000 F0.25 rev~10 rapid X32.000 Z92.000~11 rapid X26.000 Z92.000~11 feed X26.000 Z60.000 F0.25 rev~11 feed X32.000 Z60.000 F0.25 rev~11 rapid X32.000 Z92.000~12 rapid X80.000 Z140.000~12 aux M09~13 tool T0100~wait 102~end~at X80.000 Z140.000~F 0.25~S 800~limit 2500~T0100~line 15 after 13 turns
%~O0002 (LOWER TURRET)~N10 G21 G40 G99~N20 G28 U0 W0~N30 T0202~N40 M101~N50 G97 S600 M03~N60 G00 X54. Z-10.~N70 G01 X40. F0.1~N80 G03 X46. Z-13. R3.~N90 G04 P500~N100 G00 X60.~N110 T0200~N120 M102~N130 M30~%~|4 rapid X200.000 Z150.000~4 rapid X300.000 Z200.000~5 tool T0202~wait 101~7 speed G97 S600~7 aux M03~8 rapid X44.000 Z95.000~9 feed X30.000 Z95.000 F0.1 rev~10 ccw X36.000 Z92.000 R3.000 F0.1 rev~11 dwell 500~12 rapid X50.000 Z92.000~13 tool T0200~wait 102~end~at X50.000 Z92.000~F 0.1~S 600~T0200~line 15 after 13 turns";

/// Runs the path's block and adds what it does, its moves behind the line of the block. Whether the
/// path goes on.
fn put_block(
    out: &mut String,
    alloc: Global,
    path: &mut PathState,
    flow: &Flow,
) -> Result<bool, AllocError> {
    let line = path.line(flow);
    let mut head = String::new(alloc);
    write!(&mut head, "{line} ")?;
    put_turn(out, head.as_str(), alloc, path, flow)
}

/// Lets the path run until it ends or raises an alarm, for a hundred blocks at most, and adds what
/// they do. How many blocks ran.
fn put_run(
    out: &mut String,
    alloc: Global,
    path: &mut PathState,
    flow: &Flow,
) -> Result<u8, AllocError> {
    for turn in 1..101u8 {
        if !put_block(out, alloc, path, flow)? {
            return Ok(turn);
        }
    }
    Ok(100)
}

/// Adds what the path does until it ends or raises an alarm, with the changes from the state
/// before, a line for each part.
fn put_told(
    out: &mut String,
    alloc: Global,
    path: &mut PathState,
    flow: &Flow,
    before: &str,
) -> Result<(), AllocError> {
    let turns = put_run(out, alloc, path, flow)?;
    put_changes(out, alloc, before, path)?;
    let line = path.line(flow);
    writeln!(out, "line {line} after {turns} turns")
}

/// What the path does until it ends or raises an alarm, on one line as a row has it.
fn told(alloc: Global, path: &mut PathState, flow: &Flow) -> Result<String, NoMemory> {
    let mut out = String::new(alloc);
    let before = state_of(alloc, path)?;
    put_told(&mut out, alloc, path, flow, before.as_str())?;
    Ok(on_one_line(alloc, out.as_str())?)
}

/// What the path does by the flow, from its start.
pub(crate) fn run(
    alloc: Global,
    flow: &Flow,
    settings: &Settings,
    path: Path,
) -> Result<String, NoMemory> {
    match PathState::new(alloc, flow, settings, path) {
        Ok(mut state) => told(alloc, &mut state, flow),
        Err(fail) => Err(fail),
    }
}

/// What the path does by the tape.
fn outcome(alloc: Global, settings: &Settings, text: &str, path: Path) -> Result<String, Fail> {
    let flow = flow_of(alloc, text, settings)?;
    Ok(run(alloc, &flow, settings, path)?)
}

/// Fails the test where the path does not do by the tape of a row what the row says.
fn row_holds(
    rt: &impl Abort,
    alloc: Global,
    settings: &Settings,
    row: &str,
    path: Path,
) -> Result<(), Fail> {
    let (text, wanted) = row.split_once('|').unwrap_or((row, ""));
    let got = outcome(alloc, settings, text, path)?;
    assert_eq!(rt; got.as_str(), wanted, "{text}");
    Ok(())
}

#[test]
fn a_tape_and_what_its_path_does(rt: HostRuntime) -> Result<(), Fail> {
    let alloc = rt.alloc();
    let settings = settings_of(alloc, "tool 1 1 X-1. Z0~")?;
    for row in ROWS.lines() {
        row_holds(&rt, alloc, &settings, row, Path::One)?;
    }
    Ok(())
}

#[test]
fn the_paths_of_a_pair_as_a_shop_has_it(rt: HostRuntime) -> Result<(), Fail> {
    let alloc = rt.alloc();
    let settings = settings_of(alloc, CELL)?;
    let mut rows = PAIR.lines();
    row_holds(&rt, alloc, &settings, rows.next().unwrap_or(""), Path::One)?;
    row_holds(&rt, alloc, &settings, rows.next().unwrap_or(""), Path::Two)
}
