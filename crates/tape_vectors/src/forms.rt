//! Tests of block_forms: what a block says, that is its refusal, what it does to the order of
//! blocks, the call that it is, and what its codes mean.
use crate::tape::{first_block, read};
use block_forms::{Dialect, FlowBlock, FlowBody, read_block};
use code_tables::System;
use nc_number::Failing;
use nc_text::Block;
use std::alloc::{AllocError, Global};
use std::process::Abort;
use std::test::Fail;

/// How a tape is read by the settings of an empty text, with the G codes of this system.
fn dialect_of(system: System) -> Dialect {
    Dialect {
        low: 100,
        high: 197,
        bits: true,
        system,
    }
}

/// A block and the number of its refusal, 0 if it is accepted.
const REFUSALS: &str = "\
M101 G00|57
M101 P1|58
G20|56
M#1|54
M03 M08|59
X1. U1.|62
M98|61
M98 P30203 L2|61
M98 P0|64
M98 P-1|64
M98 P#1|54
M99 P0|64
M99 L2|61
M99 L#1|54
G65 X1.|61
G65 P1 K1. I1.|61
G65 P1 G00|56
X1. G65 P1|56
G65 P1 M#1|0
G65 P#1|54
G50|56
G50 S1000 X1.|56
G50 S1000|0
G53 U1.|56
G41|56
G1.5|56
G-1|56
G70|56
Q1|56
G10 P1 Q1 X1.|0
G10 L3 P1|64
G10 L#1 P1|54
G10 P1.5|64
G04 X-1.|64
G04 P100|0
G04 L1|61
P1|61
L1|61
G04 M98 P1|61
F-1.|64
S100000|64
S1.5|64
T10000|64
M1000|64
M1.5|64
X1.1234567|5
X[1+]|20
X[[[[[[1]]]]]]|21
X[COS[1]]|23
X#1X#1X#1X#1X#1X#1X#1X#1X#1X#1X#1X#1X#1X#1X#1X#1X#1X#1X#1X#1X#1X#1X#1X#1X#1X#1X#1X#1X#1X#1X#1X#1X#1|25
X[1+]Y1.1234567|5
IF 1 GOTO 5|22
DO4|24
GOTO 100000|64
A1|56
M101 M102|57
M101 P3|0
M101 P3 P1|58
M101 P#1|58
O#1|54
N#1|54
X1. Z-2. F0.2|0
G65 P1 A1. B2. X-3.|0
#1=[#2+1]*3|0
N5 M101|0
G53 X1.|0
G10 L2 P1 R1.|0
G65 P1 I1. J1. K1.|0
G65 P1 J1. J2.|61
G65 P1 L0|64
M98 P1 L10000|64
M99 G10 P1|61
G28 U0 W0|0
G04 X#1|0
G41 M#1 X1.1234567|5
G41 M#1|54
G41 M03 M08|56";

/// A block and what it does to the order of blocks.
const CONTROLS: &str = "\
M99|Back
M99 P20|BackTo(20)
M30|End
M101|Wait(101)
IF [#1 EQ 0] GOTO 90|Goto(Some(90))
GOTO #1|Goto(None)
WHILE [1 EQ 1] DO2|While(2)
DO1|Do(1)
END2|EndLoop(2)
#1=2|Next";

/// A block and the call that it is.
const CALLS: &str = "\
M98 P30203|Some(Called { program: 203, repeats: 3, kind: Subprogram })
M98 P203 L4|Some(Called { program: 203, repeats: 4, kind: Subprogram })
M98 P10000|Some(Called { program: 0, repeats: 1, kind: Subprogram })
G65 P1000 A1.|Some(Called { program: 1000, repeats: 1, kind: Macro })
G65 P1 P2|Some(Called { program: 2, repeats: 1, kind: Macro })
X1.|None";

/// A block of system A, and the group and the kind of its first G code, or the number of its
/// refusal.
const CODES_OF_A: &str = "\
G00|1 Rapid
G01|1 Feed
G02|1 ArcCw
G03|1 ArcCcw
G32|1 Thread
G90|1 CycleTurn
G92|1 CycleThread
G94|1 CycleFace
G96|2 Surface
G97|2 Spindle
G98|5 PerMin
G99|5 PerRev
G20|56
G21|6 Metric
G40|7 NoseOff
G41|56
G42|56
G54|14 Work
G55|14 Work
G56|14 Work
G57|14 Work
G58|14 Work
G59|14 Work
G04|0 Dwell
G10|0 Setting
G28|0 Home
G50 S1000|0 Limit
G53|0 Machine
G65 P1|0 MacroCall
G18|90 Idle
G67|90 Idle
G80|90 Idle
G33|56
G77|56
G78|56
G79|56
G91|56
G95|56
G92 X1. Z1.|1 CycleThread
G90 U1. W1.|1 CycleTurn
U1.|none
W1.|none";

/// A block of system B, and the group and the kind of its first G code, or the number of its
/// refusal.
const CODES_OF_B: &str = "\
G00|1 Rapid
G01|1 Feed
G02|1 ArcCw
G03|1 ArcCcw
G33|1 Thread
G77|1 CycleTurn
G78|1 CycleThread
G79|1 CycleFace
G96|2 Surface
G97|2 Spindle
G90|3 Absolute
G91|3 Incremental
G94|5 PerMin
G95|5 PerRev
G20|56
G21|6 Metric
G40|7 NoseOff
G41|56
G42|56
G54|14 Work
G55|14 Work
G56|14 Work
G57|14 Work
G58|14 Work
G59|14 Work
G04|0 Dwell
G10|0 Setting
G28|0 Home
G53|0 Machine
G65 P1|0 MacroCall
G92 S1000|0 Limit
G18|90 Idle
G67|90 Idle
G80|90 Idle
G32|56
G50|56
G50 S1000|56
G98|56
G99|56
G1.5|56
G-1|56
G65535|56
G65569|56
G#1|54
G32 M#1|54
X1.|none
U1.|56
W1.|56
U#1|56
X1. U1.|56
Z1. W1.|56
G01 U1.|56
G04 U1.|56
G04 X1.|0 Dwell
G10 P1 U1.|56
G10 P1 X1. Q1 R1.|0 Setting
G28 U0 W0|56
G28 X0 Z0|0 Home
G53 U1.|56
G53 W0|56
G53 X0|0 Machine
G91 G53 X0|3 Incremental
G65 P1 U1. W2.|0 MacroCall
G65 P1 G00|56
X1. G65 P1|56
G92|56
G92 X0 Z0|56
G92 S1000 X1.|56
G92 S1000 Z1.|56
G92 S1000 U1.|56
G92 S1000 F1.|0 Limit
G92 S100000|64
G90 G00 X50. Z2.|3 Absolute
G77 X40. Z-20. F0.2|1 CycleTurn
G91 G01 X-5. Z-1.|3 Incremental
G90 M98 P5|3 Absolute
G98 M98 P5|56
G04 M98 P1|61
G10 M99|61
G90 P1|61
M101 G90|57
M101 U1.|56
Q1|56";

/// The group and the kind of the first G code of a block, or `none`.
fn first_code(alloc: Global, body: &FlowBody) -> Result<String, AllocError> {
    let FlowBody::Words(words) = body else {
        return String::from_str(alloc, "none");
    };
    match words.rows.as_slice() {
        [row, ..] => format!(in alloc; "{} {:?}", row.group, row.kind),
        [] => String::from_str(alloc, "none"),
    }
}

/// What is asked of a block that is accepted.
fn said(alloc: Global, block: &FlowBlock, asked: &str) -> Result<String, AllocError> {
    match asked {
        "control" => format!(in alloc; "{:?}", block.control),
        "call" => format!(in alloc; "{:?}", block.calls()),
        "codes" => first_code(alloc, &block.body),
        _ => String::from_str(alloc, "0"),
    }
}

/// What is asked of a block of that system, or the number of its refusal.
fn answer(alloc: Global, system: System, block: &Block, asked: &str) -> Result<String, AllocError> {
    match read_block(alloc, block, &dialect_of(system)) {
        Ok(block) => said(alloc, &block, asked),
        Err(Failing::Fault(fault)) => format!(in alloc; "{}", fault.number),
        Err(Failing::NoMemory) => String::from_str(alloc, "no memory"),
    }
}

/// What is asked of the first block of a tape.
fn answer_in(alloc: Global, system: System, text: &str, asked: &str) -> Result<String, AllocError> {
    match read(alloc, text) {
        Ok(tape) => match first_block(&tape) {
            Some(block) => answer(alloc, system, block, asked),
            None => String::from_str(alloc, "no block"),
        },
        Err(_) => String::from_str(alloc, "no tape"),
    }
}

/// Whether the block of a row says what the row wants.
fn holds(alloc: Global, system: System, asked: &str, row: &str) -> Result<bool, AllocError> {
    let (block, wanted) = row.split_once('|').unwrap_or((row, ""));
    let text = format!(in alloc; "%~O1~{block}~M30~%~")?;
    let got = answer_in(alloc, system, text.as_str(), asked)?;
    Ok(got.as_str() == wanted)
}

/// Whether all rows of a table hold.
fn all_hold(
    rt: &impl Abort,
    alloc: Global,
    system: System,
    asked: &str,
    rows: &str,
) -> Result<(), Fail> {
    for row in rows.lines() {
        assert!(rt; holds(alloc, system, asked, row)?, "{row}");
    }
    Ok(())
}

#[test]
fn what_a_block_says(rt: HostRuntime) -> Result<(), Fail> {
    all_hold(&rt, rt.alloc(), System::A, "refusal", REFUSALS)?;
    all_hold(&rt, rt.alloc(), System::A, "control", CONTROLS)?;
    all_hold(&rt, rt.alloc(), System::A, "call", CALLS)?;
    all_hold(&rt, rt.alloc(), System::B, "control", CONTROLS)?;
    all_hold(&rt, rt.alloc(), System::B, "call", CALLS)
}

#[test]
fn what_the_codes_of_each_system_mean(rt: HostRuntime) -> Result<(), Fail> {
    all_hold(&rt, rt.alloc(), System::A, "codes", CODES_OF_A)?;
    all_hold(&rt, rt.alloc(), System::B, "codes", CODES_OF_B)
}
