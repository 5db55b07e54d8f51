//! Tests of open_forms: what a block does to the order of blocks if nothing else that it says is
//! looked into, or its refusal.
use crate::tape::{first_block, read};
use block_forms::Dialect;
use code_tables::System;
use nc_text::Block;
use open_forms::open_control;
use std::alloc::{AllocError, Global};
use std::process::Abort;
use std::test::Fail;

/// System A; the waiting codes are 100 to 197, and P names the paths by bits.
const BITS: Dialect = Dialect {
    low: 100,
    high: 197,
    bits: true,
    system: System::A,
};

/// System A; 198 and 199 are waiting codes too, and P names the paths by their numbers.
const NUMBERS: Dialect = Dialect {
    low: 100,
    high: 199,
    bits: false,
    system: System::A,
};

/// System B; the waiting codes are 100 to 197, and P names the paths by bits.
const SYSTEM_B: Dialect = Dialect {
    low: 100,
    high: 197,
    bits: true,
    system: System::B,
};

/// A block, and its control or the number of its refusal.
const BLOCKS: &str = "\
M98 P1000|Call { program: 1000, repeats: 1 }
M98 P203 L4|Call { program: 203, repeats: 4 }
M98 P30203|Call { program: 203, repeats: 3 }
M98 P10000|Call { program: 0, repeats: 1 }
M98 P2 P3|Call { program: 3, repeats: 1 }
M98|61
M98 P30203 L2|61
M98 P0|64
M98 P-1|64
M98 P1.5|64
M98 P#1|54
M98 P1 L#1|54
M98 P1 L0|64
M98 P1 L10000|64
M98 P1 Q5|56
M98 P1 H1|56
M98 P1 J1|56
M98 P1 C0.|Call { program: 1, repeats: 1 }
M98 P1 B0. A90.|Call { program: 1, repeats: 1 }
M98 P1 X#1|Call { program: 1, repeats: 1 }
M98 P1 S100000|Call { program: 1, repeats: 1 }
G54.1 P1 M98 P2|56
G30 P2 M98 P1|56
M98 P1 G04|61
M98 P1 G10 L2|61
M98 M03 P1|59
M98 M99 P1|59
G00 X1. M98 P5|Call { program: 5, repeats: 1 }
G98 M98 P5|Call { program: 5, repeats: 1 }
G90 M98 P5|Call { program: 5, repeats: 1 }
G91 M98 P5|56
G95 M98 P5|56
G77 X1. M98 P5|56
G33 M99|56
G65 P1000 A1.|Call { program: 1000, repeats: 1 }
G65 P1 L3|Call { program: 1, repeats: 3 }
G65 P1 P2|Call { program: 2, repeats: 1 }
N5 G65 P1|Call { program: 1, repeats: 1 }
G65 X1.|61
G65 P#1|54
G65 P1 L#1|54
G65 P10000|64
G65 P1 L0|64
G65 P1 M101|Call { program: 1, repeats: 1 }
G65 P1 M#1|Call { program: 1, repeats: 1 }
G65 P1 M30|Call { program: 1, repeats: 1 }
G65 P1 M96|Call { program: 1, repeats: 1 }
G65 P1 G00|56
X1. G65 P1|56
G65 P1 N#1|54
G65 P1 K1. I1.|Call { program: 1, repeats: 1 }
G65 P1 A[TAN[#1]]|Call { program: 1, repeats: 1 }
G65 P1 X1.1234567|Call { program: 1, repeats: 1 }
G65 P1.1234567|5
G65.1 P1|56
G66 P1|56
G66.1 P1|56
G66 G65 P1|56
G67|Next
G68|56
G69|56
G72.1 P1 L2|56
G72.2 P1|56
G10 L50|56
G10 L50.0000000|5
G10 L51|56
G10 L52|56
G10 L#1 P1|54
G10 L2 P1 X0.|Next
G10 L3 P1|Next
G11|Next
M96 P100|56
M97|56
M198 P1|56
M96 M3|56
G71 U2. R0.5|Next
G71 P10 Q20 U0.4 W0.1 F0.3|Goto(Some(20))
G72 P10 Q20|Goto(Some(20))
G73 P10 Q30 U1.|Goto(Some(30))
G73 U5. W2. R3|Next
G70 P10 Q20|Next
G70|61
G70 P10|61
G71 P10|61
G71 Q20|61
G71 P10 Q20 P30|61
G00 G71 P10 Q20|61
G71 P#1 Q20|54
G71 P10 Q#1|54
G70 P10 Q[#1]|54
G71 P0 Q20|64
G71 P10 Q100000|64
G71 P10.5 Q20|64
G71 P123456789 Q2|5
G71 P10 Q20 S#1|Goto(Some(20))
G74 R1.|Next
G74 Z-50. Q5000 F0.1|Next
G75 R0.5|Next
G76 P021060 Q100 R0.05|Next
G76 X18.2 Z-25. P900 Q300 F1.5|Next
G83 Z-20. R5. P500 Q3000 F0.1|Next
G41|Next
G42 X1.|Next
G20|Next
G12.1|Next
G54.1 P3|Next
G1.5|Next
G103|Next
M3 M8|Next
M3 M8 M51|Next
M00|Next
M1000|Next
B90.|Next
C45. H1.|Next
Y1.|Next
A1|Next
Q1|Next
E1.|Next
X123456789.|Next
X1.1234567|Next
S100000|Next
T10000|Next
F-1.|Next
X1. U1.|Next
X[TAN[#1]]|Next
X[1+]|Next
X[[[[[[1]]]]]]|Next
X#1X#1X#1X#1X#1X#1X#1X#1X#1X#1X#1X#1X#1X#1X#1X#1X#1X#1X#1X#1X#1X#1X#1X#1X#1X#1X#1X#1X#1X#1X#1X#1X#1|Next
P1|Next
L1|Next
G04 L1|Next
G04 X-1.|Next
G50|Next
G53 U1.|Next
N10|Next
G31 X1.|Next
G-1|56
G#1|54
M#1|54
N#1|54
O#1|54
M1.5|64
M-1|64
M123456789|5
G1.1234567|5
M30|End
M02|End
M2|End
M30 X1.|End
G70 P10 Q20 M30|56
G71 P10 Q20 M02|56
G71 U2. M30|End
M30 M8|59
M8 M30|59
M02 M30|59
M98 P1 M30|59
M99|Back
M99 P20|BackTo(20)
M99 X1.|Back
M99 L2|61
M99 P0|64
M99 P100000|64
M99 P#1|54
M99 L#1|54
M99 Q1|56
M99 G04|61
M99 G10 P1|61
G54.1 P1 M99|56
M100|Wait(100)
M197|Wait(197)
M101 P3|Wait(101)
M101.|Wait(101)
N5 M101|Wait(101)
M101 P1 P3|Wait(101)
M101 P3 P1|58
M101 P1|58
M101 P12|58
M101 P#1|58
M101 X1.|57
M101 G00|57
M101 M102|57
M101 M8|57
M101 M30|57
M101 L2|57
M101 F#1|57
M98 M101 P1|57
M98 M101 P#1|54
M101 G68|56
#1=2|Next
#1=[#2+1]*3|Next
#1=TAN[#2]|Next
#1=5 MOD 3|Next
#1=PRM[8110]|Next
#1=[#2|Next
#1=2 M30|20
#1=2 G65 P1|20
#1=[#2] M98 P1|20
#1=#2 X5|Next
#3000=1|Next
#3006=1|Next
#1=5 MOD 3 M30|20
GOTO 5|Goto(Some(5))
GOTO 00005|Goto(Some(5))
GOTO #1|Goto(None)
GOTO [#1+5]|Goto(None)
GOTO 100000|64
GOTO 123456789|5
GOTO 5.|20
GOTO -5|20
IF [#1 EQ 0] GOTO 90|Goto(Some(90))
IF [#1 GT [#2+1]] GOTO 7|Goto(Some(7))
IF [[#1 EQ 0] AND [#2 EQ 1]] GOTO 7|Goto(Some(7))
IF [#1 EQ 0] GOTO #2|Goto(None)
IF 1 GOTO 5|22
IF [#1 EQ 0 GOTO 5|22
IF [#1 EQ 0] THEN #2=1|Next
IF [#1 EQ 0] THEN GOTO 5|20
IF [#1 EQ 0] M30|20
IF [#1 EQ 0] THEN #2=1 M30|20
IF [[#1] GOTO 5] GOTO 8|Goto(Some(8))
WHILE [#1 LT 5] DO1|While(1)
WHILE [TAN[#1] LT 5] DO3|While(3)
WHILE [1 EQ 1] DO4|24
WHILE [#1 LT 5]|20
WHILE 1 DO1|22
DO1|Do(1)
DO0|24
END2|EndLoop(2)
END4|24";

/// A block, and its control or the number of its refusal, if 198 is a waiting code and P names the
/// paths by their numbers.
const BLOCKS_BY_NUMBERS: &str = "\
M198|Wait(198)
M198 P12|Wait(198)
M100 P12|Wait(100)
M100 P21|Wait(100)
M100 P3|58
M100 P1|58
M96|56
M97|56
M198 X1.|57";

/// A block, and its control or the number of its refusal, in system B: beside a call its own codes
/// alone are known.
const BLOCKS_OF_B: &str = "\
G90 M98 P5|Call { program: 5, repeats: 1 }
G91 M98 P5|Call { program: 5, repeats: 1 }
G95 M98 P5|Call { program: 5, repeats: 1 }
G77 X1. M98 P5|Call { program: 5, repeats: 1 }
G92 S100 M98 P5|Call { program: 5, repeats: 1 }
G32 M98 P5|56
G50 M98 P5|56
G98 M98 P5|56
G99 M98 P5|56
G33 M99|Back
G32 M99|56
M98 P1 U1. W1.|Call { program: 1, repeats: 1 }
M98 P1 Q5|56
M98 P1 G04|61
M99 G10 P1|61
G65 P1 U1. W1.|Call { program: 1, repeats: 1 }
G65 P1 G90|56
X1. G65 P1|56
G71 P10 Q20 U0.4 W0.1 F0.3|Goto(Some(20))
G70 P10 Q20|Next
G66 P1|56
G68|56
G32 Z1.|Next
G50 S1000|Next
G98|Next
G92|Next
G53 U1.|Next
U1. W1.|Next
G91 G53 X0|Next
M101 G90|57
M101 U1.|57
M30|End";

/// The control of a block, or the number of its refusal.
fn answer(alloc: Global, block: &Block, dialect: &Dialect) -> Result<String, AllocError> {
    match open_control(block, dialect) {
        Ok(control) => format!(in alloc; "{control:?}"),
        Err(fault) => format!(in alloc; "{}", fault.number),
    }
}

/// The answer for the first block of a tape.
fn answer_in(alloc: Global, text: &str, dialect: &Dialect) -> Result<String, AllocError> {
    match read(alloc, text) {
        Ok(tape) => match first_block(&tape) {
            Some(block) => answer(alloc, block, dialect),
            None => String::from_str(alloc, "no block"),
        },
        Err(_) => String::from_str(alloc, "no tape"),
    }
}

/// Whether the block of a row does what the row wants.
fn holds(alloc: Global, dialect: &Dialect, row: &str) -> Result<bool, AllocError> {
    let (block, wanted) = row.split_once('|').unwrap_or((row, ""));
    let text = format!(in alloc; "%~O1~{block}~M30~%~")?;
    let got = answer_in(alloc, text.as_str(), dialect)?;
    Ok(got.as_str() == wanted)
}

/// Whether all rows of a table hold.
fn all_hold(rt: &impl Abort, alloc: Global, dialect: &Dialect, rows: &str) -> Result<(), Fail> {
    for row in rows.lines() {
        assert!(rt; holds(alloc, dialect, row)?, "{row}");
    }
    Ok(())
}

#[test]
fn what_a_block_does_to_the_order_of_blocks(rt: HostRuntime) -> Result<(), Fail> {
    all_hold(&rt, rt.alloc(), &BITS, BLOCKS)?;
    all_hold(&rt, rt.alloc(), &NUMBERS, BLOCKS_BY_NUMBERS)?;
    all_hold(&rt, rt.alloc(), &SYSTEM_B, BLOCKS_OF_B)
}
