//! Tests of the races of small pairs: a row for each way in which two paths may use one variable.
use crate::listing::{lines_of, listed};
use std::alloc::Global;
use std::test::Fail;

/// A row: `WHAT IT IS|TAPE OF PATH 1|TAPE OF PATH 2|SETTINGS|LIST`, in which `~` ends a line.
const ROWS: &str = "\
the races of two reads and writes|%~O1~#500=#500+1~M30~%~|%~O1~#500=#500+1~M30~%~||races 1~#500 after 0 path 1 line 3 path 2 line 3~
a wait between|%~O1~#500=1~M101~M30~%~|%~O1~M101~#1=#500~M30~%~||races 0~
before the wait|%~O1~#500=1~M101~M30~%~|%~O1~#1=#500~M101~M30~%~||races 1~#500 after 0 path 1 line 3 path 2 line 3~
behind the wait|%~O1~M101~#500=1~M30~%~|%~O1~M101~#1=#500~M30~%~||races 1~#500 after 1 path 1 line 4 path 2 line 4~
path 2 writes|%~O1~#1=#500~M30~%~|%~O1~X1.~#500=1~M30~%~||races 1~#500 after 0 path 2 line 4 path 1 line 3~
both write|%~O1~X1.~#501=1~M30~%~|%~O1~#501=2~M30~%~||races 1~#501 after 0 path 1 line 4 path 2 line 3~
both read|%~O1~#1=#500~M30~%~|%~O1~#1=#500~M30~%~||races 0~
a variable of its own|%~O1~#600=1~M30~%~|%~O1~#1=#600~M30~%~||races 0~
#100 is not shared|%~O1~#100=1~M30~%~|%~O1~#1=#100~M30~%~||races 0~
#100 is shared|%~O1~#100=1~#101=1~M30~%~|%~O1~#1=#100+#101~M30~%~|shared100 1~|races 1~#100 after 0 path 1 line 3 path 2 line 3~
the last that is shared|%~O1~#599=1~#600=1~M30~%~|%~O1~#1=#599+#600~M30~%~||races 1~#599 after 0 path 1 line 3 path 2 line 3~
behind THEN|%~O1~IF [#1 EQ 1] THEN #500=2~M30~%~|%~O1~#2=#500~M30~%~||races 1~#500 after 0 path 1 line 3 path 2 line 3~
in a condition|%~O1~#500=1~M30~%~|%~O1~IF [#500 GT 5] GOTO 10~N10 M30~%~||races 1~#500 after 0 path 1 line 3 path 2 line 3~
in a condition of a loop|%~O1~#500=1~M30~%~|%~O1~WHILE [#1 LT #500] DO1~#1=#1+1~END1~M30~%~||races 1~#500 after 0 path 1 line 3 path 2 line 3~
a computed left side|%~O1~#[#1]=1~M30~%~|%~O1~#2=#599~M30~%~||races 1~#599 after 0 path 1 line 3 path 2 line 3~
a computed variable that is read|%~O1~#510=1~M30~%~|%~O1~#2=#[#1+1]~M30~%~||races 1~#510 after 0 path 1 line 3 path 2 line 3~
a number that is computed from a number|%~O1~#501=1~M30~%~|%~O1~#1=#[500]~M30~%~||races 1~#501 after 0 path 1 line 3 path 2 line 3~
in a word|%~O1~#500=1~M30~%~|%~O1~G00 X#500~M30~%~||races 1~#500 after 0 path 1 line 3 path 2 line 3~
in brackets of a word|%~O1~#500=1~M30~%~|%~O1~G00 X1. Z[#1+#500]~M30~%~||races 1~#500 after 0 path 1 line 3 path 2 line 3~
an argument of a macro|%~O1~#500=1~M30~%~|%~O1~G65 P2 A#500~M30~O2~M99~%~||races 1~#500 after 0 path 1 line 3 path 2 line 3~
a computed jump|%~O1~#500=1~M30~%~|%~O1~GOTO #500~N10 M30~%~||races 1~#500 after 0 path 1 line 3 path 2 line 3~
a quiet program|%~O1~M98 P2~M30~O2~#500=1~M99~%~|%~O1~#1=#500~M30~%~||races 1~#500 after 0 path 1 line 6 path 2 line 3~
a quiet program in another part|%~O1~M101~M98 P2~M30~O2~#500=1~M99~%~|%~O1~#1=#500~M101~M30~%~||races 0~
a quiet program behind a wait|%~O1~M101~M98 P2~M30~O2~#500=1~M99~%~|%~O1~M101~#1=#500~M30~%~||races 1~#500 after 1 path 1 line 7 path 2 line 4~
a quiet macro that a quiet one calls|%~O1~G65 P2~M30~O2~G65 P3~M99~O3~#500=1~M99~%~|%~O1~#1=#500~M30~%~||races 1~#500 after 0 path 1 line 9 path 2 line 3~
a quiet program that calls itself|%~O1~M98 P2~M30~O2~M98 P2~#500=1~M99~%~|%~O1~#1=#500~M30~%~||races 1~#500 after 0 path 1 line 7 path 2 line 3~
a program that is never called|%~O1~M30~O2~#500=1~M99~%~|%~O1~#1=#500~M30~%~||races 0~
behind the end|%~O1~M30~#500=1~%~|%~O1~#1=#500~M30~%~||races 0~
a loop between waits|%~O1~M101~WHILE [#1 LT 3] DO1~#500=#1~#1=#1+1~END1~M102~M30~%~|%~O1~M101~#2=#500~M102~M30~%~||races 1~#500 after 1 path 1 line 5 path 2 line 4~
behind a loop between waits|%~O1~M101~WHILE [#1 LT 3] DO1~#500=#1~#1=#1+1~END1~M102~M30~%~|%~O1~M101~M102~#2=#500~M30~%~||races 0~
a jump over the write|%~O1~GOTO 10~#500=1~N10 M30~%~|%~O1~#1=#500~M30~%~||races 1~#500 after 0 path 1 line 4 path 2 line 3~
repeats with a wait|%~O1~M98 P2 L2~M30~O2~#500=1~M101~M99~%~|%~O1~M101~#1=#500~M101~M30~%~||races 1~#500 after 1 path 1 line 6 path 2 line 4~
behind the last of the repeats|%~O1~M98 P2 L2~M30~O2~#500=1~M101~M99~%~|%~O1~M101~M101~#1=#500~M30~%~||races 0~
behind the wait of a program that was called|%~O1~M98 P2~#500=1~M30~O2~M101~M99~%~|%~O1~M101~#1=#500~M30~%~||races 1~#500 after 1 path 1 line 4 path 2 line 4~
a path that begins anew|%~O1~#500=1~M101~M99~%~|%~O1~M101~#1=#500~M99~%~||races 1~#500 after 1 path 1 line 3 path 2 line 4~
the last part before the beginning|%~O1~M101~#500=1~M99~%~|%~O1~#1=#500~M101~M99~%~||races 1~#500 after 1 path 1 line 4 path 2 line 3~
a wait before each beginning|%~O1~#500=1~M101~M102~M99~%~|%~O1~M101~#1=#500~M102~M99~%~||races 0~
a beginning anew without a wait|%~O1~#500=1~M99~%~|%~O1~#1=#500~M99~%~||races 1~#500 after 0 path 1 line 3 path 2 line 3~
the least lines|%~O1~#500=1~#500=2~M30~%~|%~O1~X1.~#1=#500~#2=#500~M30~%~||races 1~#500 after 0 path 1 line 3 path 2 line 4~
path 1 before path 2|%~O1~X1.~X2.~#500=1~M30~%~|%~O1~#500=2~M30~%~||races 1~#500 after 0 path 1 line 5 path 2 line 3~
the fewest waits before path 1|%~O1~#1=#500~M101~#500=1~M30~%~|%~O1~#500=2~M101~#1=#500~M30~%~||races 1~#500 after 0 path 2 line 3 path 1 line 3~
two variables|%~O1~#502=1~#501=1~M30~%~|%~O1~#1=#501+#502~M30~%~||races 2~#501 after 0 path 1 line 4 path 2 line 3~#502 after 0 path 1 line 3 path 2 line 3~
behind two waits|%~O1~M101~#500=1~M102~#500=2~M30~%~|%~O1~M101~M102~#1=#500~M30~%~||races 1~#500 after 2 path 1 line 6 path 2 line 5~
a wait of the one path between|%~O1~M101~#500=1~M102~M30~%~|%~O1~#1=#500~M101~M102~M30~%~||races 0~
a macro that reads behind THEN|%~O1~#500=1~M30~%~|%~O1~G65 P2~M30~O2~IF [#1 EQ 0] THEN #3=#500~M99~%~||races 1~#500 after 0 path 1 line 3 path 2 line 6~
a loop that polls|%~O1~#500=1~M30~%~|%~O1~WHILE [#500 LT 3] DO1~M08~END1~M30~%~||races 1~#500 after 0 path 1 line 3 path 2 line 3~
a variable whose number is that of a local one|%~O1~#33=1~M30~%~|%~O1~#1=#33~M30~%~||races 0~
the greatest that settings share|%~O1~#999=1~M30~%~|%~O1~#1=#999~M30~%~|shared500 500~|races 1~#999 after 0 path 1 line 3 path 2 line 3~
none is shared|%~O1~#500=1~M30~%~|%~O1~#1=#500~M30~%~|shared500 0~|races 0~
two computed sides and two variables|%~O1~#[#1]=#[#2]~M30~%~|%~O1~#[#3]=1~M30~%~|shared500 2~|races 2~#500 after 0 path 1 line 3 path 2 line 3~#501 after 0 path 1 line 3 path 2 line 3~
a part of another path that is read in each round|%~O1~M98 P2 L3~#1=#500~M30~O2~M101~M99~%~|%~O1~M101~M101~M101~#500=1~M30~%~||races 1~#500 after 3 path 2 line 6 path 1 line 4~
a block with a slash whose switch is off|%~O1~/#500=1~M30~%~|%~O1~#1=#500~M30~%~||races 1~#500 after 0 path 1 line 3 path 2 line 3~
a block with a slash whose switch is on|%~O1~/#500=1~M30~%~|%~O1~#1=#500~M30~%~|skip 1 1~|races 0~
the line of the quiet program is less|%~O1~M98 P2~#500=3~M30~O2~#500=1~M99~%~|%~O1~#1=#500~M30~%~||races 1~#500 after 0 path 1 line 4 path 2 line 3~";

/// Whether the pair of a row has the races that the row says.
fn holds(alloc: Global, row: &str) -> Result<bool, Fail> {
    let mut parts = row.split('|');
    let _what = parts.next().ok_or("what it is")?;
    let left = lines_of(alloc, parts.next().ok_or("tape of path 1")?)?;
    let right = lines_of(alloc, parts.next().ok_or("tape of path 2")?)?;
    let settings = lines_of(alloc, parts.next().ok_or("settings")?)?;
    let wanted = lines_of(alloc, parts.next().ok_or("list")?)?;
    let got = listed(alloc, &left, &right, &settings)?;
    Ok(got.as_slice() == wanted.as_slice())
}

#[test]
fn the_races_of_a_pair(rt: HostRuntime) -> Result<(), Fail> {
    for row in ROWS.lines() {
        assert!(&rt; holds(rt.alloc(), row)?, "{row}");
    }
    Ok(())
}
