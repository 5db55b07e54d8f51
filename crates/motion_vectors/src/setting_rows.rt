//! Tests of cell_settings: texts of the settings of the cell, and what they say or at which line
//! they are refused.
use crate::words::{count, lines_of, point};
use cell_settings::{Preset, PresetKind, Settings, read_settings};
use code_tables::System;
use nc_number::{Failing, Point};
use std::alloc::Global;
use std::test::Fail;

/// A text, in which `~` stands for the end of a line, and the line that is refused, or what it
/// says: nothing for `taken`. `wear` says that there are two opening offsets, of wear the first,
/// and where the second is.
const ROWS: &str = "\
wait 100 197~shared100 101~|line 2
place 1 X100000.~|line 1
records 0~|line 1
|taken
~  \r~(a comment~   (another)~|taken
wait 100 999|taken
wait 99 197|line 1
wait 150 149|line 1
wait 100 1000|line 1
wait 100|line 1
wait 100 197 1|line 1
Wait 100 197|line 1
wait\t100 197|line 1
wait 0100 197|line 1
wait +100 197|line 1
wait 100 197\r|line 1
wait 100 197\r\r~|line 1
(a \r comment~|line 1
  wait   100   197  \r~|taken
shared100 100~shared500 500~shared500 501~|line 3
paths bits~paths numbers~paths both~|line 3
skip 1 1~skip 2 9~skip 3 1~|line 3
skip 1 0|line 1
skip 1 10|line 1
skip 01 1|line 1
place 1 X1 Z2~home 2 X-1. Z+.5~|taken
place 1 Z2 X1|line 1
place 1 x1 Z2|line 1
place 1 X1 Z|line 1
place 1 X1|line 1
place 1 X1 Z2 X3|line 1
place 1 X99999.9994 Z0|taken
place 1 X99999.9995 Z0|line 1
place 1 X0 Z-99999.9995|line 1
place 1 X99999999 Z-99999999|taken
place 1 X100000000 Z0|line 1
place 1 X1.1234567 Z0|line 1
home 1 X000000000000001 Z0|taken
work 1 0 X1 Z1~work 1 54 X1 Z1~work 2 59 X1 Z1~work 1 53 X1 Z1~|line 4
work 1 60 X1 Z1|line 1
work 1 1 X1 Z1|line 1
tool 1 1 X1 Z1~tool 2 64 X1 Z1~tool 1 65 X1 Z1~|line 3
tool 1 0 X1 Z1|line 1
wear 1 64 X1 Z1~wear 1 0 X1 Z1~|line 2
records 4000000~records 4000001~|line 2
records 99999999999999999999999999|line 1
codes A|codes A
codes B|codes B
codes A~codes B~|codes B
codes B~codes A~|codes A
codes B~paths numbers~codes B~|codes B, bits 0
  codes   B  \r~|codes B
codes C|line 1
codes b|line 1
codes AB|line 1
codes|line 1
codes A B|line 1
Codes B|line 1
codes B~codes 1~|line 2
paths bits ( comment|line 1
|low 100, high 197, shared100 0, shared500 100, bits 1, codes A, skip1 0, skip2 0, place1 X0 Z0, place2 X0 Z0, home1 X0 Z0, home2 X0 Z0, records 4000000, presets 0
wait 100 110~wait 120 130~skip 1 1~skip 1 9~skip 1 1~skip 2 2~tool 1 3 X1. Z2.~wear 1 3 X.5 Z0~place 1 X1 Z1~place 1 X2 Z-2.0005~paths numbers~records 10~records 20~shared100 7~shared500 8~tool 1 3 X3. Z4.~|low 120, high 130, skip1 514, skip2 4, place1 X0.002 Z-2.001, place2 X0 Z0, bits 0, records 20, shared100 7, shared500 8, presets 2, wear X3. Z4.";

/// The number that the settings have under the name.
fn number(settings: &Settings, name: &str) -> u64 {
    match name {
        "low" => u64::from(settings.wait_low),
        "high" => u64::from(settings.wait_high),
        "shared100" => u64::from(settings.shared100),
        "shared500" => u64::from(settings.shared500),
        "bits" => u64::from(settings.bits),
        "skip1" => u64::from(settings.skips[0]),
        "skip2" => u64::from(settings.skips[1]),
        "records" => u64::from(settings.records),
        _ => settings.presets.as_slice().len() as u64,
    }
}

/// The point of the second of two opening offsets, if the first is of wear.
fn behind_wear(presets: &[Preset]) -> Option<Point> {
    match presets {
        [first, second] if first.kind == PresetKind::Wear => Some(second.to),
        _ => None,
    }
}

/// The point that the settings have under the name; of two opening offsets, of which the first is
/// of wear, that of the second.
fn place(settings: &Settings, name: &str) -> Option<Point> {
    match name {
        "place1" => Some(settings.place[0]),
        "place2" => Some(settings.place[1]),
        "home1" => Some(settings.home[0]),
        "home2" => Some(settings.home[1]),
        "wear" => behind_wear(settings.presets.as_slice()),
        _ => None,
    }
}

/// The system of codes of this letter.
fn system_named(letter: &str) -> System {
    if letter == "B" { System::B } else { System::A }
}

/// Whether the settings have the value that the text says, under its name.
fn says(settings: &Settings, what: &str) -> bool {
    let (name, words) = what.split_once(' ').unwrap_or((what, ""));
    if name == "codes" {
        return settings.system == system_named(words);
    }
    match place(settings, name) {
        Some(at) => at == point(words),
        None => number(settings, name) == count(words),
    }
}

/// Whether the settings have all values that a row says.
fn says_all(settings: &Settings, wanted: &str) -> bool {
    for what in wanted.split(", ") {
        if what != "taken" && !says(settings, what) {
            return false;
        }
    }
    true
}

/// Whether this is the refused line that a row wants.
fn is_line(line: u32, wanted: &str) -> bool {
    match wanted.strip_prefix("line ") {
        Some(number) => u64::from(line) == count(number),
        None => false,
    }
}

/// Whether the text of a row reads as the row says.
fn row_holds(alloc: Global, row: &str) -> Result<bool, Fail> {
    let (text, wanted) = row.split_once('|').unwrap_or((row, ""));
    let text = lines_of(alloc, text)?;
    if text.len() > 1_000 {
        return Ok(false);
    }
    Ok(match read_settings(alloc, text.as_slice()) {
        Ok(settings) => says_all(&settings, wanted),
        Err(Failing::Fault(fault)) => is_line(fault.line, wanted),
        Err(Failing::NoMemory) => false,
    })
}

#[test]
fn what_a_text_of_settings_says(rt: HostRuntime) -> Result<(), Fail> {
    for row in ROWS.lines() {
        assert!(&rt; row_holds(rt.alloc(), row)?, "{row}");
    }
    Ok(())
}
