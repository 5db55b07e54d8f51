//! Tests of modal_state and code_tables: what the blocks of a tape leave in force. The rows are
//! worked by hand from the rules of the control.
use crate::move_text::is_alarm;
use crate::words::{behind, count, position, small, value};
use code_tables::{CodeKind, Row, System, WORK_GROUP, row_of_code};
use modal_state::{Modal, ModalWords, SpeedWord};
use nc_number::Var;
use std::alloc::Global;
use std::test::Fail;

/// What a block says, the alarm of its F, S and T, and what is then in force: the code of a group,
/// `feed`, `speed`, `limit`, `tool`, `offset`, `work` and `cycle`; whether X and Z are
/// `incremental` or `absolute`, F is `per-rev` or `per-min`, and S a `surface` speed or
/// `spindle`'s. `new` begins a tape of a system, `codes` are those of one block in a system, `work
/// code` is one that no table has, and `cycle` lets a cycle end there.
const ROWS: &str = "\
new A||01 G0, 02 G97, 03 none, 05 G99, 06 G21, 07 G40, 14 G54, 00 none, 90 none, absolute, per-rev, spindle
codes A 0 96 98 55 90||01 G90, 02 G96, 03 none, 05 G98, 06 G21, 07 G40, 14 G55, 00 none, 90 none, absolute, per-min, surface
new A||work 1
codes A 54||work 1
codes A 55||work 2
codes A 58||work 5
codes A 59||work 6
codes A 0||work 6
work-code 53||work 6
work-code 60||work 6
new A||cycle
codes A 90||cycle
cycle X40. Z-20.||cycle X40. Z-20.
codes A 99 0 90 4||cycle X40. Z-20.
codes A 94||cycle
new A||tool 0
words T101||tool 101, offset 1
words T64||tool 64, offset 64
words T9964||tool 9964, offset 64
words T300||tool 300, offset 0
words T0||tool 0, offset 0
words T65|alarm 40|tool 0, offset 0
words T165|alarm 40|tool 0, offset 0
words T9999|alarm 40|tool 0, offset 0
new A||limit
words F2 S150||speed S150, limit
words G50 S2000||speed S150, limit S2000
words T101||speed S150, limit S2000
words F3 S99 T65|alarm 40|feed F2, tool 101
new B||01 G0, 02 G97, 03 G90, 05 G95, 06 G21, 07 G40, 14 G54, 00 none, 90 none, absolute, per-rev, spindle
new B||feed, speed, limit, cycle, tool 0, offset 0, work 1
codes B 91 77 94 96 59||01 G77, 02 G96, 03 G91, 05 G94, 14 G59, incremental, per-min, surface, work 6
codes B 4 18 21||01 G77, 03 G91, 06 G21, incremental, per-min, surface
cycle X40. Z-20.||cycle X40. Z-20.
codes B 92 95||01 G77, 03 G91, 05 G95, incremental, per-rev, cycle X40. Z-20.
codes B 91 90||03 G90, absolute, cycle X40. Z-20.
codes B 90 91||03 G91, incremental, cycle X40. Z-20.
codes B 97 33||01 G33, 02 G97, 03 G91, incremental, spindle, cycle
codes B 90 78 91 79||01 G79, 03 G91, incremental
words F2 S150 T6464||feed F2, speed S150, tool 6464, offset 64, 03 G91, incremental
new A||03 none, absolute
codes A 90||01 G90, 03 none, absolute
codes A 92 98||01 G92, 05 G98, per-min
codes A 94 99||01 G94, 05 G99, per-rev";

/// What a word says, in whole units.
fn said(words: &str, letter: char) -> Var {
    match value(words, letter) {
        Some(number) => Var::Is(number),
        None => Var::Vacant,
    }
}

/// The code in force of a group.
fn is_code(modal: &Modal, group: &str, code: &str) -> bool {
    let in_force = modal.code(group.parse::<u8>().unwrap_or(u8::MAX));
    in_force == behind(code, 'G').map(|number| small(number))
}

/// Whether what the text says is in force.
fn is_in_force(modal: &Modal, what: &str) -> bool {
    let (name, words) = what.split_once(' ').unwrap_or((what, ""));
    match name {
        "feed" => modal.feed() == said(words, 'F'),
        "speed" => modal.speed() == said(words, 'S'),
        "limit" => modal.limit() == said(words, 'S'),
        "tool" => u64::from(modal.tool()) == count(words),
        "offset" => u64::from(modal.offset()) == count(words),
        "work" => u64::from(modal.work()) == count(words),
        "cycle" => modal.cycle() == position(words),
        "incremental" => modal.is_incremental(),
        "absolute" => !modal.is_incremental(),
        "per-rev" => modal.is_per_revolution(),
        "per-min" => !modal.is_per_revolution(),
        "surface" => modal.is_surface_speed(),
        "spindle" => !modal.is_surface_speed(),
        _ => is_code(modal, name, words),
    }
}

/// Whether the block's F, S and T are taken, or refused by this alarm, and then change nothing.
fn takes(modal: &mut Modal, words: &str, wanted: &str) -> bool {
    let before = *modal;
    let speed = said(words, 'S');
    let taken = modal.take_values(&ModalWords {
        feed: said(words, 'F'),
        speed: if words.starts_with("G50") {
            SpeedWord::Limit(speed)
        } else {
            SpeedWord::Speed(speed)
        },
        tool: behind(words, 'T').map(|digits| small(digits)),
    });
    match taken {
        Ok(()) => wanted.is_empty(),
        Err(fault) => is_alarm(fault.number, wanted) && *modal == before,
    }
}

/// The system of codes of this letter.
fn system_named(letter: &str) -> System {
    if letter == "B" { System::B } else { System::A }
}

/// The rows of these codes, behind the letter of their system.
fn rows_of(alloc: Global, words: &str) -> Result<Vec<Row>, Fail> {
    let (letter, codes) = words.split_once(' ').unwrap_or((words, ""));
    let system = system_named(letter);
    let mut rows = Vec::new(alloc);
    for code in codes.split(' ') {
        match row_of_code(system, small(code)) {
            Some(row) => rows.push(row)?,
            None => return Err(Fail::new("a code of the system")),
        }
    }
    Ok(rows)
}

/// Lets the block be, and says whether its alarm is as wanted.
fn step(alloc: Global, modal: &mut Modal, block: &str, wanted: &str) -> Result<bool, Fail> {
    let (name, words) = block.split_once(' ').unwrap_or((block, ""));
    match name {
        "new" => *modal = Modal::for_system(system_named(words)),
        "codes" => modal.take(rows_of(alloc, words)?.as_slice()),
        "work-code" => modal.take(&[Row {
            code: small(words),
            group: WORK_GROUP,
            kind: CodeKind::Work,
        }]),
        "cycle" => modal.set_cycle(position(words)),
        _ => return Ok(takes(modal, words, wanted)),
    }
    Ok(true)
}

/// Lets the block of a row be, and says whether its alarm and what is then in force are as wanted.
fn row_holds(alloc: Global, modal: &mut Modal, row: &str) -> Result<bool, Fail> {
    let mut parts = row.split('|');
    let block = parts.next().unwrap_or("");
    let alarm = parts.next().unwrap_or("");
    if !step(alloc, modal, block, alarm)? {
        return Ok(false);
    }
    for what in parts.next().unwrap_or("").split(", ") {
        if !is_in_force(modal, what) {
            return Ok(false);
        }
    }
    Ok(true)
}

#[test]
fn what_blocks_leave_in_force(rt: HostRuntime) -> Result<(), Fail> {
    let mut modal = Modal::for_system(System::A);
    for row in ROWS.lines() {
        assert!(&rt; row_holds(rt.alloc(), &mut modal, row)?, "{row}");
    }
    Ok(())
}
