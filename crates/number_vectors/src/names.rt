//! Tests of what numbers stand for: causes and paths (nc_number), variables (common_vars), and G
//! codes of both systems (code_tables).

use code_tables::{
    ABSOLUTE_GROUP, CodeKind, FEED_GROUP, MOTION_GROUP, NOSE_GROUP, System, WORK_GROUP,
    row_of_code, system_a, system_b,
};
use common_vars::variable_of;
use nc_number::NumberFault::NotWhole;
use nc_number::{Cause, Path};
use std::alloc::{AllocError, Global};

/// `NOUN NUMBER = WHAT IT STANDS FOR`, or `none`: a cause by its number and name; the place of a
/// path and the number of the one beside it; a variable and what can be done with it; by the letter
/// of its system the kind and the group of a code, and whether the control refuses it, or it is an
/// arc or a cycle.
const NAMES: &str = "\
cause 1 = 1 Overflow
cause 5 = 5 TooManyDigits
cause 6 = none
cause 9 = none
cause 10 = 10 BadCharacter
cause 17 = 17 TapeTooLong
cause 18 = none
cause 20 = 20 BadExpression
cause 25 = 25 TooManyVariables
cause 26 = none
cause 30 = 30 VariableRange
cause 33 = 33 MacroAlarm
cause 40 = 40 OffsetNumber
cause 41 = 41 PositionRange
cause 44 = 44 FeedZero
cause 45 = none
cause 50 = 50 NoSequence
cause 54 = 54 NotFixed
cause 55 = none
cause 56 = 56 UnknownCode
cause 66 = 66 WaitTooDeep
cause 67 = none
cause 70 = 70 TooManyLabels
cause 71 = none
cause 72 = 72 WaitMismatch
cause 74 = 74 WaitDiffers
cause 80 = 80 BadRecord
cause 85 = 85 JournalFull
cause 86 = none
cause 90 = 90 BadSetting
cause 91 = 91 BadEdit
cause 92 = 92 BadZone
cause 93 = 93 BadCycle
cause 94 = 94 TooLarge
cause 95 = 95 NoMeeting
cause 96 = 96 NotPlain
cause 97 = none
cause 0 = none
cause 255 = none
path 1 = place 0, beside 2
path 2 = place 1, beside 1
path 0 = none
path 3 = none
variable 0 = Null, read
variable 1 = Local(1), read and write
variable 33 = Local(33), read and write
variable 34 = none
variable 99 = none
variable 100 = Common(100), read and write
variable 199 = Common(199), read and write
variable 200 = none
variable 499 = none
variable 500 = Common(500), read and write
variable 999 = Common(999), read and write
variable 1000 = none
variable 2999 = none
variable 3000 = Raise, write
variable 3001 = none
variable 4000 = none
variable 4001 = Code(1), read
variable 4002 = Code(2), read
variable 4003 = Code(3), read
variable 4004 = none
variable 4005 = Code(5), read
variable 4006 = Code(6), read
variable 4007 = Code(7), read
variable 4008 = none
variable 4013 = none
variable 4014 = Code(14), read
variable 4015 = none
variable 4108 = none
variable 4109 = Feed, read
variable 4110 = none
variable 4118 = none
variable 4119 = Speed, read
variable 4120 = Tool, read
variable 4121 = none
variable 5000 = none
variable 5001 = Programmed(X), read
variable 5002 = Programmed(Z), read
variable 5003 = none
variable 5020 = none
variable 5021 = Machine(X), read
variable 5022 = Machine(Z), read
variable 5023 = none
variable 5200 = none
variable 5201 = Work(0, X), read and write
variable 5202 = Work(0, Z), read and write
variable 5203 = none
variable 5220 = none
variable 5221 = Work(1, X), read and write
variable 5222 = Work(1, Z), read and write
variable 5242 = Work(2, Z), read and write
variable 5261 = Work(3, X), read and write
variable 5320 = none
variable 5321 = Work(6, X), read and write
variable 5322 = Work(6, Z), read and write
variable 5323 = none
variable 5341 = none
variable 9999 = none
variable 4294967295 = none
code A 0 = Rapid of group 1
code A 1 = Feed of group 1
code A 2 = ArcCw of group 1, arc
code A 3 = ArcCcw of group 1, arc
code A 32 = Thread of group 1
code A 90 = CycleTurn of group 1, cycle
code A 92 = CycleThread of group 1, cycle
code A 94 = CycleFace of group 1, cycle
code A 96 = Surface of group 2
code A 97 = Spindle of group 2
code A 98 = PerMin of group 5
code A 99 = PerRev of group 5
code A 20 = Inch of group 6, refused
code A 21 = Metric of group 6
code A 40 = NoseOff of group 7
code A 41 = NoseOn of group 7, refused
code A 42 = NoseOn of group 7, refused
code A 54 = Work of group 14
code A 55 = Work of group 14
code A 56 = Work of group 14
code A 57 = Work of group 14
code A 58 = Work of group 14
code A 59 = Work of group 14
code A 4 = Dwell of group 0
code A 10 = Setting of group 0
code A 28 = Home of group 0
code A 50 = Limit of group 0
code A 53 = Machine of group 0
code A 65 = MacroCall of group 0
code A 18 = Idle of group 90
code A 67 = Idle of group 90
code A 80 = Idle of group 90
code A 33 = none
code A 77 = none
code A 78 = none
code A 79 = none
code A 91 = none
code A 95 = none
code A 70 = none
code B 0 = Rapid of group 1
code B 1 = Feed of group 1
code B 2 = ArcCw of group 1, arc
code B 3 = ArcCcw of group 1, arc
code B 33 = Thread of group 1
code B 77 = CycleTurn of group 1, cycle
code B 78 = CycleThread of group 1, cycle
code B 79 = CycleFace of group 1, cycle
code B 96 = Surface of group 2
code B 97 = Spindle of group 2
code B 90 = Absolute of group 3
code B 91 = Incremental of group 3
code B 94 = PerMin of group 5
code B 95 = PerRev of group 5
code B 20 = Inch of group 6, refused
code B 21 = Metric of group 6
code B 40 = NoseOff of group 7
code B 41 = NoseOn of group 7, refused
code B 42 = NoseOn of group 7, refused
code B 54 = Work of group 14
code B 55 = Work of group 14
code B 56 = Work of group 14
code B 57 = Work of group 14
code B 58 = Work of group 14
code B 59 = Work of group 14
code B 4 = Dwell of group 0
code B 10 = Setting of group 0
code B 28 = Home of group 0
code B 53 = Machine of group 0
code B 65 = MacroCall of group 0
code B 92 = Limit of group 0
code B 18 = Idle of group 90
code B 67 = Idle of group 90
code B 80 = Idle of group 90
code B 32 = none
code B 50 = none
code B 98 = none
code B 99 = none
code B 70 = none
code B 71 = none
code B 9 = none
code B 65535 = none";

/// What a cause of this number stands for: its number and its name, or `none`.
fn cause_text(alloc: Global, number: u8) -> Result<String, AllocError> {
    match Cause::of_number(number) {
        Some(cause) => format!(in alloc; "{} {}", cause.number(), cause.name()),
        None => format!(in alloc; "none"),
    }
}

/// What a path of this number stands for: its place, and the number of the other path.
fn path_text(alloc: Global, number: u8) -> Result<String, AllocError> {
    match Path::of_number(number) {
        Some(path) => {
            format!(in alloc; "place {}, beside {}", path.index(), path.other().number())
        }
        None => format!(in alloc; "none"),
    }
}

/// What a variable of this number stands for, and what a block can do with it.
fn variable_text(alloc: Global, number: u32) -> Result<String, AllocError> {
    match variable_of(number) {
        Some(variable) => {
            let access = match (variable.is_readable(), variable.is_protected()) {
                (true, true) => "read",
                (true, false) => "read and write",
                (false, false) => "write",
                (false, true) => "nothing",
            };
            format!(in alloc; "{variable:?}, {access}")
        }
        None => format!(in alloc; "none"),
    }
}

/// The G code system of this letter: A, unless it is B.
fn system_named(letter: &str) -> System {
    if letter == "B" { System::B } else { System::A }
}

/// What a code stands for; `words` are the letter of its system and its number.
fn code_text(alloc: Global, words: &str) -> Result<String, AllocError> {
    let (letter, number) = words.split_once(' ').unwrap_or((words, ""));
    let code = number.parse::<u16>().unwrap_or(u16::MAX);
    match row_of_code(system_named(letter), code) {
        Some(row) => {
            let kind = row.kind;
            format!(in alloc; "{kind:?} of group {}{}", row.group, traits(kind))
        }
        None => format!(in alloc; "none"),
    }
}

/// What marks a kind of code: that it is refused, an arc or a cycle.
fn traits(kind: CodeKind) -> &'static str {
    match (kind.is_refused(), kind.is_arc(), kind.is_cycle()) {
        (false, false, false) => "",
        (true, false, false) => ", refused",
        (false, true, false) => ", arc",
        (false, false, true) => ", cycle",
        _ => ", of two kinds",
    }
}

/// Whether a row is true; none if it can not be read.
fn holds(alloc: Global, row: &str) -> Option<bool> {
    let (question, wanted) = row.split_once(" = ")?;
    let (noun, number) = question.split_once(' ')?;
    let text = match noun {
        "cause" => cause_text(alloc, number.parse::<u8>().ok()?),
        "path" => path_text(alloc, number.parse::<u8>().ok()?),
        "variable" => variable_text(alloc, number.parse::<u32>().ok()?),
        "code" => code_text(alloc, number),
        _ => return None,
    };
    Some(text.ok()?.as_str() == wanted)
}

#[test]
fn each_number_stands_for_what_it_names(rt: HostRuntime) {
    for row in NAMES.lines() {
        assert!(rt; holds(rt.alloc(), row) == Some(true), "{row}");
    }
    assert!(rt; NotWhole.number() == 4);
}

#[test]
fn the_last_code_of_a_group_counts(rt: HostRuntime) {
    let table = system_a();
    let known = (0..1_000u16).filter(|code| table.find(*code).is_some());
    assert!(rt; known.count() == 32);
    let codes = [0, 90, 99, 1, 41, 70];
    let groups = [MOTION_GROUP, FEED_GROUP, NOSE_GROUP, WORK_GROUP];
    let last = groups.map(|group| table.group_last(&codes, group).unwrap_or(0));
    assert!(rt; last == [1, 99, 41, 0]);
}

#[test]
fn the_last_code_of_a_group_of_system_b_counts(rt: HostRuntime) {
    let table = system_b();
    let known = (0..1_000u16).filter(|code| table.find(*code).is_some());
    assert!(rt; known.count() == 34);
    let codes = [90, 77, 95, 91, 99, 1, 58, 94];
    let groups = [MOTION_GROUP, ABSOLUTE_GROUP, FEED_GROUP, WORK_GROUP];
    let last = groups.map(|group| table.group_last(&codes, group).unwrap_or(0));
    assert!(rt; last == [1, 91, 94, 58]);
}
