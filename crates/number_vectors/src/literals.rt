//! Tests of nc_number, by rows worked by hand: what literals say, and how values and lengths are
//! printed. values.rt takes `number`, which reads the numbers of rows.

use nc_number::{Literal, Value, is_literal, length_text, parse_word, text, to_increment};

/// `CALL LITERAL = COUNT`: the value in millionths, how many points the literal has, its length in
/// increments, its time in thousandths, the whole number, and the same of its value alone:
/// increments `nearest` to it, and whole `units`. A `bare` literal is one with that value and
/// without a point.
const READ: &str = "\
value 0 = 0
value 1.5 = 1500000
value -.5 = -500000
value +5. = 5000000
value 007 = 7000000
value -0 = 0
value .000001 = 1
value 00000000000012345678 = 12345678000000
value 0000000000.5 = 500000
value 99999999.999999 = 99999999999999
value -99999999.999999 = -99999999999999
value 123456789 = TooManyDigits
value -100000000. = TooManyDigits
value .0000001 = TooManyDigits
value 1.0000000 = TooManyDigits
points 0 = 0
points 1.5 = 1
points -.5 = 1
points +5. = 1
points 007 = 0
points -0 = 0
points .000001 = 1
points 00000000000012345678 = 0
points 0000000000.5 = 1
points 99999999.999999 = 1
points -99999999.999999 = 1
value  = no literal
value + = no literal
value . = no literal
value -. = no literal
value 1.2.3 = no literal
value 1- = no literal
value +-1 = no literal
value 1  = no literal
value 1e5 = no literal
increments 50. = 50000
increments 50 = 50
increments -20.25 = -20250
increments -0 = 0
increments .0004 = 0
increments .000499 = 0
increments .0005 = 1
increments -.000499 = 0
increments -.0005 = -1
increments 1.000499 = 1000
increments 1.0005 = 1001
increments -1.0005 = -1001
increments 2.000000 = 2000
increments -2.000001 = -2000
increments 99999.9994 = 99999999
increments 99999.9995 = 100000000
increments 99999999 = 99999999
increments -99999999 = -99999999
increments 99999999. = 99999999000
increments 99999999.999499 = 99999999999
increments 99999999.999999 = 100000000000
increments -99999999.999999 = -100000000000
thousandths 50. = 50000
thousandths 50 = 50
thousandths -20.25 = -20250
thousandths -0 = 0
thousandths .0004 = 0
thousandths .000499 = 0
thousandths .0005 = 1
thousandths -.000499 = 0
thousandths -.0005 = -1
thousandths 1.000499 = 1000
thousandths 1.0005 = 1001
thousandths -1.0005 = -1001
thousandths 2.000000 = 2000
thousandths -2.000001 = -2000
thousandths 99999.9994 = 99999999
thousandths 99999.9995 = 100000000
thousandths 99999999 = 99999999
thousandths -99999999 = -99999999
thousandths 99999999. = 99999999000
thousandths 99999999.999499 = 99999999999
thousandths 99999999.999999 = 100000000000
thousandths -99999999.999999 = -100000000000
whole 50. = 50
whole 50 = 50
whole -20.25 = none
whole -0 = 0
whole .0004 = none
whole .000499 = none
whole .0005 = none
whole -.000499 = none
whole -.0005 = none
whole 1.000499 = none
whole 1.0005 = none
whole -1.0005 = none
whole 2.000000 = 2
whole -2.000001 = none
whole 99999.9994 = none
whole 99999.9995 = none
whole 99999999 = 99999999
whole -99999999 = -99999999
whole 99999999. = 99999999
whole 99999999.999499 = none
whole 99999999.999999 = none
whole -99999999.999999 = none
increments 1.5 = 1500
bare 1.5 = 2
bare_value 1.5 = 1500000
nearest 0 = 0
nearest 0.000499 = 0
nearest -0.000499 = 0
nearest 0.0005 = 1
nearest -0.0005 = -1
nearest 0.0025 = 3
nearest -0.0025 = -3
nearest 1 = 1000
nearest 99999999.999999 = 100000000000
nearest -99999999.999999 = -100000000000
units 0 = 0
units -1 = -1
units 0.999999 = none
units 1.000001 = none
units 99999999 = 99999999
units -99999999 = -99999999
units 99999999.999999 = none";

/// `COUNT UNIT = TEXT`: how so many millionths, units or increments are printed as a value, and
/// thousandths as a length.
const PRINTED: &str = "\
0 millionths = 0
1000000 millionths = 1
1500000 millionths = 1.5
250000 millionths = 0.25
-250000 millionths = -0.25
333333 millionths = 0.333333
100 millionths = 0.0001
-1 millionths = -0.000001
99999999999999 millionths = 99999999.999999
-99999999999999 millionths = -99999999.999999
100000000000000 millionths = none
-100000000000000 millionths = none
9223372036854775807 millionths = none
-9223372036854775808 millionths = none
0 units = 0
-1 units = -1
99999999 units = 99999999
-99999999 units = -99999999
100000000 units = none
-100000000 units = none
99999999999 units = none
-99999999999 units = none
100000000000 units = none
-100000000000 units = none
9223372036854775807 units = none
-9223372036854775808 units = none
0 increments = 0
-1 increments = -0.001
99999999 increments = 99999.999
-99999999 increments = -99999.999
100000000 increments = 100000
-100000000 increments = -100000
99999999999 increments = 99999999.999
-99999999999 increments = -99999999.999
100000000000 increments = none
-100000000000 increments = none
9223372036854775807 increments = none
-9223372036854775808 increments = none
0 thousandths = 0.000
1 thousandths = 0.001
5000 thousandths = 5.000
-500 thousandths = -0.500
-12345 thousandths = -12.345
99999999 thousandths = 99999.999
9223372036854775807 thousandths = 9223372036854775.807
-9223372036854775808 thousandths = -9223372036854775.808";

/// The number that the text writes.
pub(crate) fn number(text: &str) -> Option<Value> {
    let digits = text.as_bytes();
    if !is_literal(digits) {
        return None;
    }
    Some(parse_word(digits).ok()?.value())
}

/// The count that the call of this name answers.
fn counted(call: &str, literal: Literal) -> Option<Option<i64>> {
    let value = literal.value();
    let bare = Literal {
        value,
        point: false,
    };
    Some(match call {
        "value" => Some(value.micro()),
        "points" => Some(i64::from(literal.point)),
        "increments" => Some(literal.increments()),
        "thousandths" => Some(literal.thousandths()),
        "bare" => Some(bare.increments()),
        "bare_value" => Some(bare.value().micro()),
        "nearest" => Some(to_increment(value)),
        "whole" => literal.whole(),
        "units" => value.whole(),
        _ => return None,
    })
}

/// Whether that is the count that the text writes, or `none`.
fn is_count(count: Option<i64>, wanted: &str) -> bool {
    match count {
        Some(count) => wanted.parse::<i64>() == Ok(count),
        None => wanted == "none",
    }
}

/// Whether the literal of the row says what the row wants; none if the row can not be read.
fn is_read(row: &str) -> Option<bool> {
    let (question, wanted) = row.split_once(" = ")?;
    let (call, digits) = question.split_once(' ')?;
    if !is_literal(digits.as_bytes()) {
        return Some(wanted == "no literal");
    }
    Some(match parse_word(digits.as_bytes()) {
        Ok(literal) => is_count(counted(call, literal)?, wanted),
        Err(fault) => fault.cause().name() == wanted,
    })
}

#[test]
fn each_literal_says_its_counts(rt: HostRuntime) {
    for row in READ.lines() {
        assert!(rt; is_read(row) == Some(true), "{row}");
    }
}

/// Prints the count into the room, and answers the size of the text.
fn printed(count: i64, unit: &str, room: &mut [u8; 24]) -> Option<usize> {
    let value = match unit {
        "millionths" => Value::of(count),
        "units" => Value::of_units(count),
        "increments" => Value::of_increments(count),
        "thousandths" => return Some(length_text(count, room)),
        _ => None,
    };
    Some(text(value?, room))
}

/// Whether the count of the row is printed as the row wants; none if the row can not be read.
fn is_printed(row: &str) -> Option<bool> {
    let (question, wanted) = row.split_once(" = ")?;
    let (count, unit) = question.split_once(' ')?;
    let mut room = [0; 24];
    let size = printed(count.parse::<i64>().ok()?, unit, &mut room);
    Some(match size {
        Some(size) => room.get(..size)? == wanted.as_bytes(),
        None => wanted == "none",
    })
}

#[test]
fn each_count_has_its_text(rt: HostRuntime) {
    for row in PRINTED.lines() {
        assert!(rt; is_printed(row) == Some(true), "{row}");
    }
}
