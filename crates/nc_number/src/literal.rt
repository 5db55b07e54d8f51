//! The literals of a tape: when a text is one, what it writes, and what it counts for a length or a
//! time.
ghost use Rattle.std.specs.Prelude.{◌≡◌, ◌==◌, ◌^◌, ◌<◌, ◌≤◌, not, length, position, IsTrue, IfSome, unsigned_abs};
ghost use Rattle.std.specs.List.{before_first, after_first};
ghost use Rattle.std.specs.Str.Parse.{digits_value};
ghost use Rattle.nc_number.specs.declared.limits.TheConstants.{LARGEST_MICRO, LARGEST_WHOLE, LONGEST_SAID};
ghost use Rattle.nc_number.specs.Literals.{IsLiteral, is_literal, is_point, all_digits, behind_sign, has_minus, has_point, significant, size_of_parts, word_literal};

use crate::fault::NumberFault;
use crate::rounding::{MICRO_IN_INCREMENT, MICRO_IN_UNIT, nearest_quotient};
use crate::value::Value;

/// The number that a literal of the tape writes, in whole units, and whether it has a point.
///
/// What a number without a point counts depends on its address; the calls below say it.
#[derive(Clone, Copy, Debug, PartialEq, Eq)]
pub struct Literal {
    /// The number in whole units.
    pub value: Value,
    /// Whether it has a decimal point; a number that a block computes counts as having one.
    pub point: bool,
}

impl Literal {
    ghost use Rattle.nc_number.specs.Arithmetic.{whole_of};
    ghost use Rattle.nc_number.specs.Conversions.{thousandths_of};

    /// The number in whole units, with a point or without: a feed, or a number of an expression.
    pub fn value(&self) -> Value
        ensures { result ≡ self.now.value }
    {
        self.value
    }

    /// The whole number that it is, where its fraction is 0; it may have a point.
    pub fn whole(&self) -> Option<i64>
        ensures value { result ≡ whole_of self.now.value }
        ensures range { IfSome result (λ n. unsigned_abs n ≤ LARGEST_WHOLE) }
    {
        self.value.whole()
    }

    /// A length in 0.001 mm: a literal with a point is in mm, and one without counts 0.001 mm;
    /// rounded to the nearest, halves away from zero.
    pub fn increments(&self) -> i64
        ensures count { result ≡ thousandths_of self.now }
        ensures range { unsigned_abs result ≤ LONGEST_SAID }
    {
        self.thousandths()
    }

    /// A time in 0.001 s: a literal with a point is in seconds, and one without counts 0.001 s;
    /// rounded to the nearest, halves away from zero.
    pub fn thousandths(&self) -> i64
        ensures count { result ≡ thousandths_of self.now }
        ensures range { unsigned_abs result ≤ LONGEST_SAID }
    {
        let micro = self.value.wide();
        let thousandth = if self.point {
            MICRO_IN_INCREMENT
        } else {
            MICRO_IN_UNIT
        };
        nearest_quotient(micro, thousandth) as i64
    }
}

/// Digits before the point, without the zeros at the front.
const WHOLE_DIGITS: usize = 8;

/// Digits after the point.
const FRACTION_DIGITS: usize = 6;

/// Millionths in a unit.
const MILLION: u64 = 1_000_000;

/// The text without the sign that it may begin with.
pub fn unsigned(text: &[u8]) -> &[u8]
    ensures { result.now ≡ behind_sign text.now }
{
    match text {
        [b'+' | b'-', rest @ ..] => rest,
        _ => text,
    }
}

/// Whether the text begins with a minus.
fn is_negative(text: &[u8]) -> bool
    ensures { result ≡ has_minus text.now }
{
    matches!(text, [b'-', ..])
}

/// The place of the first point.
fn point_at(digits: &[u8]) -> Option<usize>
    ensures { result ≡ position is_point digits.now }
{
    digits.iter().position(|b| *b == b'.')
}

/// What stands before the first point, and what stands after it.
fn parts(digits: &[u8]) -> (&[u8], &[u8])
    ensures whole { result.0.now ≡ before_first is_point digits.now }
    ensures fraction { result.1.now ≡ after_first is_point digits.now }
{
    match point_at(digits) {
        Some(at) => {
            let (whole, _) = digits.split_at(at);
            let (_, fraction) = digits.split_at(at + 1);
            (whole, fraction)
        }
        None => (digits, &[]),
    }
}

/// Whether all bytes are digits.
fn are_digits(bytes: &[u8]) -> bool
    ensures { result ≡ all_digits bytes.now }
{
    bytes.iter().all(|b| b.is_ascii_digit())
}

/// Whether the text is a literal: an optional sign, digits, and optionally a point and digits,
/// with at least one digit in all.
pub fn is_literal(text: &[u8]) -> bool
    ensures { result ≡ is_literal text.now }
{
    let (whole, fraction) = parts(unsigned(text));
    are_digits(whole) && are_digits(fraction) && !(whole.is_empty() && fraction.is_empty())
}

/// The place of the first digit that is not 0.
fn first_significant(digits: &[u8]) -> Option<usize>
    ensures { result ≡ position (λ d. not (d == 48)) digits.now }
{
    digits.iter().position(|b| *b != b'0')
}

/// The digits without the zeros that they begin with.
fn without_leading_zeros(digits: &[u8]) -> &[u8]
    ensures { result.now ≡ significant digits.now }
{
    match first_significant(digits) {
        Some(at) => {
            let (_, rest) = digits.split_at(at);
            rest
        }
        None => &[],
    }
}

/// The number that these digits write, of which there are at most 8.
#[tactic(auto, using(crate::proofs::DecimalDigits::digit_byte, crate::proofs::DecimalDigits::value_more, crate::proofs::DecimalDigits::part_below))]
fn number(digits: &[u8]) -> u64
    requires digits_alone { IsTrue (all_digits digits.now) }
    requires short { length digits.now ≤ 8 }
    ensures value { result ≡ digits_value 10 digits.now }
    ensures bound { result < 10 ^ length digits.now }
{
    let mut sum: u64 = 0;
    for digit in digits {
        sum = sum * 10 + u64::from(*digit - b'0');
    }
    sum
}

/// The millionths that the digits before and after a point write.
#[tactic(auto, using(crate::proofs::DecimalDigits::size_below))]
fn millionths(whole: &[u8], fraction: &[u8]) -> u64
    requires whole_digits { IsTrue (all_digits whole.now) }
    requires whole_short { length whole.now ≤ 8 }
    requires fraction_digits { IsTrue (all_digits fraction.now) }
    requires fraction_short { length fraction.now ≤ 6 }
    ensures value { result ≡ size_of_parts whole.now fraction.now }
    ensures bound { result ≤ LARGEST_MICRO }
{
    let scale = 10u64.pow((FRACTION_DIGITS - fraction.len()) as u32);
    number(whole) * MILLION + number(fraction) * scale
}

/// The number that a literal of the tape writes.
///
/// It fails exactly where the literal has more than 8 whole digits, the zeros in front not
/// counted, or more than 6 digits after the point.
pub fn parse_word(text: &[u8]) -> Result<Literal, NumberFault>
    requires { IsLiteral text.now }
    ensures { result ≡ word_literal text.now }
{
    let (whole, fraction) = parts(unsigned(text));
    let whole = without_leading_zeros(whole);
    if whole.len() > WHOLE_DIGITS || fraction.len() > FRACTION_DIGITS {
        return Err(NumberFault::TooManyDigits);
    }
    let size = millionths(whole, fraction);
    Ok(Literal {
        value: Value::signed(size, is_negative(text)),
        point: text.contains(&b'.'),
    })
}
