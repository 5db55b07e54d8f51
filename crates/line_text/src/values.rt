//! What may stand after an address letter of a tape: a literal, a variable or an expression in
//! brackets. words.rt checks the value of each word with it, line.rt a sequence number.
ghost use Rattle.std.specs.Prelude.{◌≡◌, ◌+◌, ◌^◌, ◌<◌, ◌≤◌, length, IfSome};
ghost use Rattle.std.specs.Char.{is_ascii_digit};
ghost use Rattle.std.specs.List.{list_all};
ghost use Rattle.nc_number.specs.Literals.{IsLiteral, is_sign, behind_sign, has_too_many_digits};
ghost use Rattle.line_text.specs.Pieces.{depth_behind};
ghost use Rattle.line_text.specs.Values.{closes, is_variable, is_reference, is_value, in_range, number_in, digits_len, fraction_len, sign_len, unsigned_len, number_front, has_long_front};

use crate::cut::depth_behind;
use nc_number::{is_literal, parse_word};

/// Whether the one bracket that is open before the text closes at its very end and not before.
fn closes(text: &[u8]) -> bool
    requires { length text.now < 2 ^ 32 }
    ensures { result ≡ closes text.now 1 }
{
    let mut depth = 1usize;
    let mut at = 0usize;
    for byte in text {
        at += 1;
        if *byte == b']' && depth == 1 {
            return at == text.len();
        }
        depth = depth_behind(depth, *byte);
    }
    false
}

/// Whether the bytes are digits alone: the number of a variable has neither sign nor point.
fn are_digits(text: &[u8]) -> bool
    ensures { result ≡ list_all is_ascii_digit text.now }
{
    text.iter().all(|b| b.is_ascii_digit())
}

/// Whether the text is what may follow `#`: digits, or an expression in brackets.
fn is_variable(text: &[u8]) -> bool
    requires { length text.now < 2 ^ 32 }
    ensures { result ≡ is_variable text.now }
{
    match text {
        [] => false,
        [first, rest @ ..] => {
            if *first == b'[' {
                closes(rest)
            } else {
                are_digits(text)
            }
        }
    }
}

/// Whether the text is a variable, or an expression in brackets.
fn is_reference(text: &[u8]) -> bool
    requires { length text.now < 2 ^ 32 }
    ensures { result ≡ is_reference text.now }
{
    match text {
        [] => false,
        [first, rest @ ..] => {
            if *first == b'#' {
                is_variable(rest)
            } else {
                *first == b'[' && closes(rest)
            }
        }
    }
}

/// Whether the byte is a plus or a minus.
fn is_sign(byte: u8) -> bool
    ensures { result ≡ is_sign byte }
{
    byte == b'+' || byte == b'-'
}

/// A text without the one sign that it may begin with.
fn behind_sign(text: &[u8]) -> &[u8]
    ensures value { result.now ≡ behind_sign text.now }
    ensures short { length result.now ≤ length text.now }
{
    match text {
        [] => text,
        [first, rest @ ..] => { if is_sign(*first) { rest } else { text } }
    }
}

/// Whether the text is a literal, or a variable or bracketed expression with or without a sign.
pub(crate) fn is_value(text: &[u8]) -> bool
    requires { length text.now < 2 ^ 32 }
    ensures { result ≡ is_value text.now }
{
    is_literal(text) || is_reference(behind_sign(text))
}

/// Whether a literal has more than 8 whole digits, zeros in front not counted, or more than 6 after
/// the point.
pub(crate) fn has_too_many_digits(text: &[u8]) -> bool
    requires { IsLiteral text.now }
    ensures { result ≡ has_too_many_digits text.now }
{
    parse_word(text).is_err()
}

/// How many digits a text begins with.
fn digits_len(text: &[u8]) -> usize
    ensures count { result ≡ digits_len text.now }
    ensures within { result ≤ length text.now }
{
    text.iter().take_while(|b| b.is_ascii_digit()).count()
}

/// The length of a point and the digits after it, or 0 if the text begins with no point.
fn fraction_len(text: &[u8]) -> usize
    ensures count { result ≡ fraction_len text.now }
    ensures within { result ≤ length text.now }
{
    match text {
        [] => 0,
        [first, rest @ ..] => {
            if *first == b'.' {
                1 + digits_len(rest)
            } else {
                0
            }
        }
    }
}

/// The length of digits, and of a point and the digits after it.
fn unsigned_len(text: &[u8]) -> usize
    ensures count { result ≡ unsigned_len text.now }
    ensures within { result ≤ length text.now }
{
    let digits = digits_len(text);
    let (_, rest) = text.split_at(digits);
    digits + fraction_len(rest)
}

/// 1 if a text begins with a plus or a minus, else 0.
fn sign_len(text: &[u8]) -> usize
    ensures count { result ≡ sign_len text.now }
    ensures within { result ≤ length text.now }
{
    match text {
        [] => 0,
        [first, ..] => { if is_sign(*first) { 1 } else { 0 } }
    }
}

/// The longest beginning of a text that is a sign or none, digits, and a point with digits or none.
fn number_front(text: &[u8]) -> &[u8]
    ensures { result.now ≡ number_front text.now }
{
    let sign = sign_len(text);
    let (_, rest) = text.split_at(sign);
    let (front, _) = text.split_at(sign + unsigned_len(rest));
    front
}

/// Whether a text begins with a literal of too many digits.
pub(crate) fn has_long_front(text: &[u8]) -> bool
    ensures { result ≡ has_long_front text.now }
{
    let front = number_front(text);
    is_literal(front) && has_too_many_digits(front)
}

/// The number `n`, if there is one and it is from low to high.
fn in_range(low: u32, high: u32, n: Option<i64>) -> Option<u32>
    ensures value { result ≡ in_range low high n }
    ensures range { IfSome result (λ n. n ≤ high) }
{
    let n = n?;
    if i64::from(low) <= n && n <= i64::from(high) {
        Some(n as u32)
    } else {
        None
    }
}

/// The whole number that a literal writes, if it is in the range.
#[tactic(auto, unfolding(crate::specs::Values::number_in))]
pub(crate) fn number_in(low: u32, high: u32, text: &[u8]) -> Option<u32>
    requires { IsLiteral text.now }
    ensures value { result ≡ number_in low high text.now }
    ensures range { IfSome result (λ n. n ≤ high) }
{
    match parse_word(text) {
        Ok(literal) => in_range(low, high, literal.whole()),
        Err(_) => None,
    }
}
