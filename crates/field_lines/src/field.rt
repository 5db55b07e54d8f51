//! Fields of a line, and the whole numbers and paths in them; lengths are in length.rt.
ghost use Rattle.std.specs.Prelude.{◌≡◌, ◌-◌, ◌^◌, ◌<◌, ◌≤◌, min, IfOk, IfSome};
ghost use Rattle.field_lines.specs.Field.{texts, fields_of, value_of, is_number, number_in, path_of};
ghost use Rattle.std.specs.Char.{is_ascii_digit};
ghost use Rattle.std.specs.List.{list_all};

use nc_number::Path;
use std::alloc::{AllocError, Global};

/// The fields of a line, which blanks separate, without the blanks. The only error is out of
/// memory.
pub(crate) fn fields(alloc: Global, line: &[u8]) -> Result<Vec<&[u8]>, AllocError>
    ensures { IfOk result (λ v. texts v.items ≡ fields_of line.now) }
{
    line.split(|b| *b == b' ')
        .filter(|field| !field.is_empty())
        .collect(alloc)
}

/// Whether each byte is a decimal digit.
fn are_digits(text: &[u8]) -> bool
    ensures { result ≡ list_all is_ascii_digit text.now }
{
    text.iter().all(|b| b.is_ascii_digit())
}

/// Whether the text is decimal digits without a leading zero.
fn is_number(text: &[u8]) -> bool
    ensures { result ≡ is_number text.now }
{
    !text.is_empty() && are_digits(text) && !(text.len() > 1 && text[0] == b'0')
}

/// The number that digits spell, or the largest `u64` if that number is larger.
fn value(digits: &[u8]) -> u64
    ensures { result ≡ min (value_of digits.now) (2 ^ 64 - 1) }
{
    let mut n = 0u64;
    for digit in digits {
        n = n
            .saturating_mul(10)
            .saturating_add(u64::from(digit.saturating_sub(b'0')));
    }
    n
}

/// The number of a field, from `low` to `high`: decimal digits, without a sign and without a
/// leading zero; none for any other text.
#[tactic(auto, unfolding(crate::specs::Field::number_in))]
pub fn number_in(low: u32, high: u32, text: &[u8]) -> Option<u32>
    ensures value { result ≡ number_in low high text.now }
    ensures range { IfSome result (λ n. (low ≤ n) × (n ≤ high)) }
{
    if !is_number(text) {
        return None;
    }
    let n = value(text);
    if u64::from(low) <= n && n <= u64::from(high) {
        Some(n as u32)
    } else {
        None
    }
}

/// The path that a field names, `1` or `2`; none for any other text.
#[tactic(auto, unfolding(crate::specs::Field::path_of))]
pub fn read_path(text: &[u8]) -> Option<Path>
    ensures { result ≡ path_of text.now }
{
    if text == b"1".as_slice() {
        Some(Path::One)
    } else if text == b"2".as_slice() {
        Some(Path::Two)
    } else {
        None
    }
}
