//! The numbers that words write out.
ghost use Rattle.std.specs.Prelude.{◌≡◌, ◌≤◌, IfSome, pos, unsigned_abs};
ghost use Rattle.nc_number.specs.declared.limits.TheConstants.{LONGEST_SAID, LARGEST_WHOLE};
ghost use Rattle.cycle_words.specs.Numbers.{length_said, length_or, natural, count_said, count_or, value_said, place_said, is_said};

use nc_number::Value;
use nc_text::Word;
use plain_form::{Said, last_said};

/// The length in 0.001 mm that the last word of a letter writes out, if there is one.
pub fn length_said(words: &[Word], letter: u8) -> Option<i64>
    ensures length { result ≡ length_said letter words.now }
    ensures near { IfSome result (λ n. unsigned_abs n ≤ LONGEST_SAID) }
{
    match last_said(words, letter) {
        Said::Number(literal) => Some(literal.increments()),
        Said::Nothing | Said::Calculated => None,
    }
}

/// The same, or another length if there is none.
pub fn length_or(words: &[Word], letter: u8, or: i64) -> i64
    ensures { result ≡ length_or letter or words.now }
{
    length_said(words, letter).unwrap_or(or)
}

/// The whole number from 0 on that the last word of a letter writes out, if there is one.
pub fn count_said(words: &[Word], letter: u8) -> Option<u64>
    ensures count { result ≡ count_said letter words.now }
    ensures near { IfSome result (λ n. n ≤ LARGEST_WHOLE) }
{
    match last_said(words, letter) {
        Said::Number(literal) => natural(literal.whole()?),
        Said::Nothing | Said::Calculated => None,
    }
}

/// The number, if it is not negative.
fn natural(number: i64) -> Option<u64>
    requires { unsigned_abs number ≤ LARGEST_WHOLE }
    ensures number { result ≡ natural number }
    ensures near { IfSome result (λ n. n ≤ LARGEST_WHOLE) }
{
    if number < 0 {
        None
    } else {
        Some(number as u64)
    }
}

/// The same, or another number if there is none.
pub fn count_or(words: &[Word], letter: u8, or: u64) -> u64
    ensures { result ≡ count_or letter or words.now }
{
    count_said(words, letter).unwrap_or(or)
}

/// The number that the last word of a letter writes out, if there is one.
pub fn value_said(words: &[Word], letter: u8) -> Option<Value>
    ensures { result ≡ value_said letter words.now }
{
    match last_said(words, letter) {
        Said::Number(literal) => Some(literal.value),
        Said::Nothing | Said::Calculated => None,
    }
}

/// The place on an axis that its words name, from a place on: the absolute one, or the way from
/// there; the place itself if there is no word.
pub fn place_said(words: &[Word], absolute: u8, relative: u8, from: i64) -> i64
    requires { unsigned_abs from ≤ LONGEST_SAID }
    ensures place { result ≡ place_said absolute relative from words.now }
    ensures near { unsigned_abs result ≤ 200000000000 }
{
    match length_said(words, absolute) {
        Some(to) => to,
        None => from + length_or_none(words, relative),
    }
}

/// A length, or 0.
fn length_or_none(words: &[Word], letter: u8) -> i64
    ensures length { result ≡ length_or letter (pos 0) words.now }
    ensures near { unsigned_abs result ≤ LONGEST_SAID }
{
    length_said(words, letter).unwrap_or(0)
}

/// Whether there is a word of the letter.
pub fn is_said(words: &[Word], letter: u8) -> bool
    ensures { result ≡ is_said letter words.now }
{
    words.iter().any(|word| word.letter == letter)
}
