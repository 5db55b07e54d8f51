//! Why the words of a block are refused.
ghost use Rattle.std.specs.Prelude.{◌≡◌};
ghost use Rattle.std.specs.List.{list_all};
ghost use Rattle.cycle_words.specs.Causes.{first_cause, is_calculated, calculated_in, is_no_count, no_count_in, missing_of, is_taken, unexpected_in};

use nc_text::Word;
use plain_form::{PlainCause, Said, last_said, said_of, unexpected};

/// The first of two causes that there is.
pub fn first_cause(one: Option<PlainCause>, other: Option<PlainCause>) -> Option<PlainCause>
    ensures { result ≡ first_cause one other }
{
    match one {
        Some(cause) => {
            let cause: PlainCause = cause;
            Some(cause)
        }
        None => other,
    }
}

/// Whether the last word of a letter is calculated.
fn is_calculated(words: &[Word], letter: u8) -> bool
    ensures { result ≡ is_calculated letter words.now }
{
    match last_said(words, letter) {
        Said::Calculated => true,
        Said::Nothing | Said::Number(_) => false,
    }
}

/// The first of these letters whose word is calculated.
pub fn calculated_in(words: &[Word], letters: &[u8]) -> Option<PlainCause>
    ensures { result ≡ calculated_in letters.now words.now }
{
    for letter in letters {
        if is_calculated(words, *letter) {
            return Some(PlainCause::Calculated(*letter));
        }
    }
    None
}

/// Whether the last word of a letter writes out what is no count: it has a point, or is negative.
fn is_no_count(words: &[Word], letter: u8) -> bool
    ensures { result ≡ is_no_count letter words.now }
{
    match last_said(words, letter) {
        Said::Number(literal) => literal.point || literal.value.micro() < 0,
        Said::Nothing | Said::Calculated => false,
    }
}

/// The first of these letters whose word is no count: P and Q count whole increments, without a
/// point and from 0 on.
pub fn no_count_in(words: &[Word], letters: &[u8]) -> Option<PlainCause>
    ensures { result ≡ no_count_in letters.now words.now }
{
    for letter in letters {
        if is_no_count(words, *letter) {
            return Some(PlainCause::Range(*letter));
        }
    }
    None
}

/// That this letter is missing, if what asks for it is not there.
pub fn missing_of(there: bool, letter: u8) -> Option<PlainCause>
    ensures { result ≡ missing_of there letter }
{
    if there {
        None
    } else {
        Some(PlainCause::Missing(letter))
    }
}

/// Whether a word is no G code, or one of these, in millionths.
fn is_taken(word: &Word, codes: &[i64]) -> bool
    ensures { result ≡ is_taken codes.now word.now }
{
    if word.letter != b'G' {
        return true;
    }
    match said_of(word) {
        Said::Number(literal) => codes.contains(&literal.value.micro()),
        Said::Nothing | Said::Calculated => false,
    }
}

/// The first letter that is none of these, or G if there is a code that is none of these.
pub fn unexpected_in(words: &[Word], letters: &[u8], codes: &[i64]) -> Option<PlainCause>
    ensures { result ≡ unexpected_in letters.now codes.now words.now }
{
    if let Some(letter) = unexpected(words, letters) {
        return Some(PlainCause::Unexpected(letter));
    }
    if are_taken(words, codes) {
        None
    } else {
        Some(PlainCause::Unexpected(b'G'))
    }
}

/// Whether each of the words is no G code, or one of these.
pub fn are_taken(words: &[Word], codes: &[i64]) -> bool
    ensures { result ≡ list_all (is_taken codes.now) words.now }
{
    words.iter().all(|word| is_taken(word, codes))
}
