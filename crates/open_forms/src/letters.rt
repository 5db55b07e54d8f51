//! The words of a block by their letters, as they stand on the tape. What their codes mean is in
//! codes.rt.
ghost use Rattle.std.specs.Prelude.{◌≡◌, ◌≤◌, ◌&&◌, not, IfSome, length, if◌then◌else◌};
ghost use Rattle.nc_number.specs.declared.limits.TheConstants.{LARGEST_WHOLE};
ghost use Rattle.nc_number.specs.Literals.{is_literal, has_too_many_digits};
ghost use Rattle.block_words.specs.Words.{is_one_of};
ghost use Rattle.open_forms.specs.Words.{words_of, has, has_computed, has_long, written_micro, whole_of_word, last_number};

use block_forms::is_one_of;
use nc_number::{is_literal, parse_word};
use nc_text::Word;

/// The millionths of the number that a word writes out, with not too many digits.
pub fn written(word: &Word) -> Option<i64>
    ensures { result ≡ written_micro word.now }
{
    let text = word.text.as_slice();
    if !is_literal(text) {
        return None;
    }
    match parse_word(text) {
        Ok(literal) => Some(literal.value().micro()),
        Err(_) => None,
    }
}

/// The whole number that a word writes out, if it is not below 0.
pub fn number(word: &Word) -> Option<u32>
    ensures value { result ≡ whole_of_word word.now }
    ensures range { IfSome result (λ n. n ≤ LARGEST_WHOLE) }
{
    let text = word.text.as_slice();
    if !is_literal(text) {
        return None;
    }
    match parse_word(text) {
        Ok(literal) => match literal.whole() {
            Some(n) if n >= 0 => Some(n as u32),
            _ => None,
        },
        Err(_) => None,
    }
}

/// Whether the word is computed: a variable or an expression.
fn is_computed(word: &Word) -> bool
    ensures { result ≡ not (is_literal word.now.text) }
{
    !is_literal(word.text.as_slice())
}

/// Whether the word is written out with too many digits.
fn is_long(word: &Word) -> bool
    ensures { result ≡ (is_literal word.now.text && has_too_many_digits word.now.text) }
{
    let text = word.text.as_slice();
    is_literal(text) && parse_word(text).is_err()
}

/// Whether a word of one of these letters is there.
pub(crate) fn has(words: &[Word], letters: &[u8]) -> bool
    ensures { result ≡ has letters.now words.now }
{
    words.iter().any(|word| is_one_of(letters, word.letter))
}

/// Whether a word of one of these letters is computed.
pub(crate) fn has_computed(words: &[Word], letters: &[u8]) -> bool
    ensures { result ≡ has_computed letters.now words.now }
{
    words
        .iter()
        .filter(|word| is_one_of(letters, word.letter))
        .any(|word| is_computed(word))
}

/// Whether a word of one of these letters has too many digits.
pub(crate) fn has_long(words: &[Word], letters: &[u8]) -> bool
    ensures { result ≡ has_long letters.now words.now }
{
    words
        .iter()
        .filter(|word| is_one_of(letters, word.letter))
        .any(|word| is_long(word))
}

/// How many words of these letters there are.
pub(crate) fn count_of(words: &[Word], letters: &[u8]) -> usize
    ensures { result ≡ length (words_of letters.now words.now) }
{
    words
        .iter()
        .filter(|word| is_one_of(letters, word.letter))
        .count()
}

/// The number that this word says, if it is of these letters; else the number that was said before.
fn later_number(before: Option<u32>, word: &Word, letters: &[u8]) -> Option<u32>
    requires { IfSome before (λ n. n ≤ LARGEST_WHOLE) }
    ensures value { result ≡ (if is_one_of letters.now word.now.letter then whole_of_word word.now else before) }
    ensures range { IfSome result (λ n. n ≤ LARGEST_WHOLE) }
{
    if is_one_of(letters, word.letter) {
        number(word)
    } else {
        before
    }
}

/// The number of the last word of these letters, if it is written out, whole and not below 0.
#[tactic(auto, using(crate::proofs::LastWord::last_number_more))]
pub fn last_number(words: &[Word], letters: &[u8]) -> Option<u32>
    ensures value { result ≡ last_number letters.now words.now }
    ensures range { IfSome result (λ n. n ≤ LARGEST_WHOLE) }
{
    let mut last = None;
    for word in words {
        last = later_number(last, word, letters);
    }
    last
}
