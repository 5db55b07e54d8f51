//! The words of a block by their letters. A letter is its byte, in upper case.
ghost use Rattle.std.specs.Prelude.{◌≡◌, ◌≤◌, IfSome, length, if◌then◌else◌};
ghost use Rattle.nc_number.specs.declared.limits.TheConstants.{LARGEST_WHOLE};
ghost use Rattle.block_words.specs.Words.{is_one_of, words_of, has, has_computed, whole_value, last_whole};
ghost use Rattle.block_words.specs.Codes.{natural_number};

use crate::word::FlowWord;

/// Whether the letter is one of these.
pub fn is_one_of(letters: &[u8], letter: u8) -> bool
    ensures { result ≡ is_one_of letters.now letter }
{
    letters.contains(&letter)
}

/// Whether the block has a word of one of these letters.
pub fn has(words: &[FlowWord], letters: &[u8]) -> bool
    ensures { result ≡ has letters.now words.now }
{
    words.iter().any(|word| is_one_of(letters, word.letter))
}

/// Whether a word of one of these letters is a variable or an expression.
pub fn has_computed(words: &[FlowWord], letters: &[u8]) -> bool
    ensures { result ≡ has_computed letters.now words.now }
{
    words
        .iter()
        .filter(|word| is_one_of(letters, word.letter))
        .any(|word| word.value.is_computed())
}

/// How many words of these letters there are.
pub fn count_of(words: &[FlowWord], letters: &[u8]) -> usize
    ensures { result ≡ length (words_of letters.now words.now) }
{
    words
        .iter()
        .filter(|word| is_one_of(letters, word.letter))
        .count()
}

/// The number that this word says, if it is of these letters; else the number that was said before.
fn later_number(before: Option<u32>, word: &FlowWord, letters: &[u8]) -> Option<u32>
    requires { IfSome before (λ n. n ≤ LARGEST_WHOLE) }
    ensures value { result
        ≡ (if is_one_of letters.now word.now.letter then natural_number (whole_value word.now.value) else before) }
    ensures range { IfSome result (λ n. n ≤ LARGEST_WHOLE) }
{
    if is_one_of(letters, word.letter) {
        word.value.natural()
    } else {
        before
    }
}

/// The number that the last word of these letters says, if it is written out, whole and not below
/// 0.
#[tactic(auto, using(crate::proofs::LastWord::last_number_more))]
pub fn number_of(words: &[FlowWord], letters: &[u8]) -> Option<u32>
    ensures value { result ≡ natural_number (last_whole letters.now words.now) }
    ensures range { IfSome result (λ n. n ≤ LARGEST_WHOLE) }
{
    let mut last = None;
    for word in words {
        last = later_number(last, word, letters);
    }
    last
}
