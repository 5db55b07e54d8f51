//! What the words of a block say by their text: numbers that are written out.
ghost use Rattle.std.specs.Prelude.{◌≡◌};
ghost use Rattle.std.specs.List.{list_any};
ghost use Rattle.plain_form.specs.Said.{said_word, later, last_said, is_one_of, is_code_word, has_code, unexpected};

use nc_number::{Literal, is_literal, parse_word};
use nc_text::Word;

/// What a word says, or that there is none.
#[derive(Clone, Copy, Debug, PartialEq, Eq)]
pub enum Said {
    /// There is no such word.
    Nothing,
    /// The number is written out.
    Number(Literal),
    /// The number is calculated, or has too many digits.
    Calculated,
}

/// What this word says.
pub fn said_of(word: &Word) -> Said
    ensures { result ≡ said_word word.now }
{
    let text = word.text.as_slice();
    if !is_literal(text) {
        return Said::Calculated;
    }
    match parse_word(text) {
        Ok(literal) => Said::Number(literal),
        Err(_) => Said::Calculated,
    }
}

/// What the word says, if it has this letter; else what was said before.
fn later(word: &Word, letter: u8, before: Said) -> Said
    ensures { result ≡ later letter word.now before }
{
    if word.letter == letter {
        said_of(word)
    } else {
        before
    }
}

/// What the last word of this letter says.
pub fn last_said(words: &[Word], letter: u8) -> Said
    ensures { result ≡ last_said letter words.now }
{
    let mut last = Said::Nothing;
    for word in words {
        last = later(word, letter, last);
    }
    last
}

/// Whether the word is this G code, in millionths: G71 is 71000000.
pub fn is_code_word(word: &Word, code: i64) -> bool
    ensures { result ≡ is_code_word code word.now }
{
    if word.letter != b'G' {
        return false;
    }
    match said_of(word) {
        Said::Number(literal) => literal.value.micro() == code,
        _ => false,
    }
}

/// Whether a word is this G code, in millionths: G71 is 71000000.
pub fn has_code(words: &[Word], code: i64) -> bool
    ensures { result ≡ has_code code words.now }
{
    words.iter().any(|word| is_code_word(word, code))
}

/// Whether the letter is one of these.
pub fn is_one_of(letters: &[u8], letter: u8) -> bool
    ensures { result ≡ is_one_of letters.now letter }
{
    letters.contains(&letter)
}

/// The letter of the first word that is none of these.
pub fn unexpected(words: &[Word], letters: &[u8]) -> Option<u8>
    ensures { result ≡ unexpected letters.now words.now }
{
    for word in words {
        if !is_one_of(letters, word.letter) {
            return Some(word.letter);
        }
    }
    None
}
