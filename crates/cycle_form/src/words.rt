//! The words of a block, as lengths and codes. A place is the index of a word in its block, from 0.
//! contour.rt, finish.rt, head.rt and walk.rt read blocks with it.
ghost use Rattle.std.specs.Prelude.{◌≡◌, ◌≤◌, IfSome, Some, unsigned_abs};
ghost use Rattle.nc_number.specs.declared.limits.TheConstants.{LONGEST_SAID};
ghost use Rattle.rough_cycle.specs.Form.{IsWritten};
ghost use Rattle.cycle_form.specs.Words.{literal_of, literal_at, length_at, is_code, start_of};

use nc_number::{Literal, Point, is_literal, parse_word};
use nc_text::Word;

/// The literal of the word in this place, if it has this letter and no more digits than are
/// allowed.
#[tactic(auto, unfolding(crate::specs::Words::literal_at))]
pub(crate) fn literal_at(words: &[Word], i: usize, letter: u8) -> Option<Literal>
    ensures { result ≡ literal_at words.now i letter }
{
    let Some(word) = words.get(i) else {
        return None;
    };
    literal_of(letter, word)
}

/// The literal of a word, if it has this letter and no more digits than are allowed.
pub(crate) fn literal_of(letter: u8, word: &Word) -> Option<Literal>
    ensures { result ≡ literal_of letter (Some word.now) }
{
    if word.letter != letter {
        return None;
    }
    let text = word.text.as_slice();
    if !is_literal(text) {
        return None;
    }
    match parse_word(text) {
        Ok(literal) => Some(literal),
        Err(_) => None,
    }
}

/// The length in 0.001 mm that the word in this place writes under this letter.
#[tactic(auto, unfolding(crate::specs::Words::length_at))]
pub(crate) fn length_at(words: &[Word], i: usize, letter: u8) -> Option<i64>
    ensures length { result ≡ length_at words.now i letter }
    ensures near { IfSome result (λ n. unsigned_abs n ≤ LONGEST_SAID) }
{
    let literal = literal_at(words, i, letter)?;
    Some(literal.increments())
}

/// Whether the literal is this G code, by its value.
pub(crate) fn is_code(code: i64, literal: Option<Literal>) -> bool
    ensures { result ≡ is_code code literal }
{
    match literal {
        Some(literal) => match literal.whole() {
            Some(n) => n == code,
            None => false,
        },
        None => false,
    }
}

/// The point of a block of G00, X and Z, in this order and with no other word, in 0.001 mm.
#[tactic(auto, unfolding(crate::specs::Words::start_of))]
pub(crate) fn start_of(words: &[Word]) -> Option<Point>
    ensures start { result ≡ start_of words.now }
    ensures near { IfSome result IsWritten }
{
    if words.len() != 3 || !is_code(0, literal_at(words, 0, b'G')) {
        return None;
    }
    let x = length_at(words, 1, b'X')?;
    let z = length_at(words, 2, b'Z')?;
    Some(Point { x, z })
}
