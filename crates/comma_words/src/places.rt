//! The commas before the letters C, R and A: where they stand, and a text without them.
ghost use Rattle.std.specs.Prelude.{◌≡◌, ◌++◌, ◌∷◌, [], IfOk, OnOk};
ghost use Rattle.comma_words.specs.Places.{is_after_comma, begins_word, next_count, place_behind, front, comma_at, comma_places, byte_without, without_commas};

use std::alloc::{AllocError, Global};

/// A place in a text, or the place behind the letter that stands after a comma there.
#[derive(Clone, Copy, Debug, PartialEq, Eq)]
pub struct CommaPlace {
    /// The line, from 1.
    pub line: u32,
    /// The place in the line, in bytes from 0.
    pub place: u32,
}

/// Whether the letter begins a word after a comma.
fn is_after_comma(letter: u8) -> bool
    ensures { result ≡ is_after_comma letter }
{
    matches!(letter, b'C' | b'R' | b'A' | b'c' | b'r' | b'a')
}

/// Whether the byte is a comma before such a letter.
fn begins_word(byte: u8, rest: &[u8]) -> bool
    ensures { result ≡ begins_word byte rest.now }
{
    match rest {
        [] => false,
        [letter, ..] => byte == b',' && is_after_comma(*letter),
    }
}

/// One more, as far as a count goes.
fn next_count(count: u32) -> u32
    ensures { result ≡ next_count count }
{
    count.saturating_add(1)
}

/// The place behind a byte.
fn place_behind(at: CommaPlace, byte: u8) -> CommaPlace
    ensures { result ≡ place_behind at byte }
{
    if byte == b'\n' {
        CommaPlace {
            line: next_count(at.line),
            place: 0,
        }
    } else {
        CommaPlace {
            line: at.line,
            place: next_count(at.place),
        }
    }
}

/// The place before a text.
fn front() -> CommaPlace
    ensures { result ≡ front }
{
    CommaPlace { line: 1, place: 0 }
}

/// Puts the place behind the letter after this byte, if it is a comma before a letter of a word.
fn push_comma(
    places: &mut Vec<CommaPlace>,
    at: CommaPlace,
    byte: u8,
    rest: &[u8],
) -> Result<(), AllocError>
    ensures { OnOk result (places.new.items ≡ places.old.items ++ comma_at at byte rest.now) }
{
    if begins_word(byte, rest) {
        places.push(CommaPlace {
            line: at.line,
            place: next_count(next_count(at.place)),
        })?;
    }
    Ok(())
}

/// The places behind the letters that stand after commas, in the order of the text.
pub(crate) fn comma_places(alloc: Global, text: &[u8]) -> Result<Vec<CommaPlace>, AllocError>
    ensures { IfOk result (λ places. places.items ≡ comma_places front text.now) }
{
    let mut places = Vec::new(alloc);
    let mut at = front();
    let mut left = text;
    while let Some((byte, rest)) = left.split_first() {
        push_comma(&mut places, at, *byte, rest)?;
        at = place_behind(at, *byte);
        left = rest;
    }
    Ok(places)
}

/// A byte, or a blank in place of a comma before a letter of a word.
fn byte_without(byte: u8, rest: &[u8]) -> u8
    ensures { result ≡ byte_without byte rest.now }
{
    if begins_word(byte, rest) { b' ' } else { byte }
}

/// The text with a blank in place of each comma before a letter of a word.
pub(crate) fn without_commas(alloc: Global, text: &[u8]) -> Result<Vec<u8>, AllocError>
    ensures { IfOk result (λ bytes. bytes.items ≡ without_commas text.now) }
{
    let mut bytes = Vec::with_capacity(alloc, text.len())?;
    let mut left = text;
    while let Some((byte, rest)) = left.split_first() {
        bytes.push(byte_without(*byte, rest))?;
        left = rest;
    }
    Ok(bytes)
}
