//! A tape in which the words at some places have small letters.
ghost use Rattle.std.specs.Prelude.{◌≡◌, map, IfOk};
ghost use Rattle.comma_words.specs.Small.{small_letter, is_at_comma, letter_at, small_word, small_body, small_block, small_program};

use crate::places::CommaPlace;
use nc_number::{ByteList, ListOf};
use nc_text::{Block, Body, Program, Word};
use std::alloc::{AllocError, Global};

/// The small letter that stands for one after a comma.
fn small_letter(letter: u8) -> u8
    ensures { result ≡ small_letter letter }
{
    match letter {
        b'C' => b'c',
        b'R' => b'r',
        b'A' => b'a',
        other => other,
    }
}

/// Whether the word stands after a comma: one whose letter ends at one of these places.
fn is_at_comma(places: &[CommaPlace], line: u32, word: &Word) -> bool
    ensures { result ≡ is_at_comma places.now line word.now }
{
    places
        .iter()
        .any(|place| place.line == line && place.place == word.start)
}

/// The letter of a word of this line.
fn letter_at(places: &[CommaPlace], line: u32, word: &Word) -> u8
    ensures { result ≡ letter_at places.now line word.now }
{
    if is_at_comma(places, line, word) {
        small_letter(word.letter)
    } else {
        word.letter
    }
}

/// A copy of a text.
fn copied(alloc: Global, text: &[u8]) -> Result<ByteList, AllocError>
    ensures { IfOk result (λ copy. copy ≡ text.now) }
{
    let bytes = Vec::from_slice(alloc, text)?;
    Ok(ByteList::of(bytes))
}

/// A word of this line.
fn small_word(
    alloc: Global,
    places: &[CommaPlace],
    line: u32,
    word: &Word,
) -> Result<Word, AllocError>
    ensures { IfOk result (λ small. small ≡ small_word places.now line word.now) }
{
    let text = copied(alloc, word.text.as_slice())?;
    Ok(Word {
        letter: letter_at(places, line, word),
        start: word.start,
        end: word.end,
        text,
    })
}

/// The words of this line.
fn small_words(
    alloc: Global,
    places: &[CommaPlace],
    line: u32,
    words: &[Word],
) -> Result<Vec<Word>, AllocError>
    ensures { IfOk result (λ small. small.items ≡ map (small_word places.now line) words.now) }
{
    let mut small = Vec::with_capacity(alloc, words.len())?;
    for word in words {
        small.push(small_word(alloc, places, line, word)?)?;
    }
    Ok(small)
}

/// What the block of this line says.
fn small_body(
    alloc: Global,
    places: &[CommaPlace],
    line: u32,
    body: &Body,
) -> Result<Body, AllocError>
    ensures { IfOk result (λ small. small ≡ small_body places.now line body.now) }
{
    match body {
        Body::Words(words) => {
            let words = small_words(alloc, places, line, words.as_slice())?;
            Ok(Body::Words(ListOf::of(words)))
        }
        Body::Statement(text) => {
            let text = copied(alloc, text.as_slice())?;
            Ok(Body::Statement(text))
        }
    }
}

/// A block of the tape.
fn small_block(alloc: Global, places: &[CommaPlace], block: &Block) -> Result<Block, AllocError>
    ensures { IfOk result (λ small. small ≡ small_block places.now block.now) }
{
    let body = small_body(alloc, places, block.line, &block.body)?;
    Ok(Block {
        line: block.line,
        sequence: block.sequence,
        body,
    })
}

/// Blocks of the tape.
fn small_blocks(
    alloc: Global,
    places: &[CommaPlace],
    blocks: &[Block],
) -> Result<Vec<Block>, AllocError>
    ensures { IfOk result (λ small. small.items ≡ map (small_block places.now) blocks.now) }
{
    let mut small = Vec::with_capacity(alloc, blocks.len())?;
    for block in blocks {
        small.push(small_block(alloc, places, block)?)?;
    }
    Ok(small)
}

/// A program of the tape.
fn small_program(
    alloc: Global,
    places: &[CommaPlace],
    program: &Program,
) -> Result<Program, AllocError>
    ensures { IfOk result (λ small. small ≡ small_program places.now program.now) }
{
    let blocks = small_blocks(alloc, places, program.blocks.as_slice())?;
    Ok(Program {
        number: program.number,
        line: program.line,
        blocks: ListOf::of(blocks),
    })
}

/// The tape in which the words whose letters end at these places have small letters.
pub(crate) fn small_tape(
    alloc: Global,
    places: &[CommaPlace],
    tape: &[Program],
) -> Result<Vec<Program>, AllocError>
    ensures { IfOk result (λ small. small.items ≡ map (small_program places.now) tape.now) }
{
    let mut small = Vec::with_capacity(alloc, tape.len())?;
    for program in tape {
        small.push(small_program(alloc, places, program)?)?;
    }
    Ok(small)
}
