//! The lines of a return to the second reference position.
ghost use Rattle.std.specs.Prelude.{◌≡◌, ◌++◌, ◌∷◌, [], IfOk, OnOk};
ghost use Rattle.reference_form.specs.Lines.{is_way_word, way_word, way_words, is_named, axis_word, home_words, reference_lines};

use code_tables::CodeKind;
use cycle_words::{is_said, push_code_before};
use nc_number::Point;
use nc_text::{Block, Word};
use plain_form::{plain_line, push_length, push_word};
use std::alloc::{AllocError, Global};

/// Whether a word stays in the rapid to the intermediate point: it is neither a code nor P.
fn is_way_word(word: &Word) -> bool
    ensures { result ≡ is_way_word word.now }
{
    word.letter != b'G' && word.letter != b'P'
}

/// Puts the word, if it stays.
fn push_way_word(alloc: Global, words: &mut Vec<Word>, word: &Word) -> Result<(), AllocError>
    ensures { OnOk result (words.new.items ≡ words.old.items ++ way_word word.now) }
{
    if is_way_word(word) {
        push_word(alloc, words, word.letter, word.text.as_slice())?;
    }
    Ok(())
}

/// The words of the rapid to the intermediate point: those of the block, with G00 for its code.
fn way_words(alloc: Global, words: &[Word]) -> Result<Vec<Word>, AllocError>
    ensures { IfOk result (λ way. way.items ≡ way_words words.now) }
{
    let mut way = Vec::new(alloc);
    push_word(alloc, &mut way, b'G', b"00")?;
    for word in words {
        push_way_word(alloc, &mut way, word)?;
    }
    Ok(way)
}

/// Whether the words name an axis, by its place or by its way.
pub(crate) fn is_named(words: &[Word], place: u8, way: u8) -> bool
    ensures { result ≡ is_named place way words.now }
{
    is_said(words, place) || is_said(words, way)
}

/// Puts the place of an axis, if the words name it.
fn push_axis(
    alloc: Global,
    home: &mut Vec<Word>,
    named: bool,
    letter: u8,
    at: i64,
) -> Result<(), AllocError>
    ensures { OnOk result (home.new.items ≡ home.old.items ++ axis_word named letter at) }
{
    if named {
        push_length(alloc, home, letter, at)?;
    }
    Ok(())
}

/// The words of the rapid to the reference position along the named axes, in machine coordinates.
fn home_words(alloc: Global, words: &[Word], home: &Point) -> Result<Vec<Word>, AllocError>
    ensures { IfOk result (λ rapid. rapid.items ≡ home_words home.now words.now) }
{
    let mut rapid = Vec::new(alloc);
    push_word(alloc, &mut rapid, b'G', b"53")?;
    push_axis(alloc, &mut rapid, is_named(words, b'X', b'U'), b'X', home.x)?;
    push_axis(alloc, &mut rapid, is_named(words, b'Z', b'W'), b'Z', home.z)?;
    Ok(rapid)
}

/// The lines of the return: both rapids, and that of the code of motion before it, if it was G01.
pub(crate) fn reference_lines(
    alloc: Global,
    words: &[Word],
    home: &Point,
    motion: &Option<CodeKind>,
) -> Result<Vec<Block>, AllocError>
    ensures { IfOk result (λ lines. lines.items ≡ reference_lines motion.now home.now words.now) }
{
    let mut lines = Vec::new(alloc);
    let way = way_words(alloc, words)?;
    lines.push(plain_line(way))?;
    let rapid = home_words(alloc, words, home)?;
    lines.push(plain_line(rapid))?;
    push_code_before(alloc, motion, &mut lines)?;
    Ok(lines)
}
