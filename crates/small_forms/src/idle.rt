//! Words that change nothing here, which are left out, and G31, which is a cut.
ghost use Rattle.std.specs.Prelude.{◌≡◌, ◌++◌, ◌∷◌, [], OnOk, IfOk, pos};
ghost use Rattle.std.specs.List.{list_any};
ghost use Rattle.plain_form.specs.Said.{is_code_word, is_one_of};
ghost use Rattle.small_forms.specs.Idle.{TasteView, taste_of, is_level, is_idle, is_skip_cut, is_other, is_changed, kept_word, kept_words, has_letter, names_spindle};

use code_tables::System;
use nc_text::Word;
use plain_form::{is_code_word, is_one_of, push_word};
use std::alloc::{AllocError, Global};

/// Which words of a block are left out.
#[derive(Clone, Copy, Debug)]
pub(crate) struct Taste<'a> {
    /// The system of the G codes.
    pub(crate) system: System,
    /// Letters of words that change nothing.
    pub(crate) idle: &'a [u8],
    /// Whether P names a spindle.
    pub(crate) beside: bool,
}

/// Whether a word has this letter.
fn has_letter(words: &[Word], letter: u8) -> bool
    ensures { result ≡ has_letter letter words.now }
{
    words.iter().any(|word| word.letter == letter)
}

/// Whether the block has an M code and no G code: then its P names a spindle.
pub(crate) fn names_spindle(words: &[Word]) -> bool
    ensures { result ≡ names_spindle words.now }
{
    has_letter(words, b'M') && !has_letter(words, b'G')
}

/// Whether the word is G98 or G99 of system B: the level to which a drill goes back.
fn is_level(system: System, word: &Word) -> bool
    ensures { result ≡ is_level system word.now }
{
    match system {
        System::A => false,
        System::B => is_code_word(word, 98_000_000) || is_code_word(word, 99_000_000),
    }
}

/// Whether the word changes nothing here.
fn is_idle(taste: &Taste<'_>, word: &Word) -> bool
    ensures { result ≡ is_idle (taste_of taste.now) word.now }
{
    is_one_of(taste.idle, word.letter)
        || is_level(taste.system, word)
        || (taste.beside && word.letter == b'P')
}

/// Whether the word is G31, a cut that a signal may end.
fn is_skip_cut(word: &Word) -> bool
    ensures { result ≡ is_skip_cut word.now }
{
    is_code_word(word, 31_000_000)
}

/// Whether the word is left out or written otherwise.
fn is_other(taste: &Taste<'_>, word: &Word) -> bool
    ensures { result ≡ is_other (taste_of taste.now) word.now }
{
    is_idle(taste, word) || is_skip_cut(word)
}

/// Whether a word is left out or written otherwise.
pub(crate) fn is_changed(taste: &Taste<'_>, words: &[Word]) -> bool
    ensures { result ≡ is_changed (taste_of taste.now) words.now }
{
    words.iter().any(|word| is_other(taste, word))
}

/// Puts the word as it is written: not at all if it changes nothing, G01 for G31.
fn push_kept(
    alloc: Global,
    kept: &mut Vec<Word>,
    taste: &Taste<'_>,
    word: &Word,
) -> Result<(), AllocError>
    ensures { OnOk result (kept.new.items ≡ kept.old.items ++ kept_word (taste_of taste.now) word.now) }
{
    if is_idle(taste, word) {
        return Ok(());
    }
    if is_skip_cut(word) {
        return push_word(alloc, kept, b'G', b"01");
    }
    push_word(alloc, kept, word.letter, word.text.as_slice())
}

/// The words as they are written.
pub(crate) fn kept_words(
    alloc: Global,
    taste: &Taste<'_>,
    words: &[Word],
) -> Result<Vec<Word>, AllocError>
    ensures { IfOk result (λ kept. kept.items ≡ kept_words (taste_of taste.now) words.now) }
{
    let mut kept = Vec::new(alloc);
    for word in words {
        push_kept(alloc, &mut kept, taste, word)?;
    }
    Ok(kept)
}
