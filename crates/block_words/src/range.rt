//! Which numbers a word may write out: one that is out of its range is refused (64). Calculated
//! values are judged in the run.
ghost use Rattle.std.specs.Prelude.{◌≡◌};
ghost use Rattle.block_words.specs.Ranges.{fits, range_of_p, range_of_l, range_of_way, range_of_letter, range_of_argument, range_of, is_between, is_in_range};

use crate::purpose::Purpose;
use crate::word::{FlowWord, WordValue};
use nc_number::{LARGEST_WHOLE, LAST_SEQUENCE, Literal};

/// What a word that is written out may say.
#[derive(Clone, Copy, Debug, PartialEq, Eq)]
pub enum Range {
    /// Any number.
    Any,
    /// 0 or more, with a fraction or without.
    NotNegative,
    /// A number without a fraction.
    Whole,
    /// A number without a fraction, from the least to the greatest, both included.
    Between { least: u32, greatest: u32 },
}

/// A range of whole numbers, with both ends in it.
fn between(least: u32, greatest: u32) -> Range
    ensures { result ≡ Range.Between least greatest }
{
    Range::Between { least, greatest }
}

/// The range of P: milliseconds of a dwell; the number of an offset; a program, with repeats before
/// its four digits or without; the sequence number of a return; the program of a macro call; else
/// any number.
fn range_of_p(purpose: Purpose) -> Range
    ensures { result ≡ range_of_p purpose }
{
    match purpose {
        Purpose::MacroCall => between(1, 9_999),
        Purpose::Subprogram => between(1, LARGEST_WHOLE),
        Purpose::Return => between(1, LAST_SEQUENCE),
        Purpose::Dwell => between(0, LARGEST_WHOLE),
        Purpose::Setting => Range::Whole,
        Purpose::Wait | Purpose::Other => Range::Any,
    }
}

/// The range of L: repeats of a call; the kind of an offset; else any number.
fn range_of_l(purpose: Purpose) -> Range
    ensures { result ≡ range_of_l purpose }
{
    match purpose {
        Purpose::MacroCall | Purpose::Subprogram => between(1, 9_999),
        Purpose::Setting => between(2, 2),
        Purpose::Return | Purpose::Wait | Purpose::Dwell | Purpose::Other => Range::Any,
    }
}

/// The range of X and U: seconds of a dwell; else positions, whose range only the run judges, by an
/// alarm.
fn range_of_way(purpose: Purpose) -> Range
    ensures { result ≡ range_of_way purpose }
{
    match purpose {
        Purpose::Dwell => Range::NotNegative,
        _ => Range::Any,
    }
}

/// The range of a word of this letter outside macro calls.
fn range_of_letter(purpose: Purpose, letter: u8) -> Range
    ensures { result ≡ range_of_letter purpose letter }
{
    match letter {
        b'P' => range_of_p(purpose),
        b'L' => range_of_l(purpose),
        b'X' | b'U' => range_of_way(purpose),
        b'F' => Range::NotNegative,
        b'S' => between(0, 99_999),
        b'T' => between(0, 9_999),
        b'M' => between(0, 999),
        _ => Range::Any,
    }
}

/// The range of a word of a macro call: P and L have those of the call, and all other letters are
/// arguments, of any number.
fn range_of_argument(letter: u8) -> Range
    ensures { result ≡ range_of_argument letter }
{
    match letter {
        b'P' => range_of_p(Purpose::MacroCall),
        b'L' => range_of_l(Purpose::MacroCall),
        _ => Range::Any,
    }
}

/// The range of a word of this letter, in a block of this purpose.
fn range_of(purpose: Purpose, letter: u8) -> Range
    ensures { result ≡ range_of purpose letter }
{
    match purpose {
        Purpose::MacroCall => range_of_argument(letter),
        _ => range_of_letter(purpose, letter),
    }
}

/// Whether the number lies between these, both included; false for none, as of a literal with a
/// fraction.
fn is_between(least: u32, greatest: u32, number: Option<i64>) -> bool
    ensures { result ≡ is_between least greatest number }
{
    match number {
        Some(n) => i64::from(least) <= n && n <= i64::from(greatest),
        None => false,
    }
}

/// Whether the literal is in the range. A range of whole numbers takes a literal with a point, if
/// its fraction is 0.
fn fits(range: Range, literal: &Literal) -> bool
    ensures { result ≡ fits range literal.now }
{
    match range {
        Range::Any => true,
        Range::NotNegative => literal.value().micro() >= 0,
        Range::Whole => literal.whole().is_some(),
        Range::Between { least, greatest } => is_between(least, greatest, literal.whole()),
    }
}

/// Whether a word of this letter may say the literal, in a block of this purpose.
pub fn fits_word(purpose: Purpose, letter: u8, literal: &Literal) -> bool
    ensures { result ≡ fits (range_of purpose letter) literal.now }
{
    fits(range_of(purpose, letter), literal)
}

/// Whether the word, if it is written out, is in its range.
pub fn is_in_range(purpose: Purpose, word: &FlowWord) -> bool
    ensures { result ≡ is_in_range purpose word.now }
{
    match &word.value {
        WordValue::Fixed(literal) => fits_word(purpose, word.letter, literal),
        WordValue::Computed { .. } => true,
    }
}
