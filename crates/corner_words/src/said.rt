//! What a block of a run says: where its line leads, and the corner before the next one.
ghost use Rattle.std.specs.Prelude.{◌≡◌, IfOk};
ghost use Rattle.nc_number.specs.Position.{IsPosition};
ghost use Rattle.corner_words.specs.Said.{corner_letter, run_letter, corner_word, twice_cause, size_cause, line_cause, line_said, LeadsToPosition};

use cycle_words::{
    calculated_in, first_cause, is_said, length_or, missing_of, says_ends, unexpected_in,
    value_said, words_of,
};
use line_words::{LINE_CODE, angle_cause, end_cause, line_end, twice_of};
use nc_number::{Point, Value};
use nc_text::{Block, Word};
use plain_form::{PlainCause, PlainFault};

/// The word that names a corner.
#[derive(Clone, Copy, Debug, PartialEq, Eq)]
pub(crate) struct CornerWord {
    /// Its letter: c for `,C`, r for `,R`.
    pub letter: u8,
    /// The size that it says, in 0.001 mm.
    pub size: u64,
}

/// A line of a run, as its block says it.
#[derive(Clone, Copy, Debug, PartialEq, Eq)]
pub(crate) struct RunLine {
    /// The line of the tape.
    pub line: u32,
    /// Where it leads.
    pub to: Point,
    /// The corner there, before the next line.
    pub corner: Option<CornerWord>,
    /// The feed, if the block says one.
    pub feed: Option<Value>,
}

/// The letter by which the words name a corner, if they do.
fn corner_letter(words: &[Word]) -> Option<u8>
    ensures { result ≡ corner_letter words.now }
{
    if is_said(words, b'c') {
        Some(b'c')
    } else if is_said(words, b'r') {
        Some(b'r')
    } else {
        None
    }
}

/// The letter of a word after a comma, if the words have one: of a corner, or of an angle.
pub(crate) fn run_letter(words: &[Word]) -> Option<u8>
    ensures { result ≡ run_letter words.now }
{
    match corner_letter(words) {
        Some(letter) => Some(letter),
        None => {
            if is_said(words, b'a') {
                Some(b'a')
            } else {
                None
            }
        }
    }
}

/// The corner that the words name.
fn corner_word(words: &[Word]) -> Option<CornerWord>
    ensures { result ≡ corner_word words.now }
{
    match corner_letter(words) {
        Some(letter) => Some(CornerWord {
            letter,
            size: length_or(words, letter, 0).unsigned_abs(),
        }),
        None => None,
    }
}

/// That the words say a thing in two ways: X beside U, Z beside W, `,C` beside `,R`, `,A` beside both
/// ends.
fn twice_cause(words: &[Word]) -> Option<PlainCause>
    ensures { result ≡ twice_cause words.now }
{
    let corner = first_cause(twice_of(words, b'c', b'r'), angle_cause(words));
    let along = first_cause(twice_of(words, b'Z', b'W'), corner);
    first_cause(twice_of(words, b'X', b'U'), along)
}

/// That the size of a corner is not above 0.
fn size_cause(words: &[Word]) -> Option<PlainCause>
    ensures { result ≡ size_cause words.now }
{
    let letter = corner_letter(words)?;
    if 0 < length_or(words, letter, 0) {
        None
    } else {
        Some(PlainCause::Range(letter))
    }
}

/// Why the block is no line of a run: it has other words, or calculates, or says a thing twice, or
/// no axis, or a corner of no size.
fn line_cause(words: &[Word]) -> Option<PlainCause>
    ensures { result ≡ line_cause words.now }
{
    let strange = unexpected_in(words, b"GXZUWFcra", &[LINE_CODE]);
    let calculated = calculated_in(words, b"XZUWFcra");
    let missing = missing_of(says_ends(words), b'X');
    let whole = first_cause(twice_cause(words), first_cause(missing, size_cause(words)));
    first_cause(first_cause(strange, calculated), whole)
}

/// What the block says, from where the line before it ends; or why it is no line of a run.
pub(crate) fn line_said(block: &Block, from: &Point) -> Result<RunLine, PlainFault>
    requires { IsPosition from.now }
    ensures line { result ≡ line_said from.now block.now }
    ensures position { IfOk result LeadsToPosition }
{
    let words = words_of(block);
    if let Some(cause) = line_cause(words) {
        return Err(PlainFault {
            line: block.line,
            cause,
        });
    }
    let Some(to) = line_end(words, from) else {
        return Err(PlainFault {
            line: block.line,
            cause: end_cause(words),
        });
    };
    Ok(RunLine {
        line: block.line,
        to,
        corner: corner_word(words),
        feed: value_said(words, b'F'),
    })
}
