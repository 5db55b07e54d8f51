//! Why the words of a block of a contour are refused.
ghost use Rattle.std.specs.Prelude.{◌≡◌};
ghost use Rattle.contour_words.specs.Causes.{fault, refuse, beside_cause, place_cause, words_cause};

use crate::tempo::tempo_cause;
use cycle_words::{calculated_in, first_cause, is_said, unexpected_in};
use nc_text::Word;
use plain_form::{PlainCause, PlainFault};

/// The fault of a line.
pub fn fault(line: u32, cause: PlainCause) -> PlainFault
    ensures { result ≡ fault line cause }
{
    PlainFault { line, cause }
}

/// Refuses a line for a cause, if there is one.
pub fn refuse(line: u32, cause: Option<PlainCause>) -> Result<(), PlainFault>
    ensures { result ≡ refuse line cause }
{
    match cause {
        Some(cause) => Err(fault(line, cause)),
        None => Ok(()),
    }
}

/// That a letter stands beside another one, of which only one may be there.
fn beside_cause(words: &[Word], own: u8, by: u8) -> Option<PlainCause>
    ensures { result ≡ beside_cause own by words.now }
{
    if is_said(words, own) && is_said(words, by) {
        Some(PlainCause::Unexpected(by))
    } else {
        None
    }
}

/// That an axis is named both by its place and by its way.
fn place_cause(words: &[Word]) -> Option<PlainCause>
    ensures { result ≡ place_cause words.now }
{
    first_cause(
        beside_cause(words, b'X', b'U'),
        beside_cause(words, b'Z', b'W'),
    )
}

/// Why the words of a block of a contour are refused, of which these letters are taken and these
/// codes, in millionths.
pub(crate) fn words_cause(words: &[Word], letters: &[u8], codes: &[i64]) -> Option<PlainCause>
    ensures { result ≡ words_cause letters.now codes.now words.now }
{
    let strange = unexpected_in(words, letters, codes);
    let calculated = calculated_in(words, letters);
    let places = first_cause(place_cause(words), tempo_cause(words));
    first_cause(strange, first_cause(calculated, places))
}
