//! Blocks of which the form that would be needed is known, and is none of this house: why they are
//! refused.
ghost use Rattle.std.specs.Prelude.{◌≡◌};
ghost use Rattle.small_forms.specs.Foreign.{words_cause, body_cause, foreign_answer, foreign_form};

use nc_text::{Block, Body, Word};
use plain_form::{FormAnswer, PlainCause, PlainFault, has_code};

/// Why words are refused: G66 and G67, under which each move calls a program (Control), and G20, which
/// makes lengths inches (Unit).
fn words_cause(words: &[Word]) -> Option<PlainCause>
    ensures { result ≡ words_cause words.now }
{
    if has_code(words, 66_000_000) || has_code(words, 67_000_000) {
        return Some(PlainCause::Control);
    }
    if has_code(words, 20_000_000) {
        return Some(PlainCause::Unit);
    }
    None
}

/// Why a block is refused.
fn body_cause(body: &Body) -> Option<PlainCause>
    ensures { result ≡ body_cause body.now }
{
    match body {
        Body::Words(words) => words_cause(words.as_slice()),
        Body::Statement(_) => None,
    }
}

/// What is answered about the block of this line, if it is refused for this.
fn foreign_answer(line: u32, cause: Option<PlainCause>) -> FormAnswer
    ensures { result ≡ foreign_answer line cause }
{
    match cause {
        Some(cause) => FormAnswer::Refused(PlainFault { line, cause }),
        None => FormAnswer::NotMine,
    }
}

/// The form of a block with G66, G67 or G20: it is refused.
pub fn foreign_form(blocks: &[Block], place: usize) -> FormAnswer
    ensures { result ≡ foreign_form blocks.now place }
{
    match blocks.get(place) {
        Some(block) => foreign_answer(block.line, body_cause(&block.body)),
        None => FormAnswer::NotMine,
    }
}
