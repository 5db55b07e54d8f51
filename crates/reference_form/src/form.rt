//! The form of G30.
ghost use Rattle.std.specs.Prelude.{◌≡◌, IfOk};
ghost use Rattle.reference_form.specs.Form.{number_cause, words_cause, line_cause, home_answer, block_answer, reference_form};

use crate::lines::reference_lines;
use cycle_words::{
    calculated_in, count_said, first_cause, is_said, missing_of, refused, says_ends, scene_cause,
    unexpected_in, words_of,
};
use nc_number::{ListOf, Point};
use nc_text::{Block, Word};
use plain_form::{FormAnswer, FormSettings, PlainCause, Scene, WrittenLine, has_code};
use std::alloc::{AllocError, Global};

/// G30, in millionths.
const REFERENCE: i64 = 30_000_000;

/// Why P is refused: it is said, and names another reference position than the second.
fn number_cause(words: &[Word]) -> Option<PlainCause>
    ensures { result ≡ number_cause words.now }
{
    if is_said(words, b'P') && count_said(words, b'P') != Some(2) {
        Some(PlainCause::Range(b'P'))
    } else {
        None
    }
}

/// Why the words are refused: one that such a block has not, one that is calculated, another position,
/// or no axis.
fn words_cause(words: &[Word]) -> Option<PlainCause>
    ensures { result ≡ words_cause words.now }
{
    let strange = unexpected_in(words, b"GXUZWPM", &[REFERENCE]);
    let calculated = calculated_in(words, b"XUZWP");
    let axes = missing_of(says_ends(words), b'X');
    first_cause(
        strange,
        first_cause(calculated, first_cause(number_cause(words), axes)),
    )
}

/// Why the block is refused.
fn line_cause(words: &[Word], scene: &Scene) -> Option<PlainCause>
    ensures { result ≡ line_cause words.now scene.now }
{
    first_cause(words_cause(words), scene_cause(scene))
}

/// The answer to such a block, to this reference position.
fn home_answer(
    alloc: Global,
    words: &[Word],
    scene: &Scene,
    home: &Point,
) -> Result<FormAnswer, AllocError>
    ensures { IfOk result (λ answer. answer ≡ home_answer words.now scene.now home.now) }
{
    let blocks = reference_lines(alloc, words, home, &scene.motion)?;
    let mut lines = Vec::new(alloc);
    lines.push(WrittenLine {
        blocks: ListOf::of(blocks),
    })?;
    Ok(FormAnswer::Written(ListOf::of(lines)))
}

/// The answer to a block with G30.
fn block_answer(
    alloc: Global,
    block: &Block,
    scene: &Scene,
    settings: &FormSettings,
) -> Result<FormAnswer, AllocError>
    ensures { IfOk result (λ answer. answer ≡ block_answer block.now scene.now settings.now) }
{
    let words = words_of(block);
    if let Some(cause) = line_cause(words, scene) {
        return Ok(refused(block.line, cause));
    }
    match settings.second_home {
        Some(home) => home_answer(alloc, words, scene, &home),
        None => Ok(refused(block.line, PlainCause::Setting)),
    }
}

/// The form of G30 (G30 P2): a rapid to its intermediate point, X or U and Z or W, and a rapid to the
/// second reference position along the axes that it names. M codes stay with the first rapid.
///
/// Refused are: another word (Unexpected), a number that is calculated (Calculated), a P other than 2
/// (Range), no axis (Missing X), lengths that are ways or may be (Incremental), a unit that is not
/// known (Unit), a code of motion that is not known (Position) or is none of G00 and G01 (NoForm), and
/// a position that no line of the settings says (Setting).
pub fn reference_form(
    alloc: Global,
    blocks: &[Block],
    place: usize,
    scene: &Scene,
    settings: &FormSettings,
) -> Result<FormAnswer, AllocError>
    ensures { IfOk result (λ answer. answer ≡ reference_form blocks.now place scene.now settings.now) }
{
    let Some(block) = blocks.get(place) else {
        return Ok(FormAnswer::NotMine);
    };
    if has_code(words_of(block), REFERENCE) {
        block_answer(alloc, block, scene, settings)
    } else {
        Ok(FormAnswer::NotMine)
    }
}
