//! The form of roughing: which of its cycles a block begins, and what is answered.
ghost use Rattle.std.specs.Prelude.{◌≡◌, IfOk};
ghost use Rattle.arc_contour.specs.Bounds.{IsWritten};
ghost use Rattle.rough_words.specs.Form.{cycle_of, start_answer, cycle_answer, block_answer, rough_form};

use crate::finish::finish_answer;
use crate::head::{PATTERN_CODE, way_of};
use crate::pattern::pattern_answer;
use crate::rough::rough_answer;
use arc_contour::Way;
use cycle_words::{refused, scene_cause, start_of, words_of};
use nc_number::Point;
use nc_text::{Block, Word};
use plain_form::{FormAnswer, FormSettings, PlainCause, Scene, has_code};
use std::alloc::{AllocError, Global};

/// A cycle of roughing, or its finish.
#[derive(Clone, Copy, Debug)]
pub enum Cycle {
    /// G71, or G72.
    Rough(Way),
    /// G70.
    Finish,
    /// G73.
    Pattern,
}

/// The cycle that the words begin, if they begin one.
fn cycle_of(words: &[Word]) -> Option<Cycle>
    ensures { result ≡ cycle_of words.now }
{
    if has_code(words, 70_000_000) {
        return Some(Cycle::Finish);
    }
    if has_code(words, PATTERN_CODE) {
        return Some(Cycle::Pattern);
    }
    match way_of(words) {
        Some(way) => Some(Cycle::Rough(way)),
        None => None,
    }
}

/// The answer to a cycle from where the tool stands, which begins with this block, and behind these
/// blocks and before those.
fn start_answer(
    alloc: Global,
    cycle: Cycle,
    block: &Block,
    start: &Point,
    before: &[Block],
    behind: &[Block],
    scene: &Scene,
    settings: &FormSettings,
) -> Result<FormAnswer, AllocError>
    requires { IsWritten start.now }
    ensures { IfOk result (λ answer.
        answer ≡ start_answer cycle block.now start.now before.now behind.now scene.now settings.now) }
{
    match cycle {
        Cycle::Rough(way) => rough_answer(alloc, way, block, start, behind, scene, settings),
        Cycle::Finish => finish_answer(alloc, block, start, before, scene),
        Cycle::Pattern => pattern_answer(alloc, block, start, behind, scene, settings),
    }
}

/// The answer to a cycle, if all is known that it asks for.
fn cycle_answer(
    alloc: Global,
    cycle: Cycle,
    block: &Block,
    before: &[Block],
    behind: &[Block],
    scene: &Scene,
    settings: &FormSettings,
) -> Result<FormAnswer, AllocError>
    ensures { IfOk result (λ answer.
        answer ≡ cycle_answer cycle block.now before.now behind.now scene.now settings.now) }
{
    if let Some(cause) = scene_cause(scene) {
        return Ok(refused(block.line, cause));
    }
    let Some(start) = start_of(scene) else {
        return Ok(refused(block.line, PlainCause::Position));
    };
    start_answer(alloc, cycle, block, &start, before, behind, scene, settings)
}

/// The answer to a block, behind these blocks and before those.
fn block_answer(
    alloc: Global,
    block: &Block,
    before: &[Block],
    behind: &[Block],
    scene: &Scene,
    settings: &FormSettings,
) -> Result<FormAnswer, AllocError>
    ensures { IfOk result (λ answer.
        answer ≡ block_answer block.now before.now behind.now scene.now settings.now) }
{
    match cycle_of(words_of(block)) {
        Some(cycle) => cycle_answer(alloc, cycle, block, before, behind, scene, settings),
        None => Ok(FormAnswer::NotMine),
    }
}

/// What is answered of a block: the form of roughing. Its own is a block with G71, G72, G73 or G70. G71 and
/// G72 are written out with their contour as their passes and as the contour with its allowances, in
/// place of their first line; the lines of the contour go. G73 is written out as the contour moved out,
/// and in again from pass to pass, to its allowances. G70 is written out as the contour from where
/// the tool stands, with the feeds and speeds of the contour's own blocks; it is that of the last block
/// before it which has the number that P says, behind a block of G71, G72 or G73. Refused with the line and
/// the cause is a word that is calculated, missing or none of the cycle's, a place or a unit that is not
/// known, blocks that are no contour, a contour that goes back, an arc off its circle or past its
/// quadrant, an allowance that leads into the part, a start inside it, and more than 1,000 passes. The
/// only error is out of memory.
pub fn rough_form(
    alloc: Global,
    blocks: &[Block],
    place: usize,
    scene: &Scene,
    settings: &FormSettings,
) -> Result<FormAnswer, AllocError>
    ensures { IfOk result (λ answer. answer ≡ rough_form blocks.now place scene.now settings.now) }
{
    let Some((before, rest)) = blocks.split_at_checked(place) else {
        return Ok(FormAnswer::NotMine);
    };
    match rest.split_first() {
        Some((block, behind)) => block_answer(alloc, block, before, behind, scene, settings),
        None => Ok(FormAnswer::NotMine),
    }
}
