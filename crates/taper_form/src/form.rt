//! The form of cuts along tapers.
ghost use Rattle.std.specs.Prelude.{◌≡◌, IfOk};
ghost use Rattle.taper_form.specs.Form.{kind_answer, taper_form};

use crate::kind::{TaperKind, kind_of};
use crate::run::run_answer;
use cycle_words::{refused, start_of, way_cause, words_of};
use nc_text::Block;
use plain_form::{FormAnswer, PlainCause, Scene};
use std::alloc::{AllocError, Global};

/// The answer to a run of a cycle that begins with the first of these blocks.
fn kind_answer(
    alloc: Global,
    first: &Block,
    blocks: &[Block],
    kind: TaperKind,
    scene: &Scene,
) -> Result<FormAnswer, AllocError>
    ensures { IfOk result (λ answer. answer ≡ kind_answer first.now.line blocks.now scene.now kind) }
{
    if let Some(cause) = way_cause(scene) {
        return Ok(refused(first.line, cause));
    }
    let Some(start) = start_of(scene) else {
        return Ok(refused(first.line, PlainCause::Position));
    };
    run_answer(alloc, blocks, kind, &start, scene)
}

/// The form of a block that cuts along a taper: R beside G90 or G94 (G77 or G79 in system B), or in
/// force. The blocks after it that have a word of an axis belong to it, up to the next code of motion.
///
/// Refused are: a unit or a way that is not known (Unit, Incremental), a start that is not known
/// (Position), a letter that such a block has not (Unexpected), a number that is calculated
/// (Calculated), a block without an axis (NoForm), X or Z of which no block of the run says anything
/// (Missing), no feed (Feed), a feed of 0 or below, an end past the travel, and a taper whose begin
/// lies past the travel or on the other side of the start (Range).
pub fn taper_form(
    alloc: Global,
    blocks: &[Block],
    place: usize,
    scene: &Scene,
) -> Result<FormAnswer, AllocError>
    ensures { IfOk result (λ answer. answer ≡ taper_form blocks.now place scene.now) }
{
    let Some(block) = blocks.get(place) else {
        return Ok(FormAnswer::NotMine);
    };
    match kind_of(words_of(block), scene.system, &scene.motion) {
        Some(kind) => kind_answer(alloc, block, &blocks[place..], kind, scene),
        None => Ok(FormAnswer::NotMine),
    }
}
