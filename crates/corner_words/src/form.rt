//! The form of corners: what is answered of a block.
ghost use Rattle.std.specs.Prelude.{◌≡◌, IfOk, drop};
ghost use Rattle.nc_number.specs.Position.{IsPosition};
ghost use Rattle.corner_words.specs.Form.{is_line, motion_cause, begin_cause, run_answer, begin_answer, corners_form};

use crate::cut::cut_answer;
use crate::run::{RunRead, run_lines};
use crate::said::run_letter;
use code_tables::CodeKind;
use cycle_words::{first_cause, refused, way_cause, words_of};
use line_words::{LINE_CODE, begin_of};
use nc_number::Point;
use nc_text::{Block, Word};
use plain_form::{FormAnswer, PlainCause, Scene, has_code};
use std::alloc::{AllocError, Global};

/// Whether a block with an axis word cuts along a line.
fn is_line(motion: &Option<CodeKind>) -> bool
    ensures { result ≡ is_line motion.now }
{
    matches!(*motion, Some(CodeKind::Feed))
}

/// That a word of this letter after a comma stands in a block that does not cut along a line.
fn motion_cause(words: &[Word], letter: u8, scene: &Scene) -> Option<PlainCause>
    ensures { result ≡ motion_cause letter scene.now words.now }
{
    if has_code(words, LINE_CODE) || is_line(&scene.motion) {
        None
    } else {
        Some(PlainCause::Unexpected(letter))
    }
}

/// Why no run may begin here: no line is cut, or lengths can't be read.
fn begin_cause(words: &[Word], letter: u8, scene: &Scene) -> Option<PlainCause>
    ensures { result ≡ begin_cause letter scene.now words.now }
{
    first_cause(motion_cause(words, letter, scene), way_cause(scene))
}

/// The answer to a run that begins with the first of these blocks, from a point.
fn run_answer(
    alloc: Global,
    line: u32,
    start: &Point,
    blocks: &[Block],
) -> Result<FormAnswer, AllocError>
    requires { IsPosition start.now }
    ensures { IfOk result (λ answer. answer ≡ run_answer line start.now blocks.now) }
{
    match run_lines(alloc, line, start, blocks)? {
        RunRead::Lines(lines) => cut_answer(alloc, start, lines.as_slice()),
        RunRead::Stops(fault) => Ok(FormAnswer::Refused(fault)),
    }
}

/// The answer to a block with a word of this letter after a comma, with which these blocks begin.
fn begin_answer(
    alloc: Global,
    block: &Block,
    letter: u8,
    blocks: &[Block],
    scene: &Scene,
) -> Result<FormAnswer, AllocError>
    ensures { IfOk result (λ answer. answer ≡ begin_answer block.now letter blocks.now scene.now) }
{
    if let Some(cause) = begin_cause(words_of(block), letter, scene) {
        return Ok(refused(block.line, cause));
    }
    let Some(start) = begin_of(scene) else {
        return Ok(refused(block.line, PlainCause::Position));
    };
    run_answer(alloc, block.line, &start, blocks)
}

/// What is answered of a block: the form of corners. Not its own is a block that names no corner by
/// `,C` or `,R`, and no angle by `,A`. Any other is written out with the lines after it, up to the
/// first without a corner; or it is refused with the line at fault. The only error is out of memory.
pub fn corners_form(
    alloc: Global,
    blocks: &[Block],
    place: usize,
    scene: &Scene,
) -> Result<FormAnswer, AllocError>
    ensures { IfOk result (λ answer. answer ≡ corners_form blocks.now place scene.now) }
{
    let Some(block) = blocks.get(place) else {
        return Ok(FormAnswer::NotMine);
    };
    let Some(letter) = run_letter(words_of(block)) else {
        return Ok(FormAnswer::NotMine);
    };
    let run = blocks.get(place..).unwrap_or(&[]);
    begin_answer(alloc, block, letter, run, scene)
}
