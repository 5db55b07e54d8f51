//! The form of threads: which of its kinds a block begins, and what is answered.
ghost use Rattle.std.specs.Prelude.{◌≡◌, IfOk, drop, option_copied};
ghost use Rattle.thread_form.specs.Form.{says_height, second_answer, thread_answer, one_answer, thread_form};

use crate::answers::{CycleLines, cycle_answer};
use crate::one_line;
use crate::taper::{is_taper, taper_answer};
use crate::two_lines::{self, THREAD_CODE};
use cycle_words::{is_said, refused, says_ends, start_of, words_of};
use nc_text::{Block, Word};
use plain_form::{FormAnswer, FormSettings, PlainCause, Scene, has_code};
use std::alloc::{AllocError, Global};

/// What is answered of a block: the form of threads. Not its own is a block without G76, and without
/// G92 (G78 in system B) beside R. Any other is written out with the lines after it that are of its
/// cycle, or refused with the line at fault. The only error is out of memory.
pub fn thread_form(
    alloc: Global,
    blocks: &[Block],
    place: usize,
    scene: &Scene,
    settings: &FormSettings,
) -> Result<FormAnswer, AllocError>
    ensures { IfOk result (λ answer. answer ≡ thread_form blocks.now place scene.now settings.now) }
{
    let Some(block) = blocks.get(place) else {
        return Ok(FormAnswer::NotMine);
    };
    let words = words_of(block);
    if has_code(words, THREAD_CODE) {
        let next = blocks.get(place.saturating_add(1));
        return thread_answer(alloc, block, next, scene, settings);
    }
    if is_taper(words, scene.system) {
        return taper_answer(alloc, block, behind(blocks, place), scene, settings);
    }
    Ok(FormAnswer::NotMine)
}

/// The blocks from a place on.
fn behind(blocks: &[Block], place: usize) -> &[Block]
    ensures { result.now ≡ drop place blocks.now }
{
    blocks.get(place..).unwrap_or(&[])
}

/// Whether the words are those of a G76 in one line.
fn says_height(words: &[Word]) -> bool
    ensures { result ≡ says_height words.now }
{
    is_said(words, b'K') || is_said(words, b'D')
}

/// The answer to a block with G76, before this one.
fn thread_answer(
    alloc: Global,
    block: &Block,
    next: Option<&Block>,
    scene: &Scene,
    settings: &FormSettings,
) -> Result<FormAnswer, AllocError>
    ensures { IfOk result (λ answer.
        answer ≡ thread_answer block.now (option_copied next.entry) scene.now settings.now) }
{
    let words = words_of(block);
    if says_height(words) {
        return one_answer(alloc, block, scene, settings);
    }
    if says_ends(words) {
        return Ok(refused(block.line, PlainCause::Missing(b'K')));
    }
    let Some(next) = next else {
        return Ok(refused(block.line, PlainCause::NoForm));
    };
    second_answer(alloc, block, next, scene, settings)
}

/// The answer to a G76 in one line.
fn one_answer(
    alloc: Global,
    block: &Block,
    scene: &Scene,
    settings: &FormSettings,
) -> Result<FormAnswer, AllocError>
    ensures { IfOk result (λ answer. answer ≡ one_answer block.now scene.now settings.now) }
{
    let words = words_of(block);
    if let Some(cause) = one_line::line_cause(words, scene) {
        return Ok(refused(block.line, cause));
    }
    let Some(start) = start_of(scene) else {
        return Ok(refused(block.line, PlainCause::Position));
    };
    let lines = CycleLines {
        head: None,
        body: block.line,
    };
    let cycle = one_line::cycle_of(words, &start, scene, settings);
    cycle_answer(alloc, &cycle, &lines, scene)
}

/// The answer to a G76 in two lines.
fn second_answer(
    alloc: Global,
    block: &Block,
    next: &Block,
    scene: &Scene,
    settings: &FormSettings,
) -> Result<FormAnswer, AllocError>
    ensures { IfOk result (λ answer. answer ≡ second_answer block.now next.now scene.now settings.now) }
{
    let head = words_of(block);
    let body = words_of(next);
    if let Some(cause) = two_lines::head_cause(head, settings) {
        return Ok(refused(block.line, cause));
    }
    if !has_code(body, THREAD_CODE) {
        return Ok(refused(block.line, PlainCause::NoForm));
    }
    if let Some(cause) = two_lines::body_cause(body, scene) {
        return Ok(refused(next.line, cause));
    }
    let Some(start) = start_of(scene) else {
        return Ok(refused(next.line, PlainCause::Position));
    };
    let lines = CycleLines {
        head: Some(block.line),
        body: next.line,
    };
    let cycle = two_lines::cycle_of(head, body, &start, scene, settings);
    cycle_answer(alloc, &cycle, &lines, scene)
}
