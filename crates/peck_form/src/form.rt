//! The form of grooves and holes: which of its kinds a block begins, and what is answered.
ghost use Rattle.std.specs.Prelude.{◌≡◌, IfOk, drop, take, option_copied};
ghost use Rattle.cycle_words.specs.Scenes.{words_of};
ghost use Rattle.peck_form.specs.Kinds.{hole_code};
ghost use Rattle.peck_form.specs.Form.{said_before, holes_answer, code_answer, groove_at, block_answer, peck_form};
ghost use Rattle.peck_cycle.specs.Axes.{place_along, place_beside};

use crate::groove::{groove_answer, groove_code, retreat_before};
use crate::hole::HoleSaid;
use crate::kind::{HoleCode, hole_code, level_before};
use crate::run::run_answer;
use code_tables::CodeKind;
use cycle_words::{refused, scene_cause, start_of, words_of};
use nc_number::{Axis, Point};
use nc_text::Block;
use peck_cycle::{Along, ReturnLevel};
use plain_form::{FormAnswer, FormSettings, PlainCause, Scene, has_code};
use std::alloc::{AllocError, Global};

/// What is answered of a block: the form of grooves and holes. Not its own is a block without G74,
/// G75 and G83 to G89. Any other is written out with the lines after it that are of its cycle, or
/// refused with the line at fault. The only error is out of memory.
pub fn peck_form(
    alloc: Global,
    blocks: &[Block],
    place: usize,
    scene: &Scene,
    settings: &FormSettings,
) -> Result<FormAnswer, AllocError>
    ensures { IfOk result (λ answer. answer ≡ peck_form blocks.now place scene.now settings.now) }
{
    let Some(block) = blocks.get(place) else {
        return Ok(FormAnswer::NotMine);
    };
    let next = blocks.get(place.saturating_add(1));
    block_answer(alloc, blocks, place, block, next, scene, settings)
}

/// What is answered of this block in its place, before the next one.
#[tactic(auto, unfolding(crate::specs::Form::block_answer))]
fn block_answer(
    alloc: Global,
    blocks: &[Block],
    place: usize,
    block: &Block,
    next: Option<&Block>,
    scene: &Scene,
    settings: &FormSettings,
) -> Result<FormAnswer, AllocError>
    ensures { IfOk result (λ answer.
        answer ≡ block_answer blocks.now place block.now (option_copied next.entry) scene.now settings.now) }
{
    let words = words_of(block);
    if has_code(words, groove_code(Along::Z)) {
        return groove_at(
            alloc,
            Along::Z,
            before(blocks, place),
            block,
            next,
            scene,
            settings,
        );
    }
    if has_code(words, groove_code(Along::X)) {
        return groove_at(
            alloc,
            Along::X,
            before(blocks, place),
            block,
            next,
            scene,
            settings,
        );
    }
    holes_at(alloc, blocks, place, block, scene, settings)
}

/// The answer to a block with G74 or G75, behind these blocks and before the next one.
fn groove_at(
    alloc: Global,
    along: Along,
    before: &[Block],
    block: &Block,
    next: Option<&Block>,
    scene: &Scene,
    settings: &FormSettings,
) -> Result<FormAnswer, AllocError>
    ensures { IfOk result (λ answer.
        answer ≡ groove_at along before.now block.now (option_copied next.entry) scene.now settings.now) }
{
    let retreat = retreat_before(before, settings);
    groove_answer(alloc, along, retreat, block, next, scene)
}

/// The answer to a block in its place, if it has a code of holes.
fn holes_at(
    alloc: Global,
    blocks: &[Block],
    place: usize,
    block: &Block,
    scene: &Scene,
    settings: &FormSettings,
) -> Result<FormAnswer, AllocError>
    ensures { IfOk result (λ answer.
        answer ≡ code_answer blocks.now place block.now scene.now settings.now (hole_code (words_of block.now.body))) }
{
    let Some(code) = hole_code(words_of(block)) else {
        return Ok(FormAnswer::NotMine);
    };
    let level = level_before(before(blocks, place), scene.system);
    holes_answer(
        alloc,
        block.line,
        behind(blocks, place),
        &code,
        level,
        scene,
        settings,
    )
}

/// The blocks before a place.
fn before(blocks: &[Block], place: usize) -> &[Block]
    ensures { result.now ≡ take place blocks.now }
{
    blocks.get(..place).unwrap_or(blocks)
}

/// The blocks from a place on.
fn behind(blocks: &[Block], place: usize) -> &[Block]
    ensures { result.now ≡ drop place blocks.now }
{
    blocks.get(place..).unwrap_or(&[])
}

/// The place of a point along an axis.
fn place_along(along: Along, point: &Point) -> i64
    ensures { result ≡ place_along along point.now }
{
    match along {
        Along::Z => point.z,
        Along::X => point.x,
    }
}

/// And beside it.
fn place_beside(along: Along, point: &Point) -> i64
    ensures { result ≡ place_beside along point.now }
{
    match along {
        Along::Z => point.x,
        Along::X => point.z,
    }
}

/// The answer to a run of holes that begins with the first of these blocks.
fn holes_answer(
    alloc: Global,
    line: u32,
    blocks: &[Block],
    code: &HoleCode,
    level: ReturnLevel,
    scene: &Scene,
    settings: &FormSettings,
) -> Result<FormAnswer, AllocError>
    ensures { IfOk result (λ answer. answer ≡ holes_answer line blocks.now code.now level scene.now settings.now) }
{
    if let Some(cause) = scene_cause(scene) {
        return Ok(refused(line, cause));
    }
    let Some(start) = start_of(scene) else {
        return Ok(refused(line, PlainCause::Position));
    };
    let before = said_before(code, level, &start, &scene.motion);
    run_answer(alloc, blocks, &before, scene.system, settings)
}

/// What is in force before a run.
fn said_before(
    code: &HoleCode,
    level: ReturnLevel,
    start: &Point,
    motion: &Option<CodeKind>,
) -> HoleSaid
    ensures { result ≡ said_before code.now level start.now motion.now }
{
    HoleSaid {
        code: *code,
        start: place_along(code.along(), start),
        beside: Some(place_beside(code.along(), start)),
        bottom: Axis::Keep,
        point_r: 0,
        peck: 0,
        dwell: 0,
        returns: level,
        feed: None,
        motion: *motion,
    }
}
