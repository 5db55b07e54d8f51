//! The forms, and what is known where they are asked. A further form is a further function that asks
//! it, and else the next one.
ghost use Rattle.std.specs.Prelude.{◌≡◌, IfOk};
ghost use Rattle.plain_blocks.specs.Asking.{number_of, value_of, scene_of, ask_codes, ask_corners, ask_noses, ask_rough, ask_pecks, ask_references, ask_tapers, ask};

use code_tables::System;
use corner_words::corners_form;
use known_blocks::Known;
use nc_number::{Value, Var};
use nc_text::Block;
use nose_words::nose_form;
use peck_form::peck_form;
use plain_form::{FormAnswer, FormSettings, Scene, Unit};
use reference_form::reference_form;
use rough_words::rough_form;
use small_forms::{codes_form, foreign_form};
use std::alloc::{AllocError, Global};
use taper_form::taper_form;
use thread_form::thread_form;

/// The number that a variable holds, if it holds one.
fn number_of(held: &Var) -> Option<Value>
    ensures { result ≡ number_of held.now }
{
    match held {
        Var::Vacant => None,
        Var::Is(value) => Some(*value),
    }
}

/// The number that a feed is, if it is known and one.
fn value_of(feed: &Option<Var>) -> Option<Value>
    ensures { result ≡ value_of feed.now }
{
    match feed {
        Some(held) => number_of(held),
        None => None,
    }
}

/// What is known before a block, as forms take it.
pub(crate) fn scene_of(system: System, known: &Known) -> Scene
    ensures { result ≡ scene_of system known.now }
{
    Scene {
        system,
        unit: Some(Unit::Millimetre),
        x: known.x,
        z: known.z,
        motion: known.motion,
        incremental: known.incremental,
        per_rev: known.per_rev,
        feed: value_of(&known.feed),
        tool: known.tool,
    }
}

/// What the form of codes answers, or else that of blocks that are refused by a cause of their own.
fn ask_codes(
    alloc: Global,
    blocks: &[Block],
    place: usize,
    scene: &Scene,
    settings: &FormSettings,
) -> Result<FormAnswer, AllocError>
    ensures { IfOk result (λ answer. answer ≡ ask_codes blocks.now place scene.now settings.now) }
{
    let answer = codes_form(alloc, blocks, place, scene, settings)?;
    match answer {
        FormAnswer::NotMine => Ok(foreign_form(blocks, place)),
        FormAnswer::Refused(fault) => Ok(FormAnswer::Refused(fault)),
        FormAnswer::Written(lines) => Ok(FormAnswer::Written(lines)),
    }
}

/// What the form of corners answers, or else that of codes.
fn ask_corners(
    alloc: Global,
    blocks: &[Block],
    place: usize,
    scene: &Scene,
    settings: &FormSettings,
) -> Result<FormAnswer, AllocError>
    ensures { IfOk result (λ answer. answer ≡ ask_corners blocks.now place scene.now settings.now) }
{
    let answer = corners_form(alloc, blocks, place, scene)?;
    match answer {
        FormAnswer::NotMine => ask_codes(alloc, blocks, place, scene, settings),
        FormAnswer::Refused(fault) => Ok(FormAnswer::Refused(fault)),
        FormAnswer::Written(lines) => Ok(FormAnswer::Written(lines)),
    }
}

/// What the form of compensation of the nose answers, or else those of corners and of codes.
fn ask_noses(
    alloc: Global,
    blocks: &[Block],
    place: usize,
    scene: &Scene,
    settings: &FormSettings,
) -> Result<FormAnswer, AllocError>
    ensures { IfOk result (λ answer. answer ≡ ask_noses blocks.now place scene.now settings.now) }
{
    let answer = nose_form(alloc, blocks, place, scene, settings)?;
    match answer {
        FormAnswer::NotMine => ask_corners(alloc, blocks, place, scene, settings),
        FormAnswer::Refused(fault) => Ok(FormAnswer::Refused(fault)),
        FormAnswer::Written(lines) => Ok(FormAnswer::Written(lines)),
    }
}

/// What the form of roughing answers, or else those of the nose, of corners and of codes.
fn ask_rough(
    alloc: Global,
    blocks: &[Block],
    place: usize,
    scene: &Scene,
    settings: &FormSettings,
) -> Result<FormAnswer, AllocError>
    ensures { IfOk result (λ answer. answer ≡ ask_rough blocks.now place scene.now settings.now) }
{
    let answer = rough_form(alloc, blocks, place, scene, settings)?;
    match answer {
        FormAnswer::NotMine => ask_noses(alloc, blocks, place, scene, settings),
        FormAnswer::Refused(fault) => Ok(FormAnswer::Refused(fault)),
        FormAnswer::Written(lines) => Ok(FormAnswer::Written(lines)),
    }
}

/// What the form of grooves and holes answers, or else those of roughing, of the nose, of corners and
/// of codes.
fn ask_pecks(
    alloc: Global,
    blocks: &[Block],
    place: usize,
    scene: &Scene,
    settings: &FormSettings,
) -> Result<FormAnswer, AllocError>
    ensures { IfOk result (λ answer. answer ≡ ask_pecks blocks.now place scene.now settings.now) }
{
    let answer = peck_form(alloc, blocks, place, scene, settings)?;
    match answer {
        FormAnswer::NotMine => ask_rough(alloc, blocks, place, scene, settings),
        FormAnswer::Refused(fault) => Ok(FormAnswer::Refused(fault)),
        FormAnswer::Written(lines) => Ok(FormAnswer::Written(lines)),
    }
}

/// What the form of G30 answers, or else those of grooves and holes and the further ones.
fn ask_references(
    alloc: Global,
    blocks: &[Block],
    place: usize,
    scene: &Scene,
    settings: &FormSettings,
) -> Result<FormAnswer, AllocError>
    ensures { IfOk result (λ answer. answer ≡ ask_references blocks.now place scene.now settings.now) }
{
    let answer = reference_form(alloc, blocks, place, scene, settings)?;
    match answer {
        FormAnswer::NotMine => ask_pecks(alloc, blocks, place, scene, settings),
        FormAnswer::Refused(fault) => Ok(FormAnswer::Refused(fault)),
        FormAnswer::Written(lines) => Ok(FormAnswer::Written(lines)),
    }
}

/// What the form of cuts along tapers answers, or else those of G30 and the further ones.
fn ask_tapers(
    alloc: Global,
    blocks: &[Block],
    place: usize,
    scene: &Scene,
    settings: &FormSettings,
) -> Result<FormAnswer, AllocError>
    ensures { IfOk result (λ answer. answer ≡ ask_tapers blocks.now place scene.now settings.now) }
{
    let answer = taper_form(alloc, blocks, place, scene)?;
    match answer {
        FormAnswer::NotMine => ask_references(alloc, blocks, place, scene, settings),
        FormAnswer::Refused(fault) => Ok(FormAnswer::Refused(fault)),
        FormAnswer::Written(lines) => Ok(FormAnswer::Written(lines)),
    }
}

/// What the first of the forms answers that takes the block: of threads, of tapers, of G30, of grooves
/// and holes, of roughing, of the nose, of corners, of codes.
pub(crate) fn ask(
    alloc: Global,
    blocks: &[Block],
    place: usize,
    scene: &Scene,
    settings: &FormSettings,
) -> Result<FormAnswer, AllocError>
    ensures { IfOk result (λ answer. answer ≡ ask blocks.now place scene.now settings.now) }
{
    let answer = thread_form(alloc, blocks, place, scene, settings)?;
    match answer {
        FormAnswer::NotMine => ask_tapers(alloc, blocks, place, scene, settings),
        FormAnswer::Refused(fault) => Ok(FormAnswer::Refused(fault)),
        FormAnswer::Written(lines) => Ok(FormAnswer::Written(lines)),
    }
}
