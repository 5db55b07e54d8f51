//! The form of compensation of the nose radius: what is answered of a block.
ghost use Rattle.std.specs.Prelude.{◌≡◌, ◌++◌, ◌∷◌, [], All, IfOk, drop};
ghost use Rattle.nc_number.specs.Position.{IsPosition};
ghost use Rattle.nose_words.specs.Said.{LeadsToPosition};
ghost use Rattle.nose_words.specs.Told.{IsSmall};
ghost use Rattle.nose_words.specs.Written.{whole_from};
ghost use Rattle.nose_words.specs.Form.{side_in, pace_of, standing_of, path_answer, whole_run, start_answer, begin_answer, nose_form};

use crate::path::{PathRead, run_path};
use crate::run::{RunRead, push_line, run_lines};
use crate::said::{LEFT_CODE, NoseLine, Pace, RIGHT_CODE, Stage, Standing};
use crate::told::{Tip, tool_tip};
use crate::written::{cut_answer, whole_answer};
use code_tables::CodeKind;
use cycle_words::{refused, way_cause, words_of};
use line_words::begin_of;
use nc_number::Point;
use nc_text::{Block, Word};
use plain_form::{FormAnswer, FormSettings, PlainCause, Scene, has_code};
use plane_ways::Side;
use std::alloc::{AllocError, Global};

/// On which side of the contour the tool is from a block with these words on, if they say so.
fn side_in(words: &[Word]) -> Option<Side>
    ensures { result ≡ side_in words.now }
{
    if has_code(words, LEFT_CODE) {
        Some(Side::Left)
    } else if has_code(words, RIGHT_CODE) {
        Some(Side::Right)
    } else {
        None
    }
}

/// How a block with an axis word moves under a code of motion.
fn pace_of(motion: &Option<CodeKind>) -> Pace
    ensures { result ≡ pace_of motion.now }
{
    match *motion {
        Some(CodeKind::Rapid) => Pace::Rapid,
        Some(CodeKind::Feed) => Pace::Cut,
        _ => Pace::Other,
    }
}

/// Where a run stands before its first block.
fn standing_of(scene: &Scene, start: &Point) -> Standing
    ensures { result ≡ standing_of scene.now start.now }
{
    Standing {
        stage: Stage::First,
        pace: pace_of(&scene.motion),
        from: *start,
    }
}

/// The answer to a run of these lines, of which the last leads off their contour.
fn path_answer(
    alloc: Global,
    tip: &Tip,
    path: PathRead,
    lines: &[NoseLine],
) -> Result<FormAnswer, AllocError>
    requires { IsSmall tip.now }
    ensures { IfOk result (λ answer. answer ≡ path_answer tip.now path lines.now) }
{
    match path {
        PathRead::Legs(legs) => cut_answer(alloc, tip, lines, legs.as_slice()),
        PathRead::Stops(fault) => Ok(FormAnswer::Refused(fault)),
    }
}

/// The lines of a run, with the one that leads off.
fn all_lines(lines: Vec<NoseLine>, off: &NoseLine) -> Result<Vec<NoseLine>, AllocError>
    ensures { IfOk result (λ all. all.items ≡ lines.items ++ off.now ∷ []) }
{
    let mut all = lines;
    push_line(&mut all, off)?;
    Ok(all)
}

/// The answer to a run whose nose has no radius.
fn flat_answer(
    alloc: Global,
    lines: Vec<NoseLine>,
    off: &NoseLine,
) -> Result<FormAnswer, AllocError>
    ensures { IfOk result (λ answer. answer ≡ whole_from [] (lines.items ++ off.now ∷ [])) }
{
    let all = all_lines(lines, off)?;
    whole_answer(alloc, &all)
}

/// The answer to a run that was read, from a point.
fn whole_run(
    alloc: Global,
    side: Side,
    tip: &Tip,
    start: &Point,
    lines: Vec<NoseLine>,
    off: &NoseLine,
) -> Result<FormAnswer, AllocError>
    requires tip { IsSmall tip.now }
    requires start { IsPosition start.now }
    requires lines { All LeadsToPosition lines.items }
    requires off { LeadsToPosition off.now }
    ensures { IfOk result (λ answer. answer ≡ whole_run side tip.now start.now lines.items off.now) }
{
    if tip.radius == 0 {
        return flat_answer(alloc, lines, off);
    }
    let path = run_path(alloc, side, tip, start, &lines, off)?;
    let all = all_lines(lines, off)?;
    path_answer(alloc, tip, path, &all)
}

/// The answer to a run that begins with the first of these blocks, in this line of the tape.
fn start_answer(
    alloc: Global,
    line: u32,
    side: Side,
    tip: &Tip,
    standing: &Standing,
    blocks: &[Block],
) -> Result<FormAnswer, AllocError>
    requires tip { IsSmall tip.now }
    requires from { IsPosition standing.now.from }
    ensures { IfOk result (λ answer. answer ≡ start_answer line side tip.now standing.now blocks.now) }
{
    match run_lines(alloc, line, standing, blocks)? {
        RunRead::Whole { lines, off } => {
            whole_run(alloc, side, tip, &standing.from, lines.into_vec(), &off)
        }
        RunRead::Stops(fault) => Ok(FormAnswer::Refused(fault)),
    }
}

/// The answer to a block with G41 or G42, with which these blocks begin.
fn begin_answer(
    alloc: Global,
    block: &Block,
    side: Side,
    blocks: &[Block],
    scene: &Scene,
    settings: &FormSettings,
) -> Result<FormAnswer, AllocError>
    ensures { IfOk result (λ answer. answer ≡ begin_answer block.now side blocks.now scene.now settings.now) }
{
    if let Some(cause) = way_cause(scene) {
        return Ok(refused(block.line, cause));
    }
    let Some(start) = begin_of(scene) else {
        return Ok(refused(block.line, PlainCause::Position));
    };
    match tool_tip(&scene.tool, settings.noses.as_slice()) {
        Ok(tip) => {
            let standing = standing_of(scene, &start);
            start_answer(alloc, block.line, side, &tip, &standing, blocks)
        }
        Err(cause) => Ok(refused(block.line, cause)),
    }
}

/// What is answered of a block: the form of compensation of the nose radius. Not its own is a block
/// without G41 and G42. Any other is written out with the lines after it, up to the one that leads off
/// the contour; or it is refused with the line at fault. The only error is out of memory.
pub fn nose_form(
    alloc: Global,
    blocks: &[Block],
    place: usize,
    scene: &Scene,
    settings: &FormSettings,
) -> Result<FormAnswer, AllocError>
    ensures { IfOk result (λ answer. answer ≡ nose_form blocks.now place scene.now settings.now) }
{
    let Some(block) = blocks.get(place) else {
        return Ok(FormAnswer::NotMine);
    };
    let Some(side) = side_in(words_of(block)) else {
        return Ok(FormAnswer::NotMine);
    };
    let run = blocks.get(place..).unwrap_or(&[]);
    begin_answer(alloc, block, side, run, scene, settings)
}
