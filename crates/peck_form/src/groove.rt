//! G74 and G75: `G74 R` with how far the tool draws back, and `G74 X Z P Q R F`.
ghost use Rattle.std.specs.Prelude.{◌≡◌, ◌≤◌, IfOk, option_copied, unsigned_abs};
ghost use Rattle.nc_number.specs.declared.limits.TheConstants.{LONGEST_SAID};
ghost use Rattle.peck_form.specs.Groove.{groove_code, retreat_of, is_retreat_line, retreat_said, retreat_from, relief_cause, head_cause, twice_cause, body_cause, relief_of, doubled, along_z, along_x, groove_of, written, plain_lines, groove_lines, body_answer, next_answer, groove_answer};

use crate::answers::groove_cause;
use code_tables::CodeKind;
use cycle_words::{
    calculated_in, count_or, first_cause, length_or, length_said, lines_of, no_count_in,
    place_said, push_code_before, refused, says_ends, scene_cause, start_of, unexpected_in,
    value_said, words_of,
};
use line_words::twice_of;
use nc_number::{ListOf, Point, Value};
use nc_text::{Block, Word};
use peck_cycle::{Along, GrooveCycle, Pecks, Retreat};
use plain_block::PlainBlock;
use plain_form::{FormAnswer, FormSettings, PlainCause, Scene, WrittenLine, has_code};
use std::alloc::{AllocError, Global};

/// The code of a groove along an axis, in millionths.
pub(crate) fn groove_code(along: Along) -> i64
    ensures { result ≡ groove_code along }
{
    match along {
        Along::Z => 74_000_000,
        Along::X => 75_000_000,
    }
}

/// How far the tool draws back: R of the first line, as a radius, or as far as before it.
fn retreat_of(head: &[Word], before: u64) -> u64
    ensures { result ≡ retreat_of before head.now }
{
    match length_said(head, b'R') {
        Some(said) => said.unsigned_abs(),
        None => before,
    }
}

/// Whether the words are those of a first line, of G74 or of G75.
fn is_retreat_line(words: &[Word]) -> bool
    ensures { result ≡ is_retreat_line words.now }
{
    (has_code(words, groove_code(Along::Z)) || has_code(words, groove_code(Along::X)))
        && !says_ends(words)
}

/// How far the tool draws back after a block.
fn retreat_said(words: &[Word], before: u64) -> u64
    ensures { result ≡ retreat_said before words.now }
{
    if is_retreat_line(words) {
        retreat_of(words, before)
    } else {
        before
    }
}

/// How far it draws back after blocks, in the order of the text: the R of G74 and G75 stays in
/// force. Without one it is the machine's choice.
pub(crate) fn retreat_before(blocks: &[Block], settings: &FormSettings) -> u64
    ensures { result ≡ retreat_from settings.now.groove_retreat blocks.now }
{
    let mut retreat = settings.groove_retreat;
    for block in blocks {
        retreat = retreat_said(words_of(block), retreat);
    }
    retreat
}

/// That R is negative.
fn relief_cause(words: &[Word]) -> Option<PlainCause>
    ensures { result ≡ relief_cause words.now }
{
    if length_or(words, b'R', 0) < 0 {
        Some(PlainCause::Range(b'R'))
    } else {
        None
    }
}

/// Why the first line is refused.
fn head_cause(head: &[Word], along: Along) -> Option<PlainCause>
    ensures { result ≡ head_cause along head.now }
{
    let strange = unexpected_in(head, b"GR", &[groove_code(along)]);
    let calculated = calculated_in(head, b"R");
    first_cause(strange, first_cause(calculated, relief_cause(head)))
}

/// That an axis is named twice: X beside U, or Z beside W.
pub(crate) fn twice_cause(words: &[Word]) -> Option<PlainCause>
    ensures { result ≡ twice_cause words.now }
{
    first_cause(twice_of(words, b'X', b'U'), twice_of(words, b'Z', b'W'))
}

/// Why the second line is refused.
fn body_cause(body: &[Word], along: Along, scene: &Scene) -> Option<PlainCause>
    ensures { result ≡ body_cause along scene.now body.now }
{
    let letters = unexpected_in(body, b"GXUZWPQRF", &[groove_code(along)]);
    let strange = first_cause(letters, twice_cause(body));
    let calculated = calculated_in(body, b"XUZWPQRF");
    let counts = no_count_in(body, b"PQ");
    let words = first_cause(strange, first_cause(calculated, counts));
    first_cause(words, first_cause(relief_cause(body), scene_cause(scene)))
}

/// The size of R of the second line.
fn relief_of(body: &[Word]) -> u64
    ensures relief { result ≡ relief_of body.now }
    ensures near { result ≤ LONGEST_SAID }
{
    match length_said(body, b'R') {
        Some(said) => said.unsigned_abs(),
        None => 0,
    }
}

/// What the lines say of a groove along Z: pecks of Q, columns by P, which is a radius.
fn along_z(retreat: u64, body: &[Word], start: &Point) -> GrooveCycle
    requires x { unsigned_abs start.now.x ≤ LONGEST_SAID }
    requires z { unsigned_abs start.now.z ≤ LONGEST_SAID }
    ensures { result ≡ along_z retreat start.now body.now }
{
    GrooveCycle {
        pecks: Pecks {
            along: Along::Z,
            level: start.z,
            bottom: place_said(body, b'Z', b'W', start.z),
            peck: count_or(body, b'Q', 0),
            back: retreat,
            retreat: Retreat::Short,
        },
        from: start.x,
        to: place_said(body, b'X', b'U', start.x),
        step: doubled(count_or(body, b'P', 0)),
        relief: doubled(relief_of(body)),
    }
}

/// What the lines say of a groove in X: pecks of P, which is a radius, columns by Q.
fn along_x(retreat: u64, body: &[Word], start: &Point) -> GrooveCycle
    requires x { unsigned_abs start.now.x ≤ LONGEST_SAID }
    requires z { unsigned_abs start.now.z ≤ LONGEST_SAID }
    ensures { result ≡ along_x retreat start.now body.now }
{
    GrooveCycle {
        pecks: Pecks {
            along: Along::X,
            level: start.x,
            bottom: place_said(body, b'X', b'U', start.x),
            peck: doubled(count_or(body, b'P', 0)),
            back: doubled(retreat),
            retreat: Retreat::Short,
        },
        from: start.z,
        to: place_said(body, b'Z', b'W', start.z),
        step: count_or(body, b'Q', 0),
        relief: relief_of(body),
    }
}

/// A radius as a diameter; one that no word can say stays as it is.
pub(crate) fn doubled(radius: u64) -> u64
    ensures { result ≡ doubled radius }
{
    if radius <= 1_000_000_000_000 {
        2 * radius
    } else {
        radius
    }
}

/// What the lines say.
fn groove_of(along: Along, retreat: u64, body: &[Word], start: &Point) -> GrooveCycle
    requires x { unsigned_abs start.now.x ≤ LONGEST_SAID }
    requires z { unsigned_abs start.now.z ≤ LONGEST_SAID }
    ensures { result ≡ groove_of along retreat start.now body.now }
{
    match along {
        Along::Z => along_z(retreat, body, start),
        Along::X => along_x(retreat, body, start),
    }
}

/// The lines of a groove's blocks with a feed, and that of the code in force before it.
fn plain_lines(
    alloc: Global,
    blocks: &[PlainBlock],
    feed: &Option<Value>,
    motion: &Option<CodeKind>,
) -> Result<Vec<Block>, AllocError>
    ensures { IfOk result (λ lines. lines.items ≡ plain_lines motion.now feed.now blocks.now) }
{
    let mut lines = lines_of(alloc, blocks, feed)?;
    push_code_before(alloc, motion, &mut lines)?;
    Ok(lines)
}

/// The answer to a groove in its lines: if there is one with R, the blocks stand for that.
fn groove_lines(
    alloc: Global,
    groove: &GrooveCycle,
    body: &Block,
    two: bool,
    motion: &Option<CodeKind>,
) -> Result<FormAnswer, AllocError>
    ensures { IfOk result (λ answer. answer ≡ groove_lines groove.now body.now two motion.now) }
{
    if let Some(fault) = groove.fault() {
        return Ok(refused(body.line, groove_cause(groove.pecks.along, fault)));
    }
    let Some(blocks) = groove.blocks(alloc)? else {
        return Ok(refused(body.line, PlainCause::Passes));
    };
    let feed = value_said(words_of(body), b'F');
    let lines = plain_lines(alloc, &blocks, &feed, motion)?;
    written(alloc, lines, two)
}

/// Lines in place of the cycle's: all blocks stand for the first, whose number a jump may name.
fn written(alloc: Global, lines: Vec<Block>, two: bool) -> Result<FormAnswer, AllocError>
    ensures { IfOk result (λ answer. answer ≡ written two lines.items) }
{
    let mut all = Vec::new(alloc);
    all.push(WrittenLine {
        blocks: ListOf::of(lines),
    })?;
    if two {
        all.push(WrittenLine {
            blocks: ListOf::of(Vec::new(alloc)),
        })?;
    }
    Ok(FormAnswer::Written(ListOf::of(all)))
}

/// The answer to the line with the groove, after the one with R or alone.
fn body_answer(
    alloc: Global,
    along: Along,
    retreat: u64,
    body: &Block,
    two: bool,
    scene: &Scene,
) -> Result<FormAnswer, AllocError>
    ensures { IfOk result (λ answer. answer ≡ body_answer along retreat body.now two scene.now) }
{
    let words = words_of(body);
    if let Some(cause) = body_cause(words, along, scene) {
        return Ok(refused(body.line, cause));
    }
    let Some(start) = start_of(scene) else {
        return Ok(refused(body.line, PlainCause::Position));
    };
    let groove = groove_of(along, retreat, words, &start);
    groove_lines(alloc, &groove, body, two, &scene.motion)
}

/// The answer to a block with G74 or G75, before this one, if the tool draws back so far before
/// both.
pub(crate) fn groove_answer(
    alloc: Global,
    along: Along,
    retreat: u64,
    block: &Block,
    next: Option<&Block>,
    scene: &Scene,
) -> Result<FormAnswer, AllocError>
    ensures { IfOk result (λ answer.
        answer ≡ groove_answer along retreat block.now (option_copied next.entry) scene.now) }
{
    let head = words_of(block);
    if says_ends(head) {
        return body_answer(alloc, along, retreat, block, false, scene);
    }
    if let Some(cause) = head_cause(head, along) {
        return Ok(refused(block.line, cause));
    }
    let Some(next) = next else {
        return Ok(refused(block.line, PlainCause::NoForm));
    };
    next_answer(alloc, along, retreat, block, next, scene)
}

/// The answer to a line with R, before this one.
fn next_answer(
    alloc: Global,
    along: Along,
    retreat: u64,
    block: &Block,
    next: &Block,
    scene: &Scene,
) -> Result<FormAnswer, AllocError>
    ensures { IfOk result (λ answer. answer ≡ next_answer along retreat block.now next.now scene.now) }
{
    if has_code(words_of(next), groove_code(along)) {
        let retreat = retreat_of(words_of(block), retreat);
        body_answer(alloc, along, retreat, next, true, scene)
    } else {
        Ok(refused(block.line, PlainCause::NoForm))
    }
}
