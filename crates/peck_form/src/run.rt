//! A run of holes: the block with the code, and each after it that has a word of an axis, up to G80,
//! a code of motion, or holes along the other axis.
ghost use Rattle.std.specs.Prelude.{◌≡◌, ◌++◌, ◌∷◌, [], IfOk, OnOk, None};
ghost use Rattle.peck_cycle.specs.Drills.{in_blocks, way_out};
ghost use Rattle.peck_cycle.specs.Faults.{hole_fault_of};
ghost use Rattle.cycle_words.specs.Motion.{is_cut, cuts_before, code_lines};
ghost use Rattle.peck_form.specs.Holes.{level_of, bottom_of};
ghost use Rattle.peck_form.specs.Run.{letters_of, is_idle, is_strange, strange_letter, names_axis, has_idle, strange_cause, are_known, kind_cause, strange_words, repeats_cause, read_cause, axis_cause, words_cause, hole_lines, repeated, says_beside, beside_lines, leaves_feed, rapid_lines, block_lines, cuts_by, fault_step, bottom_step, level_step, said_step, block_step, run_from};

use crate::answers::hole_cause;
use crate::groove::twice_cause;
use crate::hole::{HoleSaid, bottom_of};
use crate::kind::{HoleCode, HoleKind, ends_run, letter_of_place, letter_of_way, other_axis};
use crate::turns::{Turns, push_turn, turns_of};
use code_tables::{CodeKind, System};
use cycle_words::{
    are_taken, calculated_in, count_or, first_cause, is_said, no_count_in, push_code_before,
    push_lines, refused, says_ends, words_of,
};
use nc_number::ListOf;
use nc_text::{Block, BlockList, Word};
use peck_cycle::{Along, DrillCycle, ReturnLevel};
use plain_block::{Course, PlainBlock};
use plain_form::{
    FormAnswer, FormSettings, PlainCause, WrittenLine, is_one_of, plain_line, push_word,
};
use std::alloc::{AllocError, Global};

/// The most often that a hole is repeated.
pub const MOST_REPEATS: u64 = 100;

/// What the next block of a run is.
#[derive(Debug, Drop)]
pub(crate) enum HoleStep {
    /// It is no more of the run.
    Ends,
    /// It can't be written out, and why.
    Stops(PlainCause),
    /// It is a hole: these blocks.
    Cuts(BlockList),
}

/// The letters that a block of a run may have.
fn letters_of(system: System) -> &'static [u8]
    ensures { result.now ≡ letters_of system }
{
    match system {
        System::A => b"GXUZWRQPFK",
        System::B => b"GXZRQPFK",
    }
}

/// Whether the machine moves neither X nor Z at words of a letter.
fn is_idle(letter: u8, settings: &FormSettings) -> bool
    ensures { result ≡ is_idle settings.now letter }
{
    is_one_of(settings.idle.as_slice(), letter)
}

/// Whether a block of a run may not have the letter.
fn is_strange(letter: u8, letters: &[u8], settings: &FormSettings) -> bool
    ensures { result ≡ is_strange letters.now settings.now letter }
{
    !is_one_of(letters, letter) && !is_idle(letter, settings)
}

/// The first letter that a block of a run may not have.
fn strange_letter(words: &[Word], letters: &[u8], settings: &FormSettings) -> Option<u8>
    ensures { result ≡ strange_letter letters.now settings.now words.now }
{
    for word in words {
        if is_strange(word.letter, letters, settings) {
            return Some(word.letter);
        }
    }
    None
}

/// Whether the words name an axis, so that the block is a hole.
fn names_axis(words: &[Word], settings: &FormSettings) -> bool
    ensures { result ≡ names_axis settings.now words.now }
{
    says_ends(words) || has_idle(words, settings)
}

/// Whether a word moves neither X nor Z.
fn has_idle(words: &[Word], settings: &FormSettings) -> bool
    ensures { result ≡ has_idle settings.now words.now }
{
    words.iter().any(|word| is_idle(word.letter, settings))
}

/// That a letter or a code is strange to the run.
fn strange_cause(
    words: &[Word],
    code: &HoleCode,
    system: System,
    settings: &FormSettings,
) -> Option<PlainCause>
    ensures { result ≡ strange_cause code.now system settings.now words.now }
{
    if let Some(letter) = strange_letter(words, letters_of(system), settings) {
        return Some(PlainCause::Unexpected(letter));
    }
    if are_known(words, code, system) {
        None
    } else {
        Some(PlainCause::Unexpected(b'G'))
    }
}

/// Whether each code is that of the run, or a level of system B.
fn are_known(words: &[Word], code: &HoleCode, system: System) -> bool
    ensures { result ≡ are_known code.now system words.now }
{
    match system {
        System::A => are_taken(words, &[code.number()]),
        System::B => are_taken(words, &[code.number(), 98_000_000, 99_000_000]),
    }
}

/// Why the repeats are refused: there are too many, or each would lie farther beside.
fn repeats_cause(words: &[Word], along: Along) -> Option<PlainCause>
    ensures { result ≡ repeats_cause along words.now }
{
    let repeats = count_or(words, b'K', 1);
    if repeats > MOST_REPEATS {
        return Some(PlainCause::Range(b'K'));
    }
    if repeats > 1 && is_said(words, letter_of_way(other_axis(along))) {
        Some(PlainCause::Range(b'K'))
    } else {
        None
    }
}

/// That Q stands beside holes that have no pecks.
fn kind_cause(words: &[Word], kind: HoleKind) -> Option<PlainCause>
    ensures { result ≡ kind_cause kind words.now }
{
    let said = if is_said(words, b'Q') {
        Some(PlainCause::Unexpected(b'Q'))
    } else {
        None
    };
    match kind {
        HoleKind::Drill => None,
        HoleKind::Tap | HoleKind::Bore => said,
    }
}

/// Words that the hole can't have: that Q, or an axis that is named twice.
fn strange_words(words: &[Word], code: &HoleCode) -> Option<PlainCause>
    ensures { result ≡ strange_words code.now words.now }
{
    first_cause(kind_cause(words, code.kind()), twice_cause(words))
}

/// Why the words of a block of a run can't be read.
fn read_cause(
    words: &[Word],
    code: &HoleCode,
    system: System,
    settings: &FormSettings,
) -> Option<PlainCause>
    ensures { result ≡ read_cause code.now system settings.now words.now }
{
    let strange = strange_cause(words, code, system, settings);
    let calculated = calculated_in(words, b"XUZWRQPFK");
    let counts = no_count_in(words, b"QPK");
    let numbers = first_cause(calculated, counts);
    first_cause(strange, first_cause(strange_words(words, code), numbers))
}

/// That a block names no axis, and so is no hole.
fn axis_cause(words: &[Word], settings: &FormSettings) -> Option<PlainCause>
    ensures { result ≡ axis_cause settings.now words.now }
{
    if names_axis(words, settings) {
        None
    } else {
        Some(PlainCause::NoForm)
    }
}

/// Why the words of a block of a run are refused.
fn words_cause(
    words: &[Word],
    code: &HoleCode,
    system: System,
    settings: &FormSettings,
) -> Option<PlainCause>
    ensures { result ≡ words_cause code.now system settings.now words.now }
{
    let read = read_cause(words, code, system, settings);
    let axis = axis_cause(words, settings);
    let repeats = repeats_cause(words, code.along());
    first_cause(read, first_cause(axis, repeats))
}

/// Puts the lines of a hole with these ways in and out: the spindle of a tap turns about between
/// them, and back after them.
fn push_hole(
    alloc: Global,
    said: &HoleSaid,
    turns: &Turns,
    inside: &[PlainBlock],
    out: &[PlainBlock],
    lines: &mut Vec<Block>,
) -> Result<(), AllocError>
    ensures { OnOk result (lines.new.items ≡ lines.old.items ++ hole_lines said.now turns.now inside.now out.now) }
{
    push_lines(alloc, inside, &said.feed, lines)?;
    push_turn(alloc, said.code.kind(), &turns.about, lines)?;
    push_lines(alloc, out, &said.feed, lines)?;
    push_turn(alloc, said.code.kind(), &turns.back, lines)?;
    Ok(())
}

/// Puts them so many times.
#[tactic(auto, using(crate::proofs::Repeats::once_more))]
fn push_repeats(
    alloc: Global,
    said: &HoleSaid,
    turns: &Turns,
    inside: &[PlainBlock],
    out: &[PlainBlock],
    repeats: u64,
    lines: &mut Vec<Block>,
) -> Result<(), AllocError>
    ensures { OnOk result (lines.new.items ≡
        lines.old.items ++ repeated repeats (hole_lines said.now turns.now inside.now out.now)) }
{
    for _ in 0..repeats {
        push_hole(alloc, said, turns, inside, out, lines)?;
    }
    Ok(())
}

/// Puts the rapid beside the holes, if the words name a place there.
fn push_beside(
    alloc: Global,
    words: &[Word],
    along: Along,
    beside: i64,
    lines: &mut Vec<Block>,
) -> Result<(), AllocError>
    ensures { OnOk result (lines.new.items ≡ lines.old.items ++ beside_lines along beside words.now) }
{
    if !says_beside(words, along) {
        return Ok(());
    }
    let block = match along {
        Along::Z => PlainBlock::across_to(Course::Rapid, beside),
        Along::X => PlainBlock::along_to(Course::Rapid, beside),
    };
    push_lines(alloc, &[block], &None, lines)?;
    Ok(())
}

/// Whether the words name a place beside the holes.
fn says_beside(words: &[Word], along: Along) -> bool
    ensures { result ≡ says_beside along words.now }
{
    let other = other_axis(along);
    is_said(words, letter_of_place(other)) || is_said(words, letter_of_way(other))
}

/// Whether holes are left by the feed to the point R, which leaves G01 in force.
fn leaves_feed(kind: HoleKind, returns: ReturnLevel) -> bool
    ensures { result ≡ leaves_feed kind returns }
{
    match (kind, returns) {
        (HoleKind::Drill, ReturnLevel::Start) => false,
        (HoleKind::Drill, ReturnLevel::PointR) => false,
        (HoleKind::Tap, ReturnLevel::Start) => false,
        (HoleKind::Tap, ReturnLevel::PointR) => true,
        (HoleKind::Bore, ReturnLevel::Start) => false,
        (HoleKind::Bore, ReturnLevel::PointR) => true,
    }
}

/// Whether a code is G01.
fn is_cut(kind: CodeKind) -> bool
    ensures { result ≡ is_cut kind }
{
    matches!(kind, CodeKind::Feed)
}

/// Whether G01 was in force before a run.
fn cuts_before(motion: &Option<CodeKind>) -> bool
    ensures { result ≡ cuts_before motion.now }
{
    match *motion {
        Some(kind) => is_cut(kind),
        None => false,
    }
}

/// Puts the block that puts G00 in force again, if it was before the run and the holes leave G01.
fn push_rapid_before(
    alloc: Global,
    said: &HoleSaid,
    lines: &mut Vec<Block>,
) -> Result<(), AllocError>
    ensures { OnOk result (lines.new.items ≡ lines.old.items ++ rapid_lines said.now) }
{
    if !leaves_feed(said.code.kind(), said.returns) || cuts_before(&said.motion) {
        return Ok(());
    }
    let mut words = Vec::new(alloc);
    push_word(alloc, &mut words, b'G', b"00")?;
    lines.push(plain_line(words))?;
    Ok(())
}

/// Puts what was in force before the run in force again: G00 if the holes leave G01, and the code
/// itself.
fn push_codes_before(
    alloc: Global,
    said: &HoleSaid,
    lines: &mut Vec<Block>,
) -> Result<(), AllocError>
    ensures { OnOk result (lines.new.items ≡ lines.old.items ++ (rapid_lines said.now ++ code_lines said.now.motion)) }
{
    push_rapid_before(alloc, said, lines)?;
    push_code_before(alloc, &said.motion, lines)?;
    Ok(())
}

/// The lines of a block's holes: the rapid beside them, the hole as often as it is repeated, and
/// the code in force before the run.
fn block_lines(
    alloc: Global,
    words: &[Word],
    said: &HoleSaid,
    turns: &Turns,
    beside: i64,
    inside: &[PlainBlock],
    out: &[PlainBlock],
) -> Result<Vec<Block>, AllocError>
    ensures { IfOk result (λ lines.
        lines.items ≡ block_lines said.now turns.now beside inside.now out.now words.now) }
{
    let mut lines = Vec::new(alloc);
    push_beside(alloc, words, said.code.along(), beside, &mut lines)?;
    let repeats = count_or(words, b'K', 1);
    push_repeats(alloc, said, turns, inside, out, repeats, &mut lines)?;
    push_codes_before(alloc, said, &mut lines)?;
    Ok(lines)
}

/// What a block of the run is with a hole that has no fault.
fn cuts(
    alloc: Global,
    words: &[Word],
    said: &HoleSaid,
    beside: i64,
    hole: &DrillCycle,
    settings: &FormSettings,
) -> Result<HoleStep, AllocError>
    requires { hole_fault_of hole.now ≡ None }
    ensures { IfOk result (λ step.
        step ≡ cuts_by said.now beside settings.now (in_blocks hole.now) (way_out hole.now) words.now) }
{
    let Some(inside) = hole.in_blocks(alloc)? else {
        return Ok(HoleStep::Stops(PlainCause::Passes));
    };
    let mut out = Vec::new(alloc);
    hole.push_way_out(&mut out)?;
    let turns = turns_of(settings);
    let lines = block_lines(alloc, words, said, &turns, beside, &inside, &out)?;
    Ok(HoleStep::Cuts(ListOf::of(lines)))
}

/// What a block of the run is with a hole.
fn fault_step(
    alloc: Global,
    words: &[Word],
    said: &HoleSaid,
    beside: i64,
    hole: &DrillCycle,
    settings: &FormSettings,
) -> Result<HoleStep, AllocError>
    ensures { IfOk result (λ step.
        step ≡ fault_step said.now beside settings.now hole.now words.now (hole_fault_of hole.now)) }
{
    if let Some(fault) = hole.fault() {
        return Ok(HoleStep::Stops(hole_cause(said.code.along(), fault)));
    }
    let step = cuts(alloc, words, said, beside, hole, settings)?;
    Ok(step)
}

/// What a block of the run is at a place beside, with the point R at a level.
fn bottom_step(
    alloc: Global,
    words: &[Word],
    said: &HoleSaid,
    beside: i64,
    level: i64,
    settings: &FormSettings,
) -> Result<HoleStep, AllocError>
    ensures { IfOk result (λ step.
        step ≡ bottom_step said.now beside settings.now words.now level (bottom_of said.now.bottom level)) }
{
    let Some(bottom) = bottom_of(&said.bottom, level) else {
        let letter = letter_of_place(said.code.along());
        return Ok(HoleStep::Stops(PlainCause::Missing(letter)));
    };
    let hole = said.hole_to(level, bottom, settings);
    let step = fault_step(alloc, words, said, beside, &hole, settings)?;
    Ok(step)
}

/// What a block of the run is at a place beside.
fn level_step(
    alloc: Global,
    words: &[Word],
    said: &HoleSaid,
    beside: i64,
    settings: &FormSettings,
) -> Result<HoleStep, AllocError>
    ensures { IfOk result (λ step. step ≡ level_step said.now beside settings.now words.now (level_of said.now)) }
{
    let Some(level) = said.level() else {
        return Ok(HoleStep::Stops(PlainCause::Position));
    };
    let step = bottom_step(alloc, words, said, beside, level, settings)?;
    Ok(step)
}

/// What a block of the run is, with what is in force after it.
fn said_step(
    alloc: Global,
    words: &[Word],
    said: &HoleSaid,
    settings: &FormSettings,
) -> Result<HoleStep, AllocError>
    ensures { IfOk result (λ step. step ≡ said_step said.now settings.now words.now) }
{
    let Some(beside) = said.beside else {
        return Ok(HoleStep::Stops(PlainCause::Position));
    };
    let step = level_step(alloc, words, said, beside, settings)?;
    Ok(step)
}

/// What a block is in the run.
fn block_step(
    alloc: Global,
    words: &[Word],
    said: &HoleSaid,
    system: System,
    settings: &FormSettings,
) -> Result<HoleStep, AllocError>
    ensures { IfOk result (λ step. step ≡ block_step said.now system settings.now words.now) }
{
    if ends_run(words, &said.code, system) {
        return Ok(HoleStep::Ends);
    }
    if let Some(cause) = words_cause(words, &said.code, system, settings) {
        return Ok(HoleStep::Stops(cause));
    }
    said_step(alloc, words, said, settings)
}

/// The answer to a run of holes from what is in force before it: the blocks up to its end.
#[tactic(auto, unfolding(crate::specs::Run::run_from))]
pub(crate) fn run_answer(
    alloc: Global,
    blocks: &[Block],
    before: &HoleSaid,
    system: System,
    settings: &FormSettings,
) -> Result<FormAnswer, AllocError>
    ensures { IfOk result (λ answer. answer ≡ run_from blocks.now system settings.now before.now []) }
{
    let mut said = *before;
    let mut lines = Vec::new(alloc);
    for block in blocks {
        let words = words_of(block);
        said = said.after(words, system);
        match block_step(alloc, words, &said, system, settings)? {
            HoleStep::Ends => return Ok(FormAnswer::Written(ListOf::of(lines))),
            HoleStep::Stops(cause) => return Ok(refused(block.line, cause)),
            HoleStep::Cuts(blocks) => lines.push(WrittenLine { blocks })?,
        }
    }
    Ok(FormAnswer::Written(ListOf::of(lines)))
}
