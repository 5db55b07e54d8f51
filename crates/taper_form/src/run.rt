//! A run of cuts along tapers: the blocks that cut with X, Z, R and F in force.
ghost use Rattle.std.specs.Prelude.{◌≡◌, [], IfOk};
ghost use Rattle.thread_cycle.specs.Near.{IsWritten};
ghost use Rattle.thread_form.specs.Taper.{said_before};
ghost use Rattle.taper_form.specs.Runs.{letters_cause, twice_cause, words_cause, feed_fault, cut_to, cut_step, fed_step, said_step, block_step, run_from};

use crate::cut::TaperCut;
use crate::kind::TaperKind;
use code_tables::System;
use cycle_words::{
    calculated_in, first_cause, has_motion, lines_of, refused, says_ends, unexpected_in, words_of,
};
use line_words::twice_of;
use nc_number::{ListOf, Point, Value};
use nc_text::{Block, Word};
use plain_form::{FormAnswer, PlainCause, Scene, WrittenLine};
use std::alloc::{AllocError, Global};
use thread_form::{TaperSaid, TaperStep, letters_of, said_before};

/// Why the letters of a block of a run are refused: a word that it may not have, or a number that is
/// calculated.
fn letters_cause(words: &[Word], kind: TaperKind, system: System) -> Option<PlainCause>
    ensures { result ≡ letters_cause kind system words.now }
{
    let strange = unexpected_in(words, letters_of(system), &[kind.code(system)]);
    first_cause(strange, calculated_in(words, b"XUZWRF"))
}

/// That X stands beside U, or Z beside W.
fn twice_cause(words: &[Word]) -> Option<PlainCause>
    ensures { result ≡ twice_cause words.now }
{
    first_cause(twice_of(words, b'X', b'U'), twice_of(words, b'Z', b'W'))
}

/// Why the words of a block of a run are refused.
fn words_cause(words: &[Word], kind: TaperKind, system: System) -> Option<PlainCause>
    ensures { result ≡ words_cause kind system words.now }
{
    let ends = if says_ends(words) {
        None
    } else {
        Some(PlainCause::NoForm)
    };
    first_cause(
        letters_cause(words, kind, system),
        first_cause(twice_cause(words), ends),
    )
}

/// Why a feed can't be taken: it is 0 or below.
fn feed_fault(feed: Value) -> Option<PlainCause>
    ensures { result ≡ feed_fault feed }
{
    if feed.micro() <= 0 {
        Some(PlainCause::Range(b'F'))
    } else {
        None
    }
}

/// What a cut with this feed is in the run.
fn cut_step(alloc: Global, cut: &TaperCut, feed: Value) -> Result<TaperStep, AllocError>
    ensures { IfOk result (λ step. step ≡ cut_step cut.now feed) }
{
    if let Some(cause) = first_cause(cut.fault(), feed_fault(feed)) {
        return Ok(TaperStep::Stops(cause));
    }
    let lines = lines_of(alloc, &cut.blocks(), &Some(feed))?;
    Ok(TaperStep::Cuts(ListOf::of(lines)))
}

/// The same with the feed in force, if there is one.
fn fed_step(alloc: Global, cut: &TaperCut, feed: &Option<Value>) -> Result<TaperStep, AllocError>
    ensures { IfOk result (λ step. step ≡ fed_step cut.now feed.now) }
{
    match *feed {
        Some(feed) => cut_step(alloc, cut, feed),
        None => Ok(TaperStep::Stops(PlainCause::Feed)),
    }
}

/// What a block is in the run, with what is in force after it.
fn said_step(
    alloc: Global,
    kind: TaperKind,
    start: &Point,
    said: &TaperSaid,
) -> Result<TaperStep, AllocError>
    ensures { IfOk result (λ step. step ≡ said_step kind start.now said.now) }
{
    let Some(x) = said.x else {
        return Ok(TaperStep::Stops(PlainCause::Missing(b'X')));
    };
    let Some(z) = said.z else {
        return Ok(TaperStep::Stops(PlainCause::Missing(b'Z')));
    };
    let cut = TaperCut {
        kind,
        start: *start,
        target: Point { x, z },
        taper: said.taper,
    };
    fed_step(alloc, &cut, &said.lead)
}

/// What a block is in the run.
fn block_step(
    alloc: Global,
    words: &[Word],
    kind: TaperKind,
    system: System,
    start: &Point,
    said: &TaperSaid,
) -> Result<TaperStep, AllocError>
    ensures { IfOk result (λ step. step ≡ block_step words.now kind system start.now said.now) }
{
    if has_motion(words, system) {
        return Ok(TaperStep::Ends);
    }
    if let Some(cause) = words_cause(words, kind, system) {
        return Ok(TaperStep::Stops(cause));
    }
    said_step(alloc, kind, start, said)
}

/// The answer to a run from a start: the blocks up to the next code of motion.
#[tactic(auto, unfolding(crate::specs::Runs::run_from))]
pub(crate) fn run_answer(
    alloc: Global,
    blocks: &[Block],
    kind: TaperKind,
    start: &Point,
    scene: &Scene,
) -> Result<FormAnswer, AllocError>
    requires { IsWritten start.now }
    ensures { IfOk result (λ answer.
        answer ≡ run_from blocks.now kind scene.now.system start.now (said_before scene.now) []) }
{
    let mut said = said_before(scene);
    let mut lines = Vec::new(alloc);
    for block in blocks {
        let words = words_of(block);
        said = said.after(words, start);
        match block_step(alloc, words, kind, scene.system, start, &said)? {
            TaperStep::Ends => return Ok(FormAnswer::Written(ListOf::of(lines))),
            TaperStep::Stops(cause) => return Ok(refused(block.line, cause)),
            TaperStep::Cuts(blocks) => lines.push(WrittenLine { blocks })?,
        }
    }
    Ok(FormAnswer::Written(ListOf::of(lines)))
}
