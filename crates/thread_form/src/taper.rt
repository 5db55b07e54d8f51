//! G92 (G78 in system B) with a taper: the block, and the ones after it that cut with its X, Z, R
//! and F in force.
ghost use Rattle.std.specs.Prelude.{◌≡◌, ◌≤◌, [], IfOk, unsigned_abs};
ghost use Rattle.nc_number.specs.declared.limits.TheConstants.{LONGEST_SAID};
ghost use Rattle.thread_cycle.specs.Near.{IsWritten};
ghost use Rattle.cycle_words.specs.Numbers.{length_said, value_said};
ghost use Rattle.thread_form.specs.Taper.{taper_code, is_taper, begins_taper, letters_of, words_cause, axis_next, lead_next, said_after, pass_of, pass_step, lead_step, said_step, block_step, run_from, said_before, taper_answer};

use crate::answers::{ThreadWords, fault_cause};
use crate::coded::coded_lines;
use crate::two_lines::twice_cause;
use code_tables::System;
use cycle_words::{
    calculated_in, first_cause, has_motion, is_said, length_or, length_said, refused, says_ends,
    start_of, unexpected_in, value_said, way_cause, words_of,
};
use nc_number::{ListOf, Point, Value};
use nc_text::{Block, BlockList, Word};
use plain_form::{FormAnswer, FormSettings, PlainCause, Scene, WrittenLine, has_code};
use std::alloc::{AllocError, Global};
use thread_cycle::{RootRounding, ThreadCycle, TipAngle};

/// What is in force in a run of such blocks, and in one of tapers that are cut.
#[derive(Clone, Copy, Debug, PartialEq, Eq)]
pub struct TaperSaid {
    /// Where the thread or the cut ends in X.
    pub x: Option<i64>,
    /// Where it ends in Z.
    pub z: Option<i64>,
    /// Its taper.
    pub taper: i64,
    /// F: the lead of a thread, the feed of a cut.
    pub lead: Option<Value>,
}

/// What the next block of a run is.
#[derive(Debug, Drop)]
pub enum TaperStep {
    /// It is no more of the run.
    Ends,
    /// It can't be written out, and why.
    Stops(PlainCause),
    /// It cuts: these blocks.
    Cuts(BlockList),
}

/// The cycle's code in a system, in millionths.
fn taper_code(system: System) -> i64
    ensures { result ≡ taper_code system }
{
    match system {
        System::A => 92_000_000,
        System::B => 78_000_000,
    }
}

/// Whether a block begins such a run.
pub(crate) fn is_taper(words: &[Word], system: System) -> bool
    ensures { result ≡ is_taper system words.now }
{
    has_code(words, taper_code(system)) && is_said(words, b'R')
}

/// Whether a block begins a thread with a taper: G92 (G78 in system B) beside R.
pub fn begins_taper(block: &Block, system: System) -> bool
    ensures { result ≡ begins_taper system block.now.body }
{
    is_taper(words_of(block), system)
}

/// The letters that a block of a run may have.
pub fn letters_of(system: System) -> &'static [u8]
    ensures { result.now ≡ letters_of system }
{
    match system {
        System::A => b"GXUZWRF",
        System::B => b"GXZRF",
    }
}

/// Why the words of a block of a run are refused.
fn words_cause(words: &[Word], system: System) -> Option<PlainCause>
    ensures { result ≡ words_cause system words.now }
{
    let letters = unexpected_in(words, letters_of(system), &[taper_code(system)]);
    let strange = first_cause(letters, twice_cause(words));
    let calculated = calculated_in(words, b"XUZWRF");
    let ends = if says_ends(words) {
        None
    } else {
        Some(PlainCause::NoForm)
    };
    first_cause(strange, first_cause(calculated, ends))
}

/// Where an axis goes: to its word, or as far from the start, or where it went before.
fn axis_next(words: &[Word], to: u8, by: u8, start: i64, before: Option<i64>) -> Option<i64>
    requires { unsigned_abs start ≤ LONGEST_SAID }
    ensures { result ≡ axis_next (length_said to words.now) (length_said by words.now) start before }
{
    if let Some(place) = length_said(words, to) {
        return Some(place);
    }
    match length_said(words, by) {
        Some(way) => Some(start + way),
        None => before,
    }
}

/// The lead of a block: its own, or the one before.
fn lead_next(words: &[Word], before: Option<Value>) -> Option<Value>
    ensures { result ≡ lead_next (value_said 70 words.now) before }
{
    match value_said(words, b'F') {
        Some(lead) => Some(lead),
        None => before,
    }
}

impl TaperSaid {
    /// What is in force after a block.
    pub fn after(&self, words: &[Word], start: &Point) -> TaperSaid
        requires { IsWritten start.now }
        ensures { result ≡ said_after self.now words.now start.now }
    {
        TaperSaid {
            x: axis_next(words, b'X', b'U', start.x, self.x),
            z: axis_next(words, b'Z', b'W', start.z, self.z),
            taper: length_or(words, b'R', self.taper),
            lead: lead_next(words, self.lead),
        }
    }
}

/// The pass to an end, with what is in force.
fn pass_of(
    said: &TaperSaid,
    start: &Point,
    target: &Point,
    lead: Value,
    settings: &FormSettings,
) -> ThreadCycle
    ensures { result ≡ pass_of said.now start.now target.now lead settings.now }
{
    ThreadCycle {
        start: *start,
        target: *target,
        taper: said.taper,
        depth: 0,
        first: 0,
        least: 0,
        left: 0,
        finishing: 1,
        pull_out: settings.thread_pull_out,
        tip: TipAngle::Degrees0,
        rounding: RootRounding::Down,
        lead,
    }
}

/// What a pass is in the run.
fn pass_step(alloc: Global, system: System, cycle: &ThreadCycle) -> Result<TaperStep, AllocError>
    ensures { IfOk result (λ step. step ≡ pass_step system cycle.now) }
{
    if let Some(fault) = cycle.pass_fault() {
        return Ok(TaperStep::Stops(fault_cause(ThreadWords::OfRun, fault)));
    }
    let Some(blocks) = cycle.blocks(alloc)? else {
        return Ok(TaperStep::Stops(PlainCause::Passes));
    };
    let lines = coded_lines(alloc, system, &blocks)?;
    Ok(TaperStep::Cuts(ListOf::of(lines)))
}

/// What a block is in the run, with what is in force after it.
fn said_step(
    alloc: Global,
    system: System,
    said: &TaperSaid,
    start: &Point,
    settings: &FormSettings,
) -> Result<TaperStep, AllocError>
    ensures { IfOk result (λ step. step ≡ said_step system said.now start.now settings.now) }
{
    let Some(x) = said.x else {
        return Ok(TaperStep::Stops(PlainCause::Missing(b'X')));
    };
    let Some(z) = said.z else {
        return Ok(TaperStep::Stops(PlainCause::Missing(b'Z')));
    };
    let target = Point { x, z };
    let step = lead_step(alloc, system, said, start, &target, settings)?;
    Ok(step)
}

/// The same with these ends.
fn lead_step(
    alloc: Global,
    system: System,
    said: &TaperSaid,
    start: &Point,
    target: &Point,
    settings: &FormSettings,
) -> Result<TaperStep, AllocError>
    ensures { IfOk result (λ step. step ≡ lead_step said.now.lead system said.now start.now target.now settings.now) }
{
    match said.lead {
        Some(lead) => cut_step(alloc, system, said, start, target, lead, settings),
        None => Ok(TaperStep::Stops(PlainCause::Feed)),
    }
}

/// The same with this lead.
fn cut_step(
    alloc: Global,
    system: System,
    said: &TaperSaid,
    start: &Point,
    target: &Point,
    lead: Value,
    settings: &FormSettings,
) -> Result<TaperStep, AllocError>
    ensures { IfOk result (λ step. step ≡ pass_step system (pass_of said.now start.now target.now lead settings.now)) }
{
    let cycle = pass_of(said, start, target, lead, settings);
    let step = pass_step(alloc, system, &cycle)?;
    Ok(step)
}

/// What a block is in the run.
fn block_step(
    alloc: Global,
    words: &[Word],
    said: &TaperSaid,
    start: &Point,
    system: System,
    settings: &FormSettings,
) -> Result<TaperStep, AllocError>
    ensures { IfOk result (λ step. step ≡ block_step words.now said.now start.now system settings.now) }
{
    if has_motion(words, system) {
        return Ok(TaperStep::Ends);
    }
    if let Some(cause) = words_cause(words, system) {
        return Ok(TaperStep::Stops(cause));
    }
    said_step(alloc, system, said, start, settings)
}

/// The answer to a run from a start: the blocks up to the next code of motion.
#[tactic(auto, unfolding(crate::specs::Taper::run_from))]
fn run_answer(
    alloc: Global,
    blocks: &[Block],
    start: &Point,
    scene: &Scene,
    settings: &FormSettings,
) -> Result<FormAnswer, AllocError>
    requires { IsWritten start.now }
    ensures { IfOk result (λ answer.
        answer ≡ run_from blocks.now start.now scene.now settings.now (said_before scene.now) []) }
{
    let mut said = said_before(scene);
    let mut lines = Vec::new(alloc);
    for block in blocks {
        let words = words_of(block);
        said = said.after(words, start);
        match block_step(alloc, words, &said, start, scene.system, settings)? {
            TaperStep::Ends => return Ok(FormAnswer::Written(ListOf::of(lines))),
            TaperStep::Stops(cause) => return Ok(refused(block.line, cause)),
            TaperStep::Cuts(blocks) => lines.push(WrittenLine { blocks })?,
        }
    }
    Ok(FormAnswer::Written(ListOf::of(lines)))
}

/// What is in force before a run: the feed alone.
pub fn said_before(scene: &Scene) -> TaperSaid
    ensures { result ≡ said_before scene.now }
{
    TaperSaid {
        x: None,
        z: None,
        taper: 0,
        lead: scene.feed,
    }
}

/// The answer to a run that begins with the first of these blocks.
pub(crate) fn taper_answer(
    alloc: Global,
    first: &Block,
    blocks: &[Block],
    scene: &Scene,
    settings: &FormSettings,
) -> Result<FormAnswer, AllocError>
    ensures { IfOk result (λ answer. answer ≡ taper_answer first.now.line blocks.now scene.now settings.now) }
{
    if let Some(cause) = way_cause(scene) {
        return Ok(refused(first.line, cause));
    }
    let Some(start) = start_of(scene) else {
        return Ok(refused(first.line, PlainCause::Position));
    };
    run_answer(alloc, blocks, &start, scene, settings)
}
