//! What is answered of a threading cycle: its blocks as lines, or why it is refused.
ghost use Rattle.std.specs.Prelude.{◌≡◌, IfOk};
ghost use Rattle.thread_form.specs.Answers.{letter_of_depth, letter_of_taper, letter_of_left, fault_cause, words_of_lines, is_of_head, fault_line, cycle_lines, written, cycle_answer};

use crate::coded::coded_lines;
use cycle_words::{push_code_before, refused};
use nc_number::ListOf;
use nc_text::Block;
use plain_block::PlainBlock;
use plain_form::{FormAnswer, PlainCause, Scene, WrittenLine};
use std::alloc::{AllocError, Global};
use thread_cycle::{ThreadCycle, ThreadFault};

/// The lines that a cycle stands in: the first with the choices of the passes, if there is one, and
/// the last with the thread.
#[derive(Clone, Copy, Debug, PartialEq, Eq)]
pub(crate) struct CycleLines {
    /// The line of the choices.
    pub head: Option<u32>,
    /// The line of the thread.
    pub body: u32,
}

/// The words that say a thread, whose letters its causes name.
#[derive(Clone, Copy, Debug, PartialEq, Eq)]
pub(crate) enum ThreadWords {
    /// G76 in two lines.
    OfTwoLines,
    /// G76 in one line.
    OfOneLine,
    /// A run of G92 (G78 in system B).
    OfRun,
}

impl ThreadWords {
    /// The letter of the depth: a run has none, and its end alone may be too large.
    fn letter_of_depth(self) -> u8
        ensures { result ≡ letter_of_depth self }
    {
        match self {
            ThreadWords::OfTwoLines => b'P',
            ThreadWords::OfOneLine => b'K',
            ThreadWords::OfRun => b'X',
        }
    }

    /// The letter of the taper.
    fn letter_of_taper(self) -> u8
        ensures { result ≡ letter_of_taper self }
    {
        match self {
            ThreadWords::OfTwoLines => b'R',
            ThreadWords::OfOneLine => b'I',
            ThreadWords::OfRun => b'R',
        }
    }

    /// The letter of what leaves nothing to cut: in one line it is the depth.
    fn letter_of_left(self) -> u8
        ensures { result ≡ letter_of_left self }
    {
        match self {
            ThreadWords::OfTwoLines => b'R',
            ThreadWords::OfOneLine => b'K',
            ThreadWords::OfRun => b'R',
        }
    }
}

/// What a cause of a cycle is for its words.
pub(crate) fn fault_cause(words: ThreadWords, fault: ThreadFault) -> PlainCause
    ensures { result ≡ fault_cause words fault }
{
    match fault {
        ThreadFault::AllLeft => PlainCause::Range(words.letter_of_left()),
        ThreadFault::TooLarge => PlainCause::Range(words.letter_of_depth()),
        ThreadFault::NoPass => PlainCause::Setting,
        ThreadFault::NoLead => PlainCause::Range(b'F'),
        ThreadFault::Short => PlainCause::Range(b'Z'),
        ThreadFault::Steep => PlainCause::Range(words.letter_of_taper()),
        ThreadFault::BelowCrest => PlainCause::Start,
    }
}

/// The words of a G76 with a first line, or without.
fn words_of_lines(head: Option<u32>) -> ThreadWords
    ensures { result ≡ words_of_lines head }
{
    match head {
        Some(_) => ThreadWords::OfTwoLines,
        None => ThreadWords::OfOneLine,
    }
}

/// Whether a cause is of the line with the choices of the passes.
fn is_of_head(fault: ThreadFault) -> bool
    ensures { result ≡ is_of_head fault }
{
    match fault {
        ThreadFault::AllLeft | ThreadFault::NoPass => true,
        _ => false,
    }
}

/// The line that a cause is of.
fn fault_line(lines: &CycleLines, fault: ThreadFault) -> u32
    ensures { result ≡ fault_line lines.now fault }
{
    if is_of_head(fault) {
        lines.head.unwrap_or(lines.body)
    } else {
        lines.body
    }
}

/// Lines in place of the cycle's: all blocks stand for the first, whose number a jump may name.
fn written(alloc: Global, lines: &CycleLines, blocks: Vec<Block>) -> Result<FormAnswer, AllocError>
    ensures { IfOk result (λ answer. answer ≡ written lines.now.head blocks.items) }
{
    let mut all = Vec::new(alloc);
    all.push(WrittenLine {
        blocks: ListOf::of(blocks),
    })?;
    if lines.head.is_some() {
        all.push(WrittenLine {
            blocks: ListOf::of(Vec::new(alloc)),
        })?;
    }
    Ok(FormAnswer::Written(ListOf::of(all)))
}

/// The lines of a cycle's blocks, and that of the code in force before it.
fn cycle_lines(
    alloc: Global,
    blocks: &[PlainBlock],
    scene: &Scene,
) -> Result<Vec<Block>, AllocError>
    ensures { IfOk result (λ lines. lines.items ≡ cycle_lines scene.now blocks.now) }
{
    let mut lines = coded_lines(alloc, scene.system, blocks)?;
    push_code_before(alloc, &scene.motion, &mut lines)?;
    Ok(lines)
}

/// The answer to a G76.
pub(crate) fn cycle_answer(
    alloc: Global,
    cycle: &ThreadCycle,
    lines: &CycleLines,
    scene: &Scene,
) -> Result<FormAnswer, AllocError>
    ensures { IfOk result (λ answer. answer ≡ cycle_answer lines.now scene.now cycle.now) }
{
    if let Some(fault) = cycle.fault() {
        let cause = fault_cause(words_of_lines(lines.head), fault);
        return Ok(refused(fault_line(lines, fault), cause));
    }
    let Some(blocks) = cycle.blocks(alloc)? else {
        return Ok(refused(lines.body, PlainCause::Passes));
    };
    let blocks = cycle_lines(alloc, &blocks, scene)?;
    written(alloc, lines, blocks)
}
