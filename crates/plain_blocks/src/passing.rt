//! What is known behind blocks that this control's own language has, read one after the other.
ghost use Rattle.std.specs.Prelude.{◌≡◌, IfOk};
ghost use Rattle.nc_number.specs.Answers.{Gives};
ghost use Rattle.block_forms.specs.Blocks.{block_form};
ghost use Rattle.plain_blocks.specs.Passing.{goes_on, known_past, behind_block, is_thread, has_letter, holds_taper, has_taper, own_block, pass_block, pass_blocks};

use block_forms::{Dialect, FlowBlock, read_block};
use block_order::Control;
use code_tables::CodeKind;
use known_blocks::{Known, known_behind};
use nc_number::{Failing, NoMemory};
use nc_text::{Block, Body, Word};
use plain_form::PlainCause;
use std::alloc::Global;
use taper_form::begins_cut;
use thread_form::begins_taper;

/// A block of this control's language: what it does to the order, and what is known behind it.
#[derive(Clone, Copy, Debug, PartialEq, Eq)]
pub struct Passed {
    /// What it does to the order of blocks.
    pub control: Control,
    /// What is known behind it.
    pub known: Known,
}

/// Whether the control goes on to the next block.
pub(crate) fn goes_on(control: Control) -> bool
    ensures { result ≡ goes_on control }
{
    matches!(control, Control::Next)
}

/// What is known behind a block that was read.
fn known_past(block: &FlowBlock, known: &Known) -> Known
    ensures { result ≡ known_past (block_form block.now) known.now }
{
    known_behind(&block.body, block.control, known)
}

/// A block of this control's language; none if it is not one of it.
pub(crate) fn behind_block(
    alloc: Global,
    dialect: &Dialect,
    known: &Known,
    block: &Block,
) -> Result<Option<Passed>, NoMemory>
    ensures { IfOk result (λ passing. passing ≡ behind_block dialect.now known.now block.now) }
{
    match read_block(alloc, block, dialect) {
        Ok(read) => Ok(Some(Passed {
            control: read.control,
            known: known_past(&read, known),
        })),
        Err(Failing::Fault(_)) => Ok(None),
        Err(Failing::NoMemory) => Err(NoMemory),
    }
}

/// Whether this code of motion is a thread's cycle.
fn is_thread(motion: Option<CodeKind>) -> bool
    ensures { result ≡ is_thread motion }
{
    matches!(motion, Some(CodeKind::CycleThread))
}

/// Whether a word has this letter.
fn has_letter(words: &[Word], letter: u8) -> bool
    ensures { result ≡ has_letter letter words.now }
{
    words.iter().any(|word| word.letter == letter)
}

/// Whether a block goes on with a taper under the code of a thread.
fn holds_taper(motion: Option<CodeKind>, body: &Body) -> bool
    ensures { result ≡ holds_taper motion body.now }
{
    match body {
        Body::Words(words) => {
            let words = words.as_slice();
            is_thread(motion) && (has_letter(words, b'R') && !has_letter(words, b'G'))
        }
        Body::Statement(_) => false,
    }
}

/// Whether a block begins a thread or a cut along a taper, or goes on with one, which the control reads
/// and does not run.
fn has_taper(dialect: &Dialect, known: &Known, block: &Block) -> bool
    ensures { result ≡ has_taper dialect.now known.now.motion block.now.body }
{
    begins_taper(block, dialect.system)
        || (begins_cut(block, dialect.system, &known.motion)
            || holds_taper(known.motion, &block.body))
}

/// A block of this control's language that stays: none if it is not one of it, or if it begins a
/// thread or a cut along a taper.
pub(crate) fn own_block(
    alloc: Global,
    dialect: &Dialect,
    known: &Known,
    block: &Block,
) -> Result<Option<Passed>, NoMemory>
    ensures { IfOk result (λ passing. passing ≡ own_block dialect.now known.now block.now) }
{
    if has_taper(dialect, known, block) {
        return Ok(None);
    }
    behind_block(alloc, dialect, known, block)
}

/// What is known behind one printed block; why it may not be printed.
fn pass_block(
    alloc: Global,
    dialect: &Dialect,
    known: &Known,
    block: &Block,
) -> Result<Known, Failing<PlainCause>>
    ensures { Gives (λ known. known) result
        (pass_block (behind_block dialect.now known.now block.now)) }
{
    match behind_block(alloc, dialect, known, block)? {
        Some(passing) => {
            if goes_on(passing.control) {
                Ok(passing.known)
            } else {
                Err(Failing::Fault(PlainCause::Control))
            }
        }
        None => Err(Failing::Fault(PlainCause::NoForm)),
    }
}

/// What is known behind printed blocks, or why they may not be printed: one is none of this
/// control's language, or does more than go on.
pub(crate) fn pass_blocks(
    alloc: Global,
    dialect: &Dialect,
    known: &Known,
    blocks: &[Block],
) -> Result<Known, Failing<PlainCause>>
    ensures { Gives (λ known. known) result (pass_blocks dialect.now known.now blocks.now) }
{
    let mut behind = *known;
    for block in blocks {
        behind = match pass_block(alloc, dialect, &behind, block) {
            Ok(known) => known,
            Err(fault) => return Err(fault),
        };
    }
    Ok(behind)
}
