//! Whether a tape says the blocks of another that stay, and those that stand in place of the others.
ghost use Rattle.std.specs.Prelude.{◌≡◌};
ghost use Rattle.written_blocks.specs.Tapes.{behind_block, behind_blocks, behind_step, behind_found, behind_steps, is_program, is_found, are_programs, is_read_as};

use crate::saying::says;
use nc_text::{Block, Body, Program};
use plain_blocks::{Step, StepList};

/// The place behind the block in this one, if that has this sequence number and says this.
fn behind_block(again: &[Block], at: usize, sequence: Option<u32>, body: &Body) -> Option<usize>
    ensures { result ≡ behind_block again.now at sequence body.now }
{
    match again.get(at) {
        Some(block) => {
            if says(block, sequence, body) {
                Some(at + 1)
            } else {
                None
            }
        }
        None => None,
    }
}

/// The place behind blocks that say these, of which the first has this sequence number.
fn behind_blocks(
    again: &[Block],
    start: usize,
    sequence: Option<u32>,
    blocks: &[Block],
) -> Option<usize>
    ensures { result ≡ behind_blocks again.now start sequence blocks.now }
{
    let mut number = sequence;
    let mut at = start;
    for block in blocks {
        at = match behind_block(again, at, number, &block.body) {
            Some(behind) => behind,
            None => return None,
        };
        number = None;
    }
    Some(at)
}

/// The place behind blocks that say what became of this one.
fn behind_step(again: &[Block], at: usize, block: &Block, step: &Step) -> Option<usize>
    ensures { result ≡ behind_step again.now at block.now step.now }
{
    match step {
        Step::Kept => behind_block(again, at, block.sequence, &block.body),
        Step::Written(line) => behind_blocks(again, at, line.sequence, line.blocks.as_slice()),
    }
}

/// The place behind blocks that say what became of the block in this place, if there is one.
fn behind_found(
    again: &[Block],
    at: usize,
    blocks: &[Block],
    place: usize,
    step: &Step,
) -> Option<usize>
    ensures { result ≡ behind_found again.now at blocks.now place step.now }
{
    match blocks.get(place) {
        Some(block) => behind_step(again, at, block, step),
        None => None,
    }
}

/// The place behind blocks that say what became of all of a program.
fn behind_steps(again: &[Block], blocks: &[Block], steps: &[Step]) -> Option<usize>
    ensures { result ≡ behind_steps again.now 0 blocks.now 0 steps.now }
{
    let mut at = 0;
    for (place, step) in steps.iter().enumerate() {
        at = match behind_found(again, at, blocks, place, step) {
            Some(behind) => behind,
            None => return None,
        };
    }
    Some(at)
}

/// Whether a program says what became of the blocks of another.
fn is_program(again: &Program, own: &Program, steps: &[Step]) -> bool
    ensures { result ≡ is_program again.now own.now steps.now }
{
    let blocks = again.blocks.as_slice();
    if again.number != own.number || own.blocks.as_slice().len() != steps.len() {
        return false;
    }
    match behind_steps(blocks, own.blocks.as_slice(), steps) {
        Some(end) => end == blocks.len(),
        None => false,
    }
}

/// Whether the program in a place says what became of that of the tape.
fn is_found(again: &[Program], tape: &[Program], place: usize, steps: &StepList) -> bool
    ensures { result ≡ is_found again.now tape.now place steps.now }
{
    match again.get(place) {
        Some(program) => match tape.get(place) {
            Some(own) => is_program(program, own, steps.as_slice()),
            None => false,
        },
        None => false,
    }
}

/// Whether the programs of a tape say, one after the other, what became of the blocks of another:
/// those that stay, and those that stand in place of the others.
pub fn is_read_as(again: &[Program], tape: &[Program], all: &[StepList]) -> bool
    ensures { result ≡ is_read_as again.now tape.now all.now }
{
    if again.len() != all.len() || tape.len() != all.len() {
        return false;
    }
    for (place, steps) in all.iter().enumerate() {
        if !is_found(again, tape, place, steps) {
            return false;
        }
    }
    true
}
