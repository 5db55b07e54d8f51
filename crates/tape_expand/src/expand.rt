//! A tape with its cycles written out, or why it is refused: read (nc_text), cut into parts and
//! sized (cycle_form), and put together.
ghost use Rattle.std.specs.Prelude.{◌≡◌, ◌≤◌, ℕ, List, Result, IfOk, All, length};
ghost use Rattle.std.specs.List.{flat_map};
ghost use Rattle.nc_number.specs.Answers.{Fails, Gives};
ghost use Rattle.nc_number.specs.declared.limits.TheConstants.{MOST_BLOCKS};
ghost use Rattle.nc_text.specs.declared.fault.TextFault.{TextFault};
ghost use Rattle.nc_text.specs.declared.tape.Program.{Program};
ghost use Rattle.nc_text.specs.Lines.{lines_of};
ghost use Rattle.nc_text.specs.Shape.{blocks_in};
ghost use Rattle.nc_text.specs.Tape.{tape_of};
ghost use Rattle.cycle_form.specs.declared.fault.CycleFault.{CycleFault};
ghost use Rattle.cycle_form.specs.Marks.{marks_of};
ghost use Rattle.cycle_form.specs.Parts.{PartView, IsSoundPart};
ghost use Rattle.cycle_form.specs.Sizes.{size_verdict};
ghost use Rattle.tape_expand.specs.Expansion.{fitting_parts, sized_parts, parts_of_cycles, parts_of_tape, parts_in, expansion_of, AreClearParts};
ghost use Rattle.tape_expand.specs.Replaced.{edits_of};
ghost use Rattle.line_edits.specs.Splice.{edited_lines};

use crate::fault::ExpandFault;
use crate::part_text::edits_of;
use cycle_form::{CycleFault, Part, a_sound_part_is_clear, check_sizes, marks_of, parts_of};
use line_edits::edited;
use nc_number::Failing;
use nc_text::{Program, Reader, Tape, TextFault};
use std::alloc::{AllocError, Global};

/// The tape of the text. No switch is set, so no block is skipped: a form may not depend on a
/// switch.
fn read_tape(alloc: Global, text: &[u8]) -> Result<Tape, Failing<TextFault>>
    ensures { Gives (λ tape. tape) result (tape_of 0 text.now) }
{
    let mut reader = Reader::new(alloc, 0)?;
    match reader.feed(text) {
        Ok(()) => reader.finish(),
        Err(fault) => Err(fault),
    }
}

/// The blocks of all programs together.
#[tactic(auto, using(crate::proofs::Counting::one_more, crate::proofs::Counting::fits))]
fn count_blocks(tape: &[Program]) -> usize
    requires { length (blocks_in tape.now) ≤ MOST_BLOCKS }
    ensures { result ≡ length (blocks_in tape.now) }
{
    let mut count = 0;
    for program in tape {
        count += program.blocks.as_slice().len();
    }
    count
}

/// The refusal of a text that is no tape, as that of the expansion.
fn unread(fault: Failing<TextFault>) -> Failing<ExpandFault>
    ensures { (text : List ℕ) (tape : Result (List Program) TextFault)
        → Fails fault tape → Fails result (parts_of_tape text tape) }
{
    match fault {
        Failing::Fault(fault) => Failing::Fault(ExpandFault::Unreadable(fault)),
        Failing::NoMemory => Failing::NoMemory,
    }
}

/// The refusal of a cycle, as that of the expansion.
fn bad_cycle(fault: Failing<CycleFault>) -> Failing<ExpandFault>
    ensures { (parts : Result (List PartView) CycleFault) → Fails fault parts → Fails result (parts_of_cycles parts) }
{
    match fault {
        Failing::Fault(fault) => Failing::Fault(ExpandFault::Cycle(fault)),
        Failing::NoMemory => Failing::NoMemory,
    }
}

/// These parts, if a tape of so many blocks has at most 20,000 with them written out.
fn sized(alloc: Global, blocks: usize, parts: Vec<Part>) -> Result<Vec<Part>, Failing<CycleFault>>
    requires few { blocks ≤ MOST_BLOCKS }
    requires sound { All IsSoundPart parts.items }
    ensures exact { Gives (λ parts. parts.items) result (fitting_parts parts.items (size_verdict blocks parts.items)) }
    ensures sound { IfOk result (λ kept. All IsSoundPart kept.items) }
{
    match check_sizes(alloc, blocks, &parts) {
        Ok(()) => Ok(parts),
        Err(fault) => Err(fault),
    }
}

/// The parts of a tape, if it has at most 20,000 blocks with them written out.
fn sized_parts(
    alloc: Global,
    marks: &[bool],
    tape: &[Program],
) -> Result<Vec<Part>, Failing<CycleFault>>
    requires { length (blocks_in tape.now) ≤ MOST_BLOCKS }
    ensures exact { Gives (λ parts. parts.items) result (sized_parts marks.now tape.now) }
    ensures sound { IfOk result (λ parts. All IsSoundPart parts.items) }
{
    match parts_of(alloc, marks, tape) {
        Ok(parts) => sized(alloc, count_blocks(tape), parts),
        Err(fault) => Err(fault),
    }
}

/// The parts of a tape that was read from this text, or the refusal of a cycle.
fn cycles_in(
    alloc: Global,
    text: &[u8],
    tape: &[Program],
) -> Result<Vec<Part>, Failing<ExpandFault>>
    requires { length (blocks_in tape.now) ≤ MOST_BLOCKS }
    ensures exact { Gives (λ parts. parts.items) result (parts_of_cycles (sized_parts (marks_of text.now) tape.now)) }
    ensures sound { IfOk result (λ parts. All IsSoundPart parts.items) }
{
    let marks = marks_of(alloc, text)?;
    match sized_parts(alloc, &marks, tape) {
        Ok(parts) => Ok(parts),
        Err(fault) => Err(bad_cycle(fault)),
    }
}

/// The parts that are written out, or why the text is refused.
fn parts_in(alloc: Global, text: &[u8]) -> Result<Vec<Part>, Failing<ExpandFault>>
    ensures exact { Gives (λ parts. parts.items) result (parts_in text.now) }
    ensures sound { IfOk result (λ parts. All IsSoundPart parts.items) }
{
    match read_tape(alloc, text) {
        Ok(tape) => cycles_in(alloc, text, tape.as_slice()),
        Err(fault) => Err(unread(fault)),
    }
}

/// The text with these parts written out.
fn written(alloc: Global, text: &[u8], parts: &[Part]) -> Result<Vec<u8>, AllocError>
    ensures { IfOk result (λ bytes. bytes.items ≡ edited_lines 1 (flat_map edits_of parts.now) (lines_of text.now)) }
{
    let edits = edits_of(alloc, parts)?;
    let bytes = edited(alloc, text, &edits)?;
    Ok(bytes)
}

/// The text of a tape with G71 and G70 over contours of lines as plain blocks. The blocks of a part
/// stand in place of its first line, and every line outside of the parts stays byte for byte.
///
/// Errors: the refusal of a text that reads as no tape, with no block skipped; else 93 at the least
/// line with a block that has G70 or G71 and is part of no form, with the first G71 of a form with
/// more than 1,000 passes, or with a block that has G91 or G20; else 94 at the first line of the
/// part with which the whole tape first has more than 20,000 blocks.
pub fn expand_tape(alloc: Global, text: &[u8]) -> Result<Vec<u8>, Failing<ExpandFault>>
    ensures exact { Gives (λ bytes. bytes.items) result (expansion_of text.now) }
    // No whole point on a move of the blocks that it prints lies inside the contour of their part.
    ensures clear { IfOk result (λ _. AreClearParts (parts_in text.now)) }
{
    // (the law of cycle_form on which `clear` rests)
    a_sound_part_is_clear();
    let parts = match parts_in(alloc, text) {
        Ok(parts) => parts,
        Err(fault) => return Err(fault),
    };
    let bytes = written(alloc, text, &parts)?;
    Ok(bytes)
}
