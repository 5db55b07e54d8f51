//! The parts of a tape, found from its first block to its last. What makes a form is judged in
//! form.rt and finish.rt.
ghost use Rattle.std.specs.Prelude.{◌≡◌, [], IfOk, IfSome, All, length, drop};
ghost use Rattle.cycle_form.specs.Parts.{IsSoundPart};
ghost use Rattle.std.specs.List.{list_any};
ghost use Rattle.nc_number.specs.Answers.{Gives};
ghost use Rattle.cycle_form.specs.Walk.{has_word, has_code, changes_lengths, part_or_bad, form_behind, finish_behind, part_in, parts_from, parts_of, blocks_left, IsSoundFound};

use crate::fault::CycleFault;
use crate::finish::finish_at;
use crate::form::form_at;
use crate::part::Part;
use crate::words::{is_code, literal_of};
use nc_number::Failing;
use nc_text::{Block, Body, Program, Word};
use std::alloc::{AllocError, Global};

/// What begins in a block.
#[derive(Debug, Drop)]
pub enum Found {
    /// No cycle.
    Nothing,
    /// A part of the tape, with its cycle.
    One(Part),
    /// A cycle that is part of no form, or a code that changes what lengths mean.
    Bad,
}

/// Whether the word writes this G code out.
fn has_word(code: i64, word: &Word) -> bool
    ensures { result ≡ has_word code word.now }
{
    is_code(code, literal_of(b'G', word))
}

/// Whether one of the words writes this G code out.
fn some_word(code: i64, words: &[Word]) -> bool
    ensures { result ≡ list_any (has_word code) words.now }
{
    words.iter().any(|word| has_word(code, word))
}

/// Whether one of the block's words writes this G code out; a statement has none.
fn has_code(code: i64, body: &Body) -> bool
    ensures { result ≡ has_code code body.now }
{
    match body {
        Body::Words(words) => some_word(code, words.as_slice()),
        Body::Statement(_) => false,
    }
}

/// Whether the block changes what the lengths of a form mean: G91 makes them ways from where the
/// tool is, G20 inches.
fn changes_lengths(body: &Body) -> bool
    ensures { result ≡ changes_lengths body.now }
{
    has_code(91, body) || has_code(20, body)
}

/// The part, if the cycle is one of a form; else that it is of none, which is refused and not
/// passed by.
fn part_or_bad(part: Option<Part>) -> Found
    requires { IfSome part IsSoundPart }
    ensures found { result ≡ part_or_bad part }
    ensures sound { IsSoundFound result }
{
    match part {
        Some(part) => Found::One(part),
        None => Found::Bad,
    }
}

/// The part of a form whose start is the last block of `passed`, and whose first G71 is the first
/// of `rest`. The only error is out of memory.
fn form_behind(
    alloc: Global,
    marks: &[bool],
    passed: &[Block],
    rest: &[Block],
) -> Result<Option<Part>, AllocError>
    ensures part { IfOk result (λ part. part ≡ form_behind marks.now passed.now rest.now) }
    ensures sound { IfOk result (λ part. IfSome part IsSoundPart) }
{
    match passed.last() {
        Some(a) => form_at(alloc, marks, a, rest),
        None => Ok(None),
    }
}

/// The part of a finish whose start is the last block of `passed`, and whose G70 is this block,
/// over a form of the same program (`done`). The only error is out of memory.
fn finish_behind(
    alloc: Global,
    marks: &[bool],
    passed: &[Block],
    block: &Block,
    done: &[Part],
) -> Result<Option<Part>, AllocError>
    ensures part { IfOk result (λ part. part ≡ finish_behind marks.now passed.now block.now done.now) }
    ensures sound { IfOk result (λ part. IfSome part IsSoundPart) }
{
    match passed.last() {
        Some(a) => finish_at(alloc, marks, a, block, done),
        None => Ok(None),
    }
}

/// What begins in a block. `passed` are the blocks of its program before it, `rest` those from it
/// on, `done` the parts of the program so far; `marks` says which lines have a skip sign or a
/// comment. If the block has both G71 and G70, it is taken for a G71; with G91 or G20 it is
/// refused, whatever else it has. The only error is out of memory.
fn part_in(
    alloc: Global,
    marks: &[bool],
    passed: &[Block],
    done: &[Part],
    block: &Block,
    rest: &[Block],
) -> Result<Found, AllocError>
    ensures found { IfOk result (λ found. found ≡ part_in marks.now passed.now done.now block.now rest.now) }
    ensures sound { IfOk result IsSoundFound }
{
    if changes_lengths(&block.body) {
        return Ok(Found::Bad);
    }
    if has_code(71, &block.body) {
        let part = form_behind(alloc, marks, passed, rest)?;
        return Ok(part_or_bad(part));
    }
    if has_code(70, &block.body) {
        let part = finish_behind(alloc, marks, passed, block, done)?;
        return Ok(part_or_bad(part));
    }
    Ok(Found::Nothing)
}

/// The parts so far, and those of a program of these blocks. Errors: 93 at the first block with a
/// cycle that is part of no form, or with G91 or G20; out of memory.
fn with_program(
    alloc: Global,
    marks: &[bool],
    parts: Vec<Part>,
    blocks: &[Block],
) -> Result<Vec<Part>, Failing<CycleFault>>
    requires { All IsSoundPart parts.items }
    ensures exact { Gives (λ parts. parts.items) result
        (parts_from marks.now (length parts.items) 0 [] parts.items blocks.now) }
    ensures sound { IfOk result (λ parts. All IsSoundPart parts.items) }
{
    let mut parts = parts;
    let from = parts.len();
    let mut skip = 0usize;
    for (i, block) in blocks.iter().enumerate() {
        if 0 < skip {
            skip -= 1;
            continue;
        }
        let (passed, rest) = blocks.split_at(i);
        let found = part_in(alloc, marks, passed, behind(&parts, from), block, rest)?;
        let part = match found {
            Found::Nothing => continue,
            Found::Bad => return Err(Failing::Fault(CycleFault::BadCycle(block.line))),
            Found::One(part) => part,
        };
        skip = blocks_left(&part);
        parts.push(part)?;
    }
    Ok(parts)
}

/// The parts from the place `from` on: those of the present program.
fn behind(parts: &[Part], from: usize) -> &[Part]
    ensures { result.now ≡ drop from parts.now }
{
    parts.get(from..).unwrap_or(&[])
}

/// How many blocks of a part come after its first. They belong to it, whatever they say.
fn blocks_left(part: &Part) -> usize
    ensures { result ≡ blocks_left part.now }
{
    part.lines().len().saturating_sub(1)
}

/// The parts of a tape that are written out, in the order of the text. `marks` says of each line of
/// its text whether it has a skip sign or a comment.
///
/// Errors: 93 at the least line with a block that has G70 or G71 and is part of no form, with the
/// first G71 of a form with more than 1,000 passes, or with a block that has G91 or G20; out of
/// memory.
pub fn parts_of(
    alloc: Global,
    marks: &[bool],
    tape: &[Program],
) -> Result<Vec<Part>, Failing<CycleFault>>
    ensures exact { Gives (λ parts. parts.items) result (parts_of marks.now tape.now) }
    ensures sound { IfOk result (λ parts. All IsSoundPart parts.items) }
{
    let mut parts = Vec::new(alloc);
    for program in tape {
        parts = match with_program(alloc, marks, parts, program.blocks.as_slice()) {
            Ok(parts) => parts,
            Err(fault) => return Err(fault),
        };
    }
    Ok(parts)
}
