//! The finishing cycle G70: its call, its start, and the form of G71 whose contour it takes.
//! walk.rt calls `finish_at` for each block with G70.
ghost use Rattle.std.specs.Prelude.{◌≡◌, None, IfOk, IfSome, option_copied};
ghost use Rattle.rough_cycle.specs.Form.{rough_of};
ghost use Rattle.cycle_form.specs.Parts.{IsSoundPart};
ghost use Rattle.cycle_form.specs.Forms.{finish_call_of, later, latest_from, latest, is_finish_start, finish_by, start_in, finish_call_in, finish_at};

use crate::form::last_of;
use crate::head::{feed_at, number_at, plain_words};
use crate::marks::is_plain;
use crate::part::{Part, PartKind};
use crate::words::{is_code, literal_at, start_of};
use nc_number::{Point, Value};
use nc_text::{Block, Word};
use rough_cycle::RoughForm;
use std::alloc::{AllocError, Global};

/// Which contour G70 calls, by the sequence numbers of its first and last block, and its feed.
#[derive(Clone, Copy, Debug, PartialEq, Eq)]
pub struct FinishCall {
    /// The sequence number of the contour's first block.
    pub first: u32,
    /// The sequence number of its last block.
    pub last: u32,
    /// The feed of its cuts, above 0.
    pub feed: Value,
}

/// The call of G70 P Q F: these words in this order and no others.
#[tactic(auto, unfolding(crate::specs::Forms::finish_call_of))]
fn finish_call_of(words: &[Word]) -> Option<FinishCall>
    ensures { result ≡ finish_call_of words.now }
{
    if words.len() != 4 || !is_code(70, literal_at(words, 0, b'G')) {
        return None;
    }
    let first = number_at(words, 1, b'P')?;
    let last = number_at(words, 2, b'Q')?;
    let feed = feed_at(words, 3, b'F')?;
    Some(FinishCall { first, last, feed })
}

/// The place i if this part is a G71 along the contour between these sequence numbers, else the
/// place found before: a later form replaces an earlier one.
fn later(first: u32, last: u32, part: &Part, i: usize, found: Option<usize>) -> Option<usize>
    ensures { result ≡ later first last part.now i found }
{
    if part.is_called(first, last) {
        Some(i)
    } else {
        found
    }
}

/// The place of the last of these parts that is a form with these numbers. The parts are those of
/// one program.
fn latest_place(first: u32, last: u32, parts: &[Part]) -> Option<usize>
    ensures { result ≡ latest_from first last None 0 parts.now }
{
    let mut found = None;
    for (i, part) in parts.iter().enumerate() {
        found = later(first, last, part, i, found);
    }
    found
}

/// The last of these parts that is a form with these numbers.
#[tactic(auto, unfolding(crate::specs::Forms::latest))]
fn latest(first: u32, last: u32, parts: &[Part]) -> Option<&Part>
    ensures { option_copied result ≡ latest first last parts.now }
{
    let place = latest_place(first, last, parts)?;
    parts.get(place)
}

/// Whether the start lies above and before the contour: its X is at least the last point's, its Z
/// at least the first's.
fn is_finish_start(rough: &RoughForm, start: &Point) -> bool
    ensures { result ≡ is_finish_start (rough_of rough.now) start.now }
{
    let last = last_of(&rough.first, &rough.points);
    last.x <= start.x && rough.first.z <= start.z
}

/// A copy of the form: a finish stands for its own part of the tape, so it has a contour of its
/// own. The only error is out of memory.
fn copy_of(alloc: Global, rough: &RoughForm) -> Result<RoughForm, AllocError>
    ensures { IfOk result (λ copy. rough_of copy ≡ rough_of rough.now) }
{
    let points = Vec::from_slice(alloc, &rough.points)?;
    Ok(RoughForm {
        start: rough.start,
        depth: rough.depth,
        retreat: rough.retreat,
        across: rough.across,
        along: rough.along,
        first: rough.first,
        points,
    })
}

/// The start that a block says: G00 X Z, without a sequence number.
#[tactic(auto, unfolding(crate::specs::Forms::start_in))]
fn start_in(block: &Block) -> Option<Point>
    ensures { result ≡ start_in block.now }
{
    let words = plain_words(block)?;
    start_of(words)
}

/// The call that a block says: G70, without a sequence number.
#[tactic(auto, unfolding(crate::specs::Forms::finish_call_in))]
fn finish_call_in(block: &Block) -> Option<FinishCall>
    ensures { result ≡ finish_call_in block.now }
{
    let words = plain_words(block)?;
    finish_call_of(words)
}

/// The part of a G70 from this start along this form; none if the start lies below the contour or
/// after it. The only error is out of memory.
fn finish_by(
    alloc: Global,
    form: &Part,
    call: &FinishCall,
    start: &Point,
    line: u32,
) -> Result<Option<Part>, AllocError>
    ensures part { IfOk result (λ part. part ≡ finish_by form.now call.now start.now line) }
    ensures sound { IfOk result (λ part. IfSome part IsSoundPart) }
{
    let rough = form.rough();
    if !is_finish_start(rough, start) {
        return Ok(None);
    }
    let rough = copy_of(alloc, rough)?;
    let lines = vec![in alloc; line]?;
    Ok(Some(Part::of(
        PartKind::Finishing(*start),
        rough,
        call.first,
        call.last,
        call.feed,
        lines,
    )))
}

/// The part of the G70 in `b`, from the start in the block `a` before it, along the contour of the
/// latest form of these parts with its numbers; none if one of these is missing, or a line of the
/// two has a skip sign or a comment (`marks`). The only error is out of memory.
#[tactic(auto, unfolding(crate::specs::Forms::finish_at))]
pub(crate) fn finish_at(
    alloc: Global,
    marks: &[bool],
    a: &Block,
    b: &Block,
    done: &[Part],
) -> Result<Option<Part>, AllocError>
    ensures part { IfOk result (λ part. part ≡ finish_at marks.now a.now b.now done.now) }
    ensures sound { IfOk result (λ part. IfSome part IsSoundPart) }
{
    let Some(start) = start_in(a) else {
        return Ok(None);
    };
    let Some(call) = finish_call_in(b) else {
        return Ok(None);
    };
    let Some(form) = latest(call.first, call.last, done) else {
        return Ok(None);
    };
    if !is_plain(marks, a) || !is_plain(marks, b) {
        return Ok(None);
    }
    finish_by(alloc, form, &call, &start, b.line)
}
