//! The forms of the roughing cycle G71: from its start to the last block of its contour. What its
//! first blocks say is in head.rt, its contour in contour.rt. walk.rt calls `form_at` for each
//! block with G71; finish.rt takes `last_of`.
ghost use Rattle.std.specs.Prelude.{◌≡◌, ◌+◌, ◌≤◌, IfOk, IfSome, All, take, drop, map};
ghost use Rattle.nc_number.specs.declared.limits.TheConstants.{LONGEST_SAID};
ghost use Rattle.rough_cycle.specs.Contour.{last_of};
ghost use Rattle.rough_cycle.specs.Form.{rough_of, IsNearForm, IsWritten};
ghost use Rattle.cycle_form.specs.Forms.{rough_by, is_below_start, goes_down, descends, is_form, is_short, form_of, form_at};
ghost use Rattle.cycle_form.specs.Head.{IsSoundHead};
ghost use Rattle.cycle_form.specs.Parts.{IsSoundPart};

use crate::contour::points_of;
use crate::head::{Head, head_at};
use crate::marks::{are_plain, is_plain};
use crate::part::{Part, PartKind};
use nc_number::Point;
use nc_text::Block;
use rough_cycle::RoughForm;
use std::alloc::{AllocError, Global};

/// The most passes that a form may have. `TRIED` of rough_cycle is one more.
pub const MOST_PASSES: u128 = 1_000;

/// The part of the form that begins with the block `a` and goes on with `rest`; none if that is no
/// form. The only error is out of memory.
#[tactic(auto, unfolding(crate::specs::Forms::form_at))]
pub(crate) fn form_at(
    alloc: Global,
    marks: &[bool],
    a: &Block,
    rest: &[Block],
) -> Result<Option<Part>, AllocError>
    ensures part { IfOk result (λ part. part ≡ form_at marks.now a.now rest.now) }
    ensures sound { IfOk result (λ part. IfSome part IsSoundPart) }
{
    let Some(head) = head_at(a, rest) else {
        return Ok(None);
    };
    let Some(points) = points_of(alloc, &head.first, head.call.last, behind_three(rest))? else {
        return Ok(None);
    };
    let blocks = first_blocks(rest, points.len());
    form_of(alloc, marks, a, &head, points, blocks)
}

/// The part of a form of this head and these points, which starts in `a` and goes on with `blocks`;
/// none if the contour is none, if it has too many passes, or if a skip sign or a comment is in a
/// line of it. The only error is out of memory.
fn form_of(
    alloc: Global,
    marks: &[bool],
    a: &Block,
    head: &Head,
    points: Vec<Point>,
    blocks: &[Block],
) -> Result<Option<Part>, AllocError>
    requires head { IsSoundHead head.now }
    requires points { All IsWritten points.items }
    ensures part { IfOk result (λ part. part ≡ form_of marks.now a.now head.now points.items blocks.now) }
    ensures sound { IfOk result (λ part. IfSome part IsSoundPart) }
{
    let rough = rough_by(head, points);
    if !is_form(&rough) {
        return Ok(None);
    }
    if !is_short(alloc, &rough)? {
        return Ok(None);
    }
    if !is_plain(marks, a) || !are_plain(marks, blocks) {
        return Ok(None);
    }
    let lines = lines_of(alloc, blocks)?;
    Ok(Some(Part::of(
        PartKind::Roughing,
        rough,
        head.call.first,
        head.call.last,
        head.call.feed,
        lines,
    )))
}

/// A head and the points after its first as the form that rough_cycle makes passes of.
fn rough_by(head: &Head, points: Vec<Point>) -> RoughForm
    requires head { IsSoundHead head.now }
    requires points { All IsWritten points.items }
    ensures form { rough_of result ≡ rough_by head.now points.items }
    ensures near { IsNearForm (rough_of result) }
    ensures deep { 1 ≤ result.depth }
    ensures at_start { result.first.z ≡ result.start.z }
{
    RoughForm {
        start: head.start,
        depth: head.cut.depth,
        retreat: head.cut.retreat,
        across: head.call.across,
        along: head.call.along,
        first: head.first,
        points,
    }
}

/// Whether the contour descends, and its last X with the allowance is at most the start's. The
/// other conditions of a form hold of each head; the count of passes and the lines are asked for
/// apart (`form_of`).
fn is_form(rough: &RoughForm) -> bool
    requires { IsNearForm (rough_of rough.now) }
    ensures { result ≡ is_form (rough_of rough.now) }
{
    let last = last_of(&rough.first, &rough.points);
    descends(&rough.first, &rough.points) && is_below_start(&last, rough.across, &rough.start)
}

/// Whether the last X of a contour with its allowance in X (`across`) is at most the start's.
/// Lengths are in 0.001 mm.
fn is_below_start(last: &Point, across: u64, start: &Point) -> bool
    requires last { IsWritten last.now }
    requires across { across ≤ LONGEST_SAID }
    ensures { result ≡ is_below_start last.now across start.now }
{
    last.x + across as i64 <= start.x
}

/// Whether each point of a contour goes down from the one before it.
fn descends(first: &Point, points: &[Point]) -> bool
    ensures { result ≡ descends first.now points.now }
{
    let mut from = *first;
    for to in points {
        if !goes_down(&from, to) {
            return false;
        }
        from = *to;
    }
    true
}

/// Whether from p to q X does not fall, Z does not rise, and one of them changes.
fn goes_down(p: &Point, q: &Point) -> bool
    ensures { result ≡ goes_down p.now q.now }
{
    p.x <= q.x && q.z <= p.z && !(q.x <= p.x && p.z <= q.z)
}

/// The last point of a contour, which may be its first.
pub(crate) fn last_of(first: &Point, points: &[Point]) -> Point
    ensures { result ≡ last_of first.now points.now }
{
    let mut last = *first;
    for point in points {
        last = *point;
    }
    last
}

/// Whether a form has at most 1,000 passes. A pass has four blocks, and the way along the contour
/// has four and one for each point after the first. The only error is out of memory.
#[tactic(auto, using(crate::proofs::PassCount::short))]
fn is_short(alloc: Global, rough: &RoughForm) -> Result<bool, AllocError>
    requires { IsNearForm (rough_of rough.now) }
    ensures { IfOk result (λ short. short ≡ is_short (rough_of rough.now)) }
{
    let blocks = rough.rough_blocks(alloc)?;
    let points = rough.points.len() as u128;
    Ok(blocks.len() as u128 <= 4 * MOST_PASSES + 4 + points)
}

/// The blocks after the first three: from the second point of a contour on.
fn behind_three(blocks: &[Block]) -> &[Block]
    ensures { result.now ≡ drop 3 blocks.now }
{
    blocks.get(3..).unwrap_or(&[])
}

/// The three blocks before a contour's second point, and those of so many further points.
fn first_blocks(blocks: &[Block], points: usize) -> &[Block]
    ensures { result.now ≡ take (points + 3) blocks.now }
{
    if blocks.len() < 3 || blocks.len() - 3 < points {
        return blocks;
    }
    let (front, _) = blocks.split_at(points + 3);
    front
}

/// The lines of these blocks, which go when the form is written out. The only error is out of
/// memory.
fn lines_of(alloc: Global, blocks: &[Block]) -> Result<Vec<u32>, AllocError>
    ensures { IfOk result (λ lines. lines.items ≡ map (λ block. block.line) blocks.now) }
{
    let mut lines = Vec::new(alloc);
    for block in blocks {
        lines.push(block.line)?;
    }
    Ok(lines)
}
