//! The contour that a roughing cycle names: its blocks, and the points they lead to, in 0.001 mm.
//! form.rt reads the points and judges whether they descend; head.rt takes `is_numbered`.
ghost use Rattle.std.specs.Prelude.{◌≡◌, [], Some, IfOk, IfSome, All, option_map};
ghost use Rattle.rough_cycle.specs.Form.{IsWritten};
ghost use Rattle.nc_number.specs.Options.{is_some_of};
ghost use Rattle.cycle_form.specs.Contour.{behind_line, target_of, contour_point, points_behind};

use crate::words::{is_code, length_at, literal_at};
use nc_number::Point;
use nc_text::{Block, Body, Word};
use std::alloc::{AllocError, Global};

/// The words after the G01 that a line of a contour may begin with.
#[tactic(auto, unfolding(crate::specs::Contour::behind_line))]
fn behind_line(words: &[Word]) -> &[Word]
    ensures { result.now ≡ behind_line words.now }
{
    if is_code(1, literal_at(words, 0, b'G')) {
        words.get(1..).unwrap_or(words)
    } else {
        words
    }
}

/// The point that X, Z or both lead to, in 0.001 mm. An axis that is not named stays where it is;
/// there is none if the words are none or others.
#[tactic(auto, unfolding(crate::specs::Contour::target_of))]
fn target_of(from: &Point, words: &[Word]) -> Option<Point>
    requires { IsWritten from.now }
    ensures target { result ≡ target_of from.now words.now }
    ensures near { IfSome result IsWritten }
{
    if words.len() == 1 {
        return match (length_at(words, 0, b'X'), length_at(words, 0, b'Z')) {
            (Some(x), _) => Some(Point { x, z: from.z }),
            (None, Some(z)) => Some(Point { x: from.x, z }),
            (None, None) => None,
        };
    }
    if words.len() != 2 {
        return None;
    }
    match (length_at(words, 0, b'X'), length_at(words, 1, b'Z')) {
        (Some(x), Some(z)) => Some(Point { x, z }),
        _ => match (length_at(words, 1, b'X'), length_at(words, 0, b'Z')) {
            (Some(x), Some(z)) => Some(Point { x, z }),
            _ => None,
        },
    }
}

/// The point that a block of a contour leads to. It has no word but G01 and its axes; any other
/// block leads nowhere, and so there is no form.
#[tactic(auto, unfolding(crate::specs::Contour::contour_point))]
fn contour_point(from: &Point, body: &Body) -> Option<Point>
    requires { IsWritten from.now }
    ensures point { result ≡ contour_point from.now body.now }
    ensures near { IfSome result IsWritten }
{
    match body {
        Body::Words(words) => target_of(from, behind_line(words.as_slice())),
        Body::Statement(_) => None,
    }
}

/// Whether a block has this sequence number.
pub(crate) fn is_numbered(number: u32, sequence: Option<u32>) -> bool
    ensures { result ≡ is_some_of number sequence }
{
    match sequence {
        Some(n) => n == number,
        None => false,
    }
}

/// The points of the blocks up to the first with the number `last`; none if one of these blocks
/// leads nowhere, or no block has that number. The only error is out of memory.
pub(crate) fn points_of(
    alloc: Global,
    from: &Point,
    last: u32,
    blocks: &[Block],
) -> Result<Option<Vec<Point>>, AllocError>
    requires { IsWritten from.now }
    ensures points { IfOk result (λ read.
        option_map (λ points. points.items) read ≡ points_behind [] from.now last blocks.now) }
    ensures near { IfOk result (λ read. IfSome read (λ points. All IsWritten points.items)) }
{
    let mut points = Vec::new(alloc);
    let mut at = *from;
    for block in blocks {
        let Some(to) = contour_point(&at, &block.body) else {
            return Ok(None);
        };
        points.push(to)?;
        if is_numbered(last, block.sequence) {
            return Ok(Some(points));
        }
        at = to;
    }
    Ok(None)
}
