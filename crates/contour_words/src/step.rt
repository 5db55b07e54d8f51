//! What a block of a contour behind its first one says: a line, an arc, or no move.
ghost use Rattle.std.specs.Prelude.{◌≡◌, ◌≤◌, ◌&&◌, ◌||◌, IfOk, IfSome, pos, unsigned_abs};
ghost use Rattle.std.specs.Ordering.{int_eq};
ghost use Rattle.nc_number.specs.declared.limits.TheConstants.{LONGEST_SAID};
ghost use Rattle.cycle_words.specs.Numbers.{length_or};
ghost use Rattle.arc_contour.specs.Bounds.{IsWritten, IsPieceWithin};
ghost use Rattle.contour_words.specs.Steps.{letters_of, codes_of, point_by, point_to, is_same, offsets_said, centre_said, round_to, rapid_cause, moves, moving_to, piece_to, step_of, IsNearStep};

use crate::causes::{fault, refuse, words_cause};
use crate::motion::{Motion, motion_by};
use crate::radius::{Centre, radius_centre};
use crate::tempo::{Tempo, tempo_of};
use arc_contour::Piece;
use cycle_words::{is_said, length_said, place_said, says_ends};
use nc_number::Point;
use nc_text::Word;
use plain_form::{PlainCause, PlainFault};

/// The codes that the blocks of a contour may have, in millionths.
pub(crate) const CODES: [i64; 4] = [0, 1_000_000, 2_000_000, 3_000_000];

/// The letters that a block of a contour may have.
fn letters_of(motion: Motion) -> &'static [u8]
    ensures { result.now ≡ letters_of motion }
{
    match motion {
        Motion::Rapid | Motion::Line => b"GXZUWFS",
        Motion::Round { .. } => b"GXZUWIKRFS",
    }
}

/// The point of these lengths, if a literal can write them.
fn point_by(line: u32, x: i64, z: i64) -> Result<Point, PlainFault>
    ensures point { result ≡ point_by line x z }
    ensures near { IfOk result IsWritten }
{
    if x.unsigned_abs() > 100_000_000_000 {
        return Err(fault(line, PlainCause::Range(b'X')));
    }
    if z.unsigned_abs() > 100_000_000_000 {
        return Err(fault(line, PlainCause::Range(b'Z')));
    }
    Ok(Point { x, z })
}

/// Where a block leads from a point; at most 100 km from 0.
pub(crate) fn point_to(line: u32, words: &[Word], from: &Point) -> Result<Point, PlainFault>
    requires { IsWritten from.now }
    ensures point { result ≡ point_to line words.now from.now }
    ensures near { IfOk result IsWritten }
{
    let x = place_said(words, b'X', b'U', from.x);
    let z = place_said(words, b'Z', b'W', from.z);
    point_by(line, x, z)
}

/// Whether two points are one.
fn is_same(p: &Point, q: &Point) -> bool
    ensures { result ≡ is_same p.now q.now }
{
    p.x == q.x && p.z == q.z
}

/// The length that the last word of a letter writes out, or 0.
pub fn length_or_none(words: &[Word], letter: u8) -> i64
    ensures offset { result ≡ length_or letter (pos 0) words.now }
    ensures near { unsigned_abs result ≤ LONGEST_SAID }
{
    length_said(words, letter).unwrap_or(0)
}

/// The centre that I, K or both name.
fn offsets_said(words: &[Word]) -> Option<Centre>
    ensures centre { result ≡ offsets_said words.now }
    ensures near_i { IfSome result (λ c. unsigned_abs c.i ≤ LONGEST_SAID) }
    ensures near_k { IfSome result (λ c. unsigned_abs c.k ≤ LONGEST_SAID) }
{
    if is_said(words, b'I') || is_said(words, b'K') {
        Some(Centre {
            i: length_or_none(words, b'I'),
            k: length_or_none(words, b'K'),
        })
    } else {
        None
    }
}

/// The centre of an arc: by its radius R, or else by I and K. A whole circle has none here.
fn centre_said(words: &[Word], from: &Point, to: &Point, clockwise: bool) -> Option<Centre>
    requires from { IsWritten from.now }
    requires to { IsWritten to.now }
    ensures centre { result ≡ centre_said words.now from.now to.now clockwise }
    ensures near_i { IfSome result (λ c. unsigned_abs c.i ≤ LONGEST_SAID) }
    ensures near_k { IfSome result (λ c. unsigned_abs c.k ≤ LONGEST_SAID) }
{
    if is_same(from, to) {
        return None;
    }
    match length_said(words, b'R') {
        Some(r) => radius_centre(from, to, clockwise, r),
        None => offsets_said(words),
    }
}

/// The arc of a block.
#[tactic(auto, unfolding(arc_contour::specs::Bounds::IsPieceWithin))]
fn round_to(
    line: u32,
    words: &[Word],
    from: &Point,
    to: &Point,
    clockwise: bool,
) -> Result<Piece, PlainFault>
    requires from { IsWritten from.now }
    requires to { IsWritten to.now }
    ensures piece { result ≡ round_to line words.now from.now to.now clockwise }
    ensures near { IfOk result (IsPieceWithin LONGEST_SAID) }
{
    match centre_said(words, from, to, clockwise) {
        Some(centre) => Ok(Piece::Arc {
            clockwise,
            to: *to,
            i: centre.i,
            k: centre.k,
        }),
        None => Err(fault(line, PlainCause::Arc)),
    }
}

/// That a block behind the first moves at rapid traverse, or that no code says how it moves.
fn rapid_cause(words: &[Word]) -> PlainCause
    ensures { result ≡ rapid_cause words.now }
{
    if is_said(words, b'G') {
        PlainCause::Unexpected(b'G')
    } else {
        PlainCause::Missing(b'G')
    }
}

/// The piece of a block that moves from a point to another.
#[tactic(auto, unfolding(arc_contour::specs::Bounds::IsPieceWithin))]
fn moving_to(
    line: u32,
    words: &[Word],
    motion: Motion,
    from: &Point,
    to: &Point,
) -> Result<Piece, PlainFault>
    requires from { IsWritten from.now }
    requires to { IsWritten to.now }
    ensures piece { result ≡ moving_to line words.now motion from.now to.now }
    ensures near { IfOk result (IsPieceWithin LONGEST_SAID) }
{
    match motion {
        Motion::Rapid => Err(fault(line, rapid_cause(words))),
        Motion::Line => Ok(Piece::Line { to: *to }),
        Motion::Round { clockwise } => round_to(line, words, from, to, clockwise),
    }
}

/// Whether the words name a place, or a centre.
fn moves(words: &[Word]) -> bool
    ensures { result ≡ moves words.now }
{
    says_ends(words) || is_said(words, b'I') || is_said(words, b'K') || is_said(words, b'R')
}

/// The piece of a block, if it moves.
fn piece_to(
    line: u32,
    words: &[Word],
    motion: Motion,
    from: &Point,
    to: &Point,
) -> Result<Option<Piece>, PlainFault>
    requires from { IsWritten from.now }
    requires to { IsWritten to.now }
    ensures piece { result ≡ piece_to line words.now motion from.now to.now }
    ensures near { IfOk result (λ piece. IfSome piece (IsPieceWithin LONGEST_SAID)) }
{
    if !moves(words) {
        return Ok(None);
    }
    match moving_to(line, words, motion, from, to) {
        Ok(piece) => Ok(Some(piece)),
        Err(refusal) => Err(refusal),
    }
}

/// What a block of a contour behind its first one says.
#[derive(Clone, Copy, Debug, PartialEq, Eq)]
pub struct Step {
    /// Its piece, if it moves.
    pub piece: Option<Piece>,
    /// The feed and the speed that it sets for the finish.
    pub tempo: Tempo,
    /// How the block behind it moves, if no code says it.
    pub motion: Motion,
    /// Where it leads.
    pub to: Point,
}

/// What a block of a contour behind its first one says: its line, its words, and how the block before
/// it left the motion and the place.
#[tactic(auto, unfolding(crate::specs::Steps::step_of))]
pub(crate) fn step_of(
    line: u32,
    words: &[Word],
    before: Motion,
    from: &Point,
) -> Result<Step, PlainFault>
    requires { IsWritten from.now }
    ensures step { result ≡ step_of line words.now before from.now }
    ensures near { IfOk result IsNearStep }
{
    let motion = motion_by(words, before);
    refuse(line, words_cause(words, letters_of(motion), &CODES))?;
    let to = point_to(line, words, from)?;
    let piece = piece_to(line, words, motion, from, &to)?;
    Ok(Step {
        piece,
        tempo: tempo_of(words),
        motion,
        to,
    })
}
