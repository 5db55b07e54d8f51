//! Arcs, and whether they end on their circle. Where an arc ends is in targets.rt, and its centre
//! in centre.rt. block.rt of this crate calls `arc`; the law at the end is for readers.
ghost use Rattle.std.specs.Prelude.{◌≡◌, ◌≤◌, true, false, ℤ, ◌*◌, unsigned_abs};
ghost use Rattle.nc_number.specs.declared.point.Point.{Point};
ghost use Rattle.nc_moves.specs.declared.motion.Centre.TheVariants.{Offset};
ghost use Rattle.nc_number.specs.Position.{IsWithin};
ghost use Rattle.motion_track.specs.Tolerance.{EndsOnCircle};
ghost use Rattle.motion_track.specs.Circle.{IsNear, place_of, centre_from, square_between, is_past_tolerance, misses, arc_of};
ghost use Rattle.motion_track.specs.Centre.{IsCentreWithin, IsGivenWithin};

use crate::cut::is_feed_zero;
use crate::fault::MotionFault;
use crate::targets::LONGEST;
use nc_moves::{Centre, Move};
use nc_number::{Cause, Point, Value};

/// How far an arc's end may lie from its circle, in 0.0005 mm. It is `tolerance` of
/// specs/Circle.antt.
const TOLERANCE: u128 = 20;

/// A place of the plane in 0.0005 mm, in which the number of a diameter is that of its radius.
#[derive(Drop)]
struct Place {
    /// Across the axis of the spindle: a diameter in 0.001 mm is a radius in 0.0005 mm.
    across: i64,
    /// Along it, in 0.0005 mm.
    along: i64,
}

/// An arc from `at` to `to`, at a feed by the revolution (`per_rev`) or by the minute. Alarm 43
/// exactly where there is neither a centre nor a radius; else 42 exactly where the end lies farther
/// than 0.010 mm from the circle through the start round the centre, or farther from the start than
/// twice the radius; else 44 exactly where the feed is 0.
pub fn arc(
    at: Point,
    to: Point,
    clockwise: bool,
    centre: Option<Centre>,
    feed: Value,
    per_rev: bool,
) -> Result<Move, MotionFault>
    requires at { IsWithin LONGEST at }
    requires to { IsWithin LONGEST to }
    requires centre { IsGivenWithin LONGEST centre }
    ensures { result ≡ arc_of at to clockwise centre feed per_rev }
{
    let Some(centre) = centre else {
        return Err(MotionFault::of(Cause::NoCentre));
    };
    if misses(&at, &to, &centre) {
        return Err(MotionFault::of(Cause::ArcRadius));
    }
    if is_feed_zero(&feed) {
        return Err(MotionFault::of(Cause::FeedZero));
    }
    Ok(Move::Arc {
        clockwise,
        to,
        centre,
        feed,
        per_rev,
    })
}

/// Whether no arc round this centre, within the tolerance, or of this radius leads from `at` to
/// `to`.
fn misses(at: &Point, to: &Point, centre: &Centre) -> bool
    requires at { IsWithin LONGEST at.now }
    requires to { IsWithin LONGEST to.now }
    requires centre { IsCentreWithin LONGEST centre.now }
    ensures { result ≡ misses at.now to.now centre.now }
{
    let start = place_of(at);
    let end = place_of(to);
    match *centre {
        Centre::Offset { i, k } => {
            let middle = centre_from(&start, i, k);
            let from_start = square_between(&middle, &start);
            let from_end = square_between(&middle, &end);
            is_past_tolerance(from_start.max(from_end), from_start.min(from_end))
        }
        Centre::Radius { r } => {
            let diameter = 4 * u128::from(r.unsigned_abs());
            diameter * diameter < square_between(&start, &end)
        }
    }
}

/// Whether places at these squared distances from a centre, the larger first, lie on no circle
/// round it within the tolerance.
fn is_past_tolerance(far: u128, near: u128) -> bool
    requires { near ≤ 1280000000000000000000000000000 }
    ensures { result ≡ is_past_tolerance far near }
{
    let Some(excess) = far.checked_sub(near + TOLERANCE * TOLERANCE) else {
        return false;
    };
    match excess.checked_mul(excess) {
        Some(square) => square > 4 * TOLERANCE * TOLERANCE * near,
        // A square of more than 128 bits is larger than any that it is compared with.
        None => true,
    }
}

/// The place of a point. Its diameter in 0.001 mm is the radius in 0.0005 mm.
fn place_of(point: &Point) -> Place
    requires { IsWithin LONGEST point.now }
    ensures place { result ≡ place_of point.now }
    ensures near { IsNear 200000000000000 result }
{
    Place {
        across: point.x,
        along: 2 * point.z,
    }
}

/// The centre, from the start and I and K in 0.001 mm.
fn centre_from(start: &Place, i: i64, k: i64) -> Place
    requires start { IsNear 200000000000000 start.now }
    requires i { unsigned_abs i ≤ LONGEST }
    requires k { unsigned_abs k ≤ LONGEST }
    ensures place { result ≡ centre_from start.now i k }
    ensures near { IsNear 400000000000000 result }
{
    Place {
        across: start.across + 2 * i,
        along: start.along + 2 * k,
    }
}

/// The square of the distance of two places, in 0.0005 mm.
fn square_between(a: &Place, b: &Place) -> u128
    requires a { IsNear 400000000000000 a.now }
    requires b { IsNear 400000000000000 b.now }
    ensures square { result ≡ square_between a.now b.now }
    ensures bound { result ≤ 1280000000000000000000000000000 }
{
    squared(a.across.abs_diff(b.across)) + squared(a.along.abs_diff(b.along))
}

/// The square of a distance, in 0.0005 mm.
#[tactic(auto, using(crate::proofs::Places::square_bound))]
fn squared(distance: u64) -> u128
    requires { distance ≤ 800000000000000 }
    ensures square { result ≡ distance * distance }
    ensures bound { result ≤ 640000000000000000000000000000 }
{
    u128::from(distance) * u128::from(distance)
}

/// What the test of an arc by its centre means, as a law: the arc is taken exactly where its end
/// lies within the tolerance of the circle through its start round its centre.
#[tactic(auto, using(crate::proofs::Tolerance::within, crate::proofs::Tolerance::beyond))]
pub fn arcs_end_on_their_circle()
    ensures taken { (at to : Point) (i k : ℤ) → misses at to (Offset i k) ≡ false
        → EndsOnCircle at to i k }
    ensures refused { (at to : Point) (i k : ℤ) → misses at to (Offset i k) ≡ true
        → ¬ EndsOnCircle at to i k }
{}
