//! Roundings: where their arcs begin and end, and round which centre they go.
ghost use Rattle.std.specs.Prelude.{◌≡◌, ◌≤◌, ◌<◌, ◌<ℤ◌, ◌*◌, ◌*ℤ◌, pos, IfSome, unsigned_abs};
ghost use Rattle.plane_ways.specs.declared.place.TheConstants.{FAR};
ghost use Rattle.plane_ways.specs.declared.meeting.Meeting.{Meeting};
ghost use Rattle.plane_ways.specs.Plane.{dot, turned, IsWithin};
ghost use Rattle.plane_ways.specs.Points.{place_of};
ghost use Rattle.plane_ways.specs.Steps.{IsDirection};
ghost use Rattle.corner_form.specs.declared.corner.TheConstants.{LARGEST_CORNER};
ghost use Rattle.corner_form.specs.Cuts.{multiple, foot, meeting_at, centre_at, round_at, round_of, round_corner, middle_of, is_rounding, rounding_kept, rounding_of, IsCornerOf, AreEnds, IsRoundOf};

use crate::chamfer::{are_on, counts, ends_at, is_short, turn_of};
use crate::corner::{Corner, CornerEnds, CornerFault, LARGEST_CORNER, RoundCorner};
use crate::lines::{ahead_of, is_beside_by, is_round, side_of, written};
use plane_ways::{
    Meeting, Place, Side, direction, dot, nearest_step, place_of, sharp_meeting, square, times,
    way, wide_meeting,
};

/// A way z times as long.
fn multiple(z: i128, w: &Place) -> Place
    requires z { unsigned_abs z ≤ 2000000000000000000 }
    requires w { IsWithin 1000000000 w.now }
    ensures multiple { result ≡ multiple z w.now }
    ensures within { IsWithin 100000000000000000000000000000000 result }
{
    Place {
        across: product(z, w.across),
        along: product(z, w.along),
    }
}

/// The product of a height and a length.
fn product(z: i128, n: i128) -> i128
    requires z { unsigned_abs z ≤ 2000000000000000000 }
    requires n { unsigned_abs n ≤ 1000000000 }
    ensures product { result ≡ z *ℤ n }
    ensures bound { unsigned_abs result ≤ 100000000000000000000000000000000 }
{
    z * n
}

/// Where the line from p to q is nearest to a place.
fn foot(p: &Place, q: &Place, at: &Place) -> Option<Place>
    requires p { IsWithin FAR p.now }
    requires q { IsWithin FAR q.now }
    requires at { IsWithin FAR at.now }
    ensures foot { result ≡ foot p.now q.now at.now }
    ensures near { IfSome result (IsWithin FAR) }
{
    let line = way(p, q);
    let size = square(&line);
    if size == 0 {
        return None;
    }
    nearest_step(p, &multiple(ahead_of(p, q, at), &line), size)
}

/// Where both lines meet that were moved to the side to which they turn.
fn meeting_at(side: Side, d: &Place, e: &Place) -> Meeting
    requires d { IsDirection d.now }
    requires e { IsDirection e.now }
    requires turn { pos 0 <ℤ dot (turned side d.now) e.now }
    ensures meeting { result ≡ meeting_at side d.now e.now }
    ensures within { IsWithin 10000000000000000000000000 result.by }
    ensures some { 0 < result.parts }
    ensures room { result.parts ≤ 10000000000000000000000000 }
{
    if 0 <= dot(d, e) {
        wide_meeting(side, d, e)
    } else {
        sharp_meeting(side, d, e)
    }
}

/// The centre of an arc of radius r, at the corner p.
fn centre_at(p: &Place, r: u128, meeting: &Meeting) -> Option<Place>
    requires p { IsWithin FAR p.now }
    requires r { r ≤ 2000000 }
    requires within { IsWithin 10000000000000000000000000 meeting.now.by }
    requires some { 0 < meeting.now.parts }
    requires room { meeting.now.parts ≤ 10000000000000000000000000 }
    ensures place { result ≡ centre_at p.now r meeting.now }
    ensures near { IfSome result (IsWithin FAR) }
{
    nearest_step(p, &times(r, &meeting.by), meeting.parts)
}

/// The rounded corner of these ends round a centre.
fn round_of(side: Side, middle: &Place, ends: &CornerEnds) -> RoundCorner
    requires middle { IsWithin FAR middle.now }
    requires ends { AreEnds ends.now }
    ensures round { result ≡ round_of side middle.now ends.now }
    ensures near { IsRoundOf result }
{
    let start = place_of(&ends.start);
    RoundCorner {
        ends: *ends,
        side,
        i: ((middle.across - start.across) / 2) as i64,
        k: ((middle.along - start.along) / 2) as i64,
    }
}

/// The rounded corner of an arc round a centre: its ends are nearest to it.
fn round_at(corner: &Corner, side: Side, middle: &Place) -> Option<RoundCorner>
    requires corner { IsCornerOf corner.now }
    requires middle { IsWithin FAR middle.now }
    ensures round { result ≡ round_at corner.now side middle.now }
    ensures near { IfSome result IsRoundOf }
{
    let tip = place_of(&corner.at);
    let start = written(foot(&tip, &place_of(&corner.from), middle));
    let end = written(foot(&tip, &place_of(&corner.to), middle));
    let ends = ends_at(start, end)?;
    Some(round_of(side, middle, &ends))
}

/// The rounded corner, if the lines turn.
fn round_corner(corner: &Corner) -> Option<RoundCorner>
    requires corner { IsCornerOf corner.now }
    requires size { corner.now.size ≤ LARGEST_CORNER }
    ensures round { result ≡ round_corner corner.now }
    ensures near { IfSome result IsRoundOf }
{
    let tip = place_of(&corner.at);
    let d = direction(&place_of(&corner.from), &tip)?;
    let e = direction(&tip, &place_of(&corner.to))?;
    let side = side_of(&d, &e)?;
    let middle = centre_at(&tip, counts(corner.size), &meeting_at(side, &d, &e))?;
    round_at(corner, side, &middle)
}

/// The centre of a rounded corner, as it is written.
fn middle_of(round: &RoundCorner) -> Place
    requires { IsRoundOf round.now }
    ensures middle { result ≡ middle_of round.now }
    ensures near { IsWithin FAR result }
{
    let start = place_of(&round.ends.start);
    Place {
        across: start.across + 2 * i128::from(round.i),
        along: start.along + 2 * i128::from(round.k),
    }
}

/// Whether its centre lies at the radius beside both lines, and from both ends.
fn is_rounding(corner: &Corner, round: &RoundCorner) -> bool
    requires corner { IsCornerOf corner.now }
    requires size { corner.now.size ≤ LARGEST_CORNER }
    requires round { IsRoundOf round.now }
    ensures { result ≡ is_rounding corner.now round.now }
{
    let tip = place_of(&corner.at);
    let size = counts(corner.size);
    let middle = middle_of(round);
    are_on(corner, &round.ends)
        && is_beside_by(size, round.side, &place_of(&corner.from), &tip, &middle)
        && is_beside_by(size, round.side, &tip, &place_of(&corner.to), &middle)
        && is_round(size, &middle, &place_of(&round.ends.start))
        && is_round(size, &middle, &place_of(&round.ends.end))
}

/// The rounded corner, if it is one.
fn rounding_kept(corner: &Corner, round: &Option<RoundCorner>) -> Result<RoundCorner, CornerFault>
    requires corner { IsCornerOf corner.now }
    requires size { corner.now.size ≤ LARGEST_CORNER }
    requires round { IfSome round.now IsRoundOf }
    ensures { result ≡ rounding_kept corner.now round.now }
{
    let Some(round) = round else {
        return Err(CornerFault::TooLong);
    };
    if !is_short(corner, &round.ends) {
        return Err(CornerFault::TooLong);
    }
    if !is_rounding(corner, round) {
        return Err(CornerFault::Inexact);
    }
    Ok(*round)
}

/// The rounding of a corner, or why there is none.
pub(crate) fn rounding_of(corner: &Corner) -> Result<RoundCorner, CornerFault>
    requires { IsCornerOf corner.now }
    ensures { result ≡ rounding_of corner.now }
{
    if corner.size > LARGEST_CORNER {
        return Err(CornerFault::TooLarge);
    }
    match turn_of(corner) {
        None => Err(CornerFault::NoTurn),
        Some(_) => rounding_kept(corner, &round_corner(corner)),
    }
}
