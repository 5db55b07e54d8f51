//! Chamfers: where they begin and end.
ghost use Rattle.std.specs.Prelude.{◌≡◌, ◌≤◌, ◌*◌, IfSome};
ghost use Rattle.nc_number.specs.Position.{IsPosition};
ghost use Rattle.plane_ways.specs.declared.place.TheConstants.{FAR};
ghost use Rattle.plane_ways.specs.Plane.{IsWithin};
ghost use Rattle.plane_ways.specs.Steps.{IsDirection};
ghost use Rattle.corner_form.specs.declared.corner.TheConstants.{LARGEST_CORNER};
ghost use Rattle.corner_form.specs.Cuts.{before, tip, after, place_along, ends_at, chamfer_ends, turn_of, is_short, are_on, is_chamfer, chamfer_kept, chamfer_turned, chamfer_of, IsCornerOf, AreEnds};

use crate::corner::{Corner, CornerEnds, CornerFault, LARGEST_CORNER};
use crate::lines::{is_ahead_by, is_on, reaches, side_of, written};
use nc_number::Point;
use plane_ways::{Place, Side, direction, length, nearest_step, place_of, times};

/// A length of a corner in 0.0005 mm.
pub(crate) fn counts(size: u64) -> u128
    requires { size ≤ LARGEST_CORNER }
    ensures counts { result ≡ 2 * size }
    ensures bound { result ≤ 2000000 }
{
    2 * u128::from(size)
}

/// The place n from p on a line of this direction.
fn place_along(p: &Place, n: u128, d: &Place) -> Option<Place>
    requires p { IsWithin FAR p.now }
    requires n { n ≤ 2000000 }
    requires d { IsDirection d.now }
    ensures place { result ≡ place_along p.now n d.now }
    ensures near { IfSome result (IsWithin FAR) }
{
    nearest_step(p, &times(n, d), length(d))
}

/// The ends of a corner at these points, if there are both.
pub(crate) fn ends_at(start: Option<Point>, end: Option<Point>) -> Option<CornerEnds>
    requires start { IfSome start IsPosition }
    requires end { IfSome end IsPosition }
    ensures ends { result ≡ ends_at start end }
    ensures positions { IfSome result AreEnds }
{
    let start = start?;
    let end = end?;
    Some(CornerEnds { start, end })
}

/// To which side the second line turns, if it turns.
pub(crate) fn turn_of(corner: &Corner) -> Option<Side>
    requires { IsCornerOf corner.now }
    ensures { result ≡ turn_of corner.now }
{
    let tip = place_of(&corner.at);
    let d = direction(&place_of(&corner.from), &tip)?;
    let e = direction(&tip, &place_of(&corner.to))?;
    side_of(&d, &e)
}

/// Whether neither end lies past its line.
pub(crate) fn is_short(corner: &Corner, ends: &CornerEnds) -> bool
    requires corner { IsCornerOf corner.now }
    requires ends { AreEnds ends.now }
    ensures { result ≡ is_short corner.now ends.now }
{
    let tip = place_of(&corner.at);
    reaches(&tip, &place_of(&corner.from), &place_of(&ends.start))
        && reaches(&tip, &place_of(&corner.to), &place_of(&ends.end))
}

/// Whether both ends lie on their lines.
pub(crate) fn are_on(corner: &Corner, ends: &CornerEnds) -> bool
    requires corner { IsCornerOf corner.now }
    requires ends { AreEnds ends.now }
    ensures { result ≡ are_on corner.now ends.now }
{
    let tip = place_of(&corner.at);
    is_on(&tip, &place_of(&corner.from), &place_of(&ends.start))
        && is_on(&tip, &place_of(&corner.to), &place_of(&ends.end))
}

/// The ends of a chamfer.
fn chamfer_ends(corner: &Corner) -> Option<CornerEnds>
    requires corner { IsCornerOf corner.now }
    requires size { corner.now.size ≤ LARGEST_CORNER }
    ensures ends { result ≡ chamfer_ends corner.now }
    ensures positions { IfSome result AreEnds }
{
    let tip = place_of(&corner.at);
    let back = direction(&tip, &place_of(&corner.from))?;
    let on = direction(&tip, &place_of(&corner.to))?;
    let size = counts(corner.size);
    ends_at(
        written(place_along(&tip, size, &back)),
        written(place_along(&tip, size, &on)),
    )
}

/// Whether both ends are on their lines and as far from the corner as it says.
fn is_chamfer(corner: &Corner, ends: &CornerEnds) -> bool
    requires corner { IsCornerOf corner.now }
    requires size { corner.now.size ≤ LARGEST_CORNER }
    requires ends { AreEnds ends.now }
    ensures { result ≡ is_chamfer corner.now ends.now }
{
    let tip = place_of(&corner.at);
    let size = counts(corner.size);
    are_on(corner, ends)
        && is_ahead_by(size, &tip, &place_of(&corner.from), &place_of(&ends.start))
        && is_ahead_by(size, &tip, &place_of(&corner.to), &place_of(&ends.end))
}

/// The ends, if they are those of a chamfer.
fn chamfer_kept(corner: &Corner, ends: &Option<CornerEnds>) -> Result<CornerEnds, CornerFault>
    requires corner { IsCornerOf corner.now }
    requires size { corner.now.size ≤ LARGEST_CORNER }
    requires ends { IfSome ends.now AreEnds }
    ensures { result ≡ chamfer_kept corner.now ends.now }
{
    let Some(ends) = ends else {
        return Err(CornerFault::TooLong);
    };
    if !is_short(corner, ends) {
        return Err(CornerFault::TooLong);
    }
    if !is_chamfer(corner, ends) {
        return Err(CornerFault::Inexact);
    }
    Ok(*ends)
}

/// The ends of the chamfer of a corner, or why there is none.
pub(crate) fn chamfer_of(corner: &Corner) -> Result<CornerEnds, CornerFault>
    requires { IsCornerOf corner.now }
    ensures { result ≡ chamfer_of corner.now }
{
    if corner.size > LARGEST_CORNER {
        return Err(CornerFault::TooLarge);
    }
    match turn_of(corner) {
        None => Err(CornerFault::NoTurn),
        Some(_) => chamfer_kept(corner, &chamfer_ends(corner)),
    }
}
