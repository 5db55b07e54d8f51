//! What is cut of a leg: the points to which the tool moves.
ghost use Rattle.std.specs.Prelude.{◌≡◌};
ghost use Rattle.nc_number.specs.Position.{IsPosition};
ghost use Rattle.nose_words.specs.Told.{IsSmall};
ghost use Rattle.nose_words.specs.Cut.{is_near, point_for, point_at, joins_at, leg_cut};

use crate::told::Tip;
use line_words::position_of;
use nc_number::Point;
use nose_path::{centre_of, point_of};
use plane_ways::{FAR, Line, Place, is_same};

/// What is cut of a leg.
#[derive(Clone, Copy, Debug, PartialEq, Eq)]
pub(crate) struct LegCut {
    /// Whether the leg before it ends elsewhere, so that a line leads to its begin.
    pub joins: bool,
    /// Where it begins.
    pub from: Point,
    /// Where it ends.
    pub to: Point,
}

/// Whether the place is near enough.
fn is_near(at: &Place) -> bool
    ensures test { result ≡ is_near at.now }
{
    at.across.unsigned_abs() <= FAR && at.along.unsigned_abs() <= FAR
}

/// The point, if the nose's centre is at this place when the tool is there.
fn point_for(tip: &Tip, at: &Place, point: &Point) -> Option<Point>
    requires tip { IsSmall tip.now }
    requires point { IsPosition point.now }
    ensures { result ≡ point_for tip.now at.now point.now }
{
    if is_same(&centre_of(tip.number, tip.radius, point), at) {
        Some(*point)
    } else {
        None
    }
}

/// The programmed point of the tool whose nose's centre is at a place, if it may be a position and is
/// a whole number of increments.
fn point_at(tip: &Tip, at: &Place) -> Option<Point>
    requires { IsSmall tip.now }
    ensures { result ≡ point_at tip.now at.now }
{
    if !is_near(at) {
        return None;
    }
    let point = position_of(point_of(tip.number, tip.radius, at))?;
    point_for(tip, at, &point)
}

/// Whether the leg before one ends elsewhere than it begins.
fn joins_at(at: &Option<Place>, leg: &Line) -> bool
    ensures { result ≡ joins_at at.now leg.now }
{
    match at {
        Some(at) => !is_same(at, &leg.from),
        None => false,
    }
}

/// What is cut of a leg behind one that ends at a place, if its points may be positions.
pub(crate) fn leg_cut(tip: &Tip, at: &Option<Place>, leg: &Line) -> Option<LegCut>
    requires { IsSmall tip.now }
    ensures { result ≡ leg_cut tip.now at.now leg.now }
{
    let from = point_at(tip, &leg.from)?;
    let to = point_at(tip, &leg.to)?;
    Some(LegCut {
        joins: joins_at(at, leg),
        from,
        to,
    })
}
