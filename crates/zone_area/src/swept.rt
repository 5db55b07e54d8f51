//! What a path may have passed: the least area of its moves so far, and where it stands.
ghost use Rattle.std.specs.Prelude.{◌≡◌, All, IfSome};
ghost use Rattle.nc_number.specs.Position.{IsPosition};
ghost use Rattle.motion_track.specs.Centre.{IsGivenWithin};
ghost use Rattle.motion_track.specs.Within.{centre_in, IsMoveWithin};
ghost use Rattle.zone_area.specs.Passing.{place_after};
ghost use Rattle.zone_area.specs.Area.{area_to, hull_of, swept_at, swept_with, swept_along};
ghost use Rattle.zone_area.specs.Range.{IsNearArea};

use crate::arc::arc_area;
use crate::area::Area;
use motion_track::LONGEST;
use nc_moves::{Centre, Move};
use nc_number::Point;
use std::marker::Model;

/// What a path may have passed so far, and where it stands.
#[derive(Debug, Drop)]
pub struct Swept {
    /// The least area of whole counts that holds what it may have passed.
    area: Area,
    /// Where it stands.
    at: Point,
}

impl Model for Swept {
    ghost use Rattle.zone_area.specs.Area;
    ghost use Rattle.zone_area.specs.Range.{IsNear};

    ghost Value = { Area.SweptView };

    ghost view = { λ s. record { area = s.area; at = s.at } };

    ghost invariant = { λ s. IsNear (record { area = s.area; at = s.at }) };
}

impl Swept {
    /// Before the first move: the place alone.
    pub fn from(at: Point) -> Swept
        requires { IsPosition at }
        ensures { result ≡ swept_at at }
    {
        Swept {
            area: Area::at(&at),
            at,
        }
    }

    /// The least area that holds where the path began, each end of its moves, and what its arcs may
    /// reach.
    pub fn area(&self) -> Area
        ensures area { result ≡ self.now.area }
        ensures near { IsNearArea result }
    {
        self.area
    }

    /// Takes a move.
    pub fn add(&mut self, what: &Move)
        requires { IsMoveWithin LONGEST what.now }
        ensures { self.new ≡ swept_with self.old what.now }
    {
        self.area = area_to(&self.area, &self.at, &what.end(), &centre_in(what));
        self.at = place_after(&self.at, what);
    }

    /// Takes moves, in order.
    pub fn add_all(&mut self, moves: &[Move])
        requires { All (IsMoveWithin LONGEST) moves.now }
        ensures { self.new ≡ swept_along self.old moves.now }
    {
        for what in moves {
            self.add(what);
        }
    }
}

/// The centre or the radius of an arc; no other move has one.
fn centre_in(what: &Move) -> Option<Centre>
    ensures { result ≡ centre_in what.now }
{
    match *what {
        Move::Rapid { .. } => None,
        Move::Feed { .. } => None,
        Move::Thread { .. } => None,
        Move::Arc { centre, .. } => Some(centre),
        Move::Dwell { .. } => None,
        Move::Speed { .. } => None,
        Move::Limit { .. } => None,
        Move::Tool { .. } => None,
        Move::Aux { .. } => None,
    }
}

/// Where a move leads.
fn place_after(at: &Point, what: &Move) -> Point
    requires at { IsPosition at.now }
    requires what { IsMoveWithin LONGEST what.now }
    ensures place { result ≡ place_after at.now what.now }
    ensures position { IsPosition result }
{
    what.end().unwrap_or(*at)
}

/// The least area that holds another, and what a move to this end round this centre may pass.
fn area_to(area: &Area, at: &Point, end: &Option<Point>, centre: &Option<Centre>) -> Area
    requires area { IsNearArea area.now }
    requires at { IsPosition at.now }
    requires end { IfSome end.now IsPosition }
    requires centre { IsGivenWithin LONGEST centre.now }
    ensures area { result ≡ area_to area.now at.now end.now centre.now }
    ensures near { IsNearArea result }
{
    match *end {
        None => *area,
        Some(to) => {
            let ended = near_hull(area, &Area::at(&to));
            match *centre {
                None => ended,
                Some(centre) => near_hull(&ended, &arc_area(at, &to, &centre)),
            }
        }
    }
}

/// The least area that holds two areas of moves.
fn near_hull(area: &Area, other: &Area) -> Area
    requires area { IsNearArea area.now }
    requires other { IsNearArea other.now }
    ensures hull { result ≡ hull_of area.now other.now }
    ensures near { IsNearArea result }
{
    area.hull(other)
}
