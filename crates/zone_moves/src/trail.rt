//! The stretches of a path so far: where it stands, its tool, and what its moves may have touched.
ghost use Rattle.std.specs.Prelude.{◌≡◌, ◌<◌, ◌^◌, [], ◌∷◌, All, IfOk, OnOk, map};
ghost use Rattle.nc_number.specs.Position.{IsPosition};
ghost use Rattle.motion_track.specs.Within.{IsMoveWithin};
ghost use Rattle.nc_outside.specs.Lined.{lined_move};
ghost use Rattle.zone_area.specs.Area.{area_at, area_of};
ghost use Rattle.zone_area.specs.Passing.{place_after};
ghost use Rattle.zone_area.specs.Range.{IsNearArea};
ghost use Rattle.zone_moves.specs.Stretches.{CellView, start_stretch, move_stretch, tool_after, is_rapid, trail_at, trail_with, trail_along, IsPlaced};

use crate::cell::Cell;
use crate::stretch::{Source, Stretch};
use motion_track::LONGEST;
use nc_moves::Move;
use nc_number::{NoMemory, Path, Point};
use std::alloc::Global;
use std::marker::Model;
use zone_area::{Area, Swept};

/// The stretches of a path so far, where it stands, and its tool.
#[derive(Debug, Drop)]
pub struct Trail {
    /// Where the path stands.
    at: Point,
    /// The tool in force, as the first two digits of a T word name it.
    tool: u16,
    /// The stretches so far.
    stretches: Vec<Stretch>,
}

impl Model for Trail {
    ghost use Rattle.zone_moves.specs.Stretches;
    ghost use Rattle.zone_moves.specs.Trails.{IsOnTrack};

    ghost Value = { Stretches.TrailView };

    ghost view = { λ t. record { at = t.at; tool = t.tool; stretches = t.stretches.items } };

    ghost invariant = { λ t. IsOnTrack (record { at = t.at; tool = t.tool; stretches = t.stretches.items }) };
}

/// What a path does that stands, with the tool in force.
fn start_stretch(cell: &Cell, path: Path, tool: u16, at: &Point) -> Stretch
    requires { IsPosition at.now }
    ensures stretch { result ≡ start_stretch cell.now path tool at.now }
    ensures placed { IsPlaced result }
{
    let area = Swept::from(*at).area();
    Stretch {
        source: Source::Start,
        tool,
        rapid: false,
        area: cell.touched_area(path, tool, &area),
    }
}

/// The least area of one move.
fn area_of_move(at: &Point, what: &Move) -> Area
    requires at { IsPosition at.now }
    requires what { IsMoveWithin LONGEST what.now }
    ensures area { result ≡ area_of at.now (what.now ∷ []) }
    ensures near { IsNearArea result }
{
    let mut swept = Swept::from(*at);
    swept.add(what);
    swept.area()
}

/// The tool in force after a move.
fn tool_after(tool: u16, what: &Move) -> u16
    ensures { result ≡ tool_after tool what.now }
{
    match *what {
        Move::Tool { t } => t / 100,
        Move::Rapid { .. } => tool,
        Move::Feed { .. } => tool,
        Move::Thread { .. } => tool,
        Move::Arc { .. } => tool,
        Move::Dwell { .. } => tool,
        Move::Speed { .. } => tool,
        Move::Limit { .. } => tool,
        Move::Aux { .. } => tool,
    }
}

/// Whether the move is one at rapid traverse.
fn is_rapid(what: &Move) -> bool
    ensures { result ≡ is_rapid what.now }
{
    match *what {
        Move::Rapid { .. } => true,
        Move::Feed { .. } => false,
        Move::Thread { .. } => false,
        Move::Arc { .. } => false,
        Move::Dwell { .. } => false,
        Move::Speed { .. } => false,
        Move::Limit { .. } => false,
        Move::Tool { .. } => false,
        Move::Aux { .. } => false,
    }
}

/// Where a path stands after a move.
fn place_after(at: &Point, what: &Move) -> Point
    requires at { IsPosition at.now }
    requires what { IsMoveWithin LONGEST what.now }
    ensures place { result ≡ place_after at.now what.now }
    ensures position { IsPosition result }
{
    what.end().unwrap_or(*at)
}

impl Trail {
    /// A path that stands, before its first move. The only error is out of memory.
    pub fn start(
        alloc: Global,
        cell: &Cell,
        path: Path,
        tool: u16,
        at: Point,
    ) -> Result<Trail, NoMemory>
        requires { IsPosition at }
        ensures { IfOk result (λ trail. trail ≡ trail_at cell.now path tool at) }
    {
        let mut stretches = Vec::new(alloc);
        stretches.push(start_stretch(cell, path, tool, &at))?;
        Ok(Trail {
            at,
            tool,
            stretches,
        })
    }

    /// Takes a move of this line of the tape. The only error is out of memory.
    pub fn add(&mut self, cell: &Cell, path: Path, line: u32, what: &Move) -> Result<(), NoMemory>
        requires { IsMoveWithin LONGEST what.now }
        ensures { OnOk result (self.new ≡ trail_with cell.now path self.old (lined_move line what.now)) }
    {
        let tool = tool_after(self.tool, what);
        let area = cell.touched_area(path, tool, &area_of_move(&self.at, what));
        self.stretches.push(Stretch {
            source: Source::Line(line),
            tool,
            rapid: is_rapid(what),
            area,
        })?;
        self.tool = tool;
        self.at = place_after(&self.at, what);
        Ok(())
    }

    /// Takes the moves of the block at this line of the tape. The only error is out of memory.
    pub fn add_block(
        &mut self,
        cell: &Cell,
        path: Path,
        line: u32,
        moves: &[Move],
    ) -> Result<(), NoMemory>
        requires { All (IsMoveWithin LONGEST) moves.now }
        ensures { OnOk result (self.new ≡ trail_along cell.now path self.old (map (lined_move line) moves.now)) }
    {
        for what in moves {
            self.add(cell, path, line, what)?;
        }
        Ok(())
    }

    /// The stretches so far, in order.
    pub(crate) fn stretches(&self) -> &[Stretch]
        ensures stretches { result.now ≡ self.now.stretches }
        ensures placed { All IsPlaced result.now }
    {
        self.stretches.as_slice()
    }

    /// Where the path stands.
    pub fn at(&self) -> Point
        ensures at { result ≡ self.now.at }
        ensures near { IsPosition result }
    {
        self.at
    }

    /// The tool in force.
    pub fn tool(&self) -> u16
        ensures { result ≡ self.now.tool }
    {
        self.tool
    }
}
