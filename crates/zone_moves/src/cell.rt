//! How both paths lie in the cell, how far apart they are to stay, the bodies of their tools, and
//! what stands in the cell.
ghost use Rattle.std.specs.Prelude.{◌≡◌, ◌∷◌, ◌++◌, [], All, OnOk, length};
ghost use Rattle.nc_number.specs.Position.{IsPosition, IsWithin};
ghost use Rattle.zone_area.specs.Area.{area_in_cell};
ghost use Rattle.zone_area.specs.Range.{far_corner, far_grown, IsNearArea, IsGrownArea, IsInCell};
ghost use Rattle.zone_moves.specs.Bodies.{grown, sum_of, IsBody, IsBodyArea};
ghost use Rattle.zone_moves.specs.Fixed.{IsFixed};
ghost use Rattle.zone_moves.specs.Stretches.{touched_area};
ghost use Rattle.zone_moves.specs.Cells.{AreShifted, empty_cell};

use crate::body::{Body, body_of};
use crate::fixed::FixedBox;
use nc_number::{Both, NoMemory, Path, Point};
use std::alloc::Global;
use std::marker::Model;
use zone_area::{Area, Frame};

/// How both paths lie in the cell, and what is to stay apart there.
#[derive(Debug, Drop)]
pub struct Cell {
    /// How each path lies in the cell.
    frames: Both<Frame>,
    /// How far apart bodies are to stay, in 0.001 mm; X is a diameter.
    gap: Point,
    /// The bodies of tools.
    bodies: Vec<Body>,
    /// What stands in the cell.
    boxes: Vec<FixedBox>,
}

impl Model for Cell {
    ghost use Rattle.zone_moves.specs.Stretches;
    ghost use Rattle.zone_moves.specs.Cells.{IsFit};

    ghost Value = { Stretches.CellView };

    ghost view = { λ c. record { frames = c.frames; gap = c.gap; bodies = c.bodies.items; boxes = c.boxes.items } };

    ghost invariant = { λ c. IsFit (record { frames = c.frames; gap = c.gap; bodies = c.bodies.items; boxes = c.boxes.items }) };
}

impl Cell {
    /// The cell before anything is said of it: both paths lie in it as they are, and nothing stands
    /// there.
    pub fn empty(alloc: Global) -> Cell
        ensures { result ≡ empty_cell }
    {
        let origin = Point { x: 0, z: 0 };
        let frame = Frame {
            mirror: false,
            mirror_z: false,
            shift: origin,
        };
        Cell {
            frames: Both {
                one: frame,
                two: frame,
            },
            gap: origin,
            bodies: Vec::new(alloc),
            boxes: Vec::new(alloc),
        }
    }

    /// How each path lies in the cell.
    pub fn frames(&self) -> Both<Frame>
        ensures frames { result ≡ self.now.frames }
        ensures near { AreShifted result }
    {
        self.frames
    }

    /// Lays the paths into the cell.
    pub fn set_frames(&mut self, frames: Both<Frame>)
        requires { AreShifted frames }
        ensures { self.new ≡ record self.old { frames = frames } }
    {
        self.frames = frames;
    }

    /// Says how far apart bodies are to stay.
    pub fn set_gap(&mut self, gap: Point)
        requires { IsPosition gap }
        ensures { self.new ≡ record self.old { gap = gap } }
    {
        self.gap = gap;
    }

    /// Adds the body of a tool. The only error is out of memory.
    pub fn add_body(&mut self, body: Body) -> Result<(), NoMemory>
        requires { IsBody body }
        ensures { OnOk result (self.new ≡ record self.old { bodies = self.old.bodies ++ body ∷ [] }) }
    {
        self.bodies.push(body)?;
        Ok(())
    }

    /// Adds what stands in the cell. The only error is out of memory.
    pub fn add_box(&mut self, fixed: FixedBox) -> Result<(), NoMemory>
        requires { IsFixed fixed }
        ensures { OnOk result (self.new ≡ record self.old { boxes = self.old.boxes ++ fixed ∷ [] }) }
    {
        self.boxes.push(fixed)?;
        Ok(())
    }

    /// How far apart bodies are to stay.
    pub(crate) fn gap(&self) -> Point
        ensures gap { result ≡ self.now.gap }
        ensures near { IsPosition result }
    {
        self.gap
    }

    /// How many boxes stand in the cell.
    pub fn box_count(&self) -> usize
        ensures { result ≡ length self.now.boxes }
    {
        self.boxes.len()
    }

    /// What stands in the cell.
    pub(crate) fn boxes(&self) -> &[FixedBox]
        ensures boxes { result.now ≡ self.now.boxes }
        ensures near { All IsFixed result.now }
    {
        self.boxes.as_slice()
    }

    /// What the body of a tool may touch while the programmed point is in an area, as it lies in
    /// the cell.
    pub(crate) fn touched_area(&self, path: Path, tool: u16, area: &Area) -> Area
        requires { IsNearArea area.now }
        ensures area { result ≡ touched_area self.now path tool area.now }
        ensures near { IsInCell result }
    {
        let body = body_of(path, tool, self.bodies.as_slice());
        place(self.frames.of(path), &grown(&body, area))
    }
}

/// An area as it lies in the cell.
fn place(frame: &Frame, area: &Area) -> Area
    requires frame { IsPosition frame.now.shift }
    requires area { IsGrownArea area.now }
    ensures area { result ≡ area_in_cell frame.now area.now }
    ensures near { IsInCell result }
{
    frame.in_cell(area)
}

/// An area with a body round each of its points.
fn grown(body: &Area, area: &Area) -> Area
    requires body { IsBodyArea body.now }
    requires area { IsNearArea area.now }
    ensures area { result ≡ grown body.now area.now }
    ensures near { IsGrownArea result }
{
    Area {
        low: sum(&area.low, &body.low),
        high: sum(&area.high, &body.high),
    }
}

/// A point moved by another.
fn sum(point: &Point, by: &Point) -> Point
    requires point { IsWithin far_corner point.now }
    requires by { IsPosition by.now }
    ensures sum { result ≡ sum_of point.now by.now }
    ensures near { IsWithin far_grown result }
{
    Point {
        x: point.x + by.x,
        z: point.z + by.z,
    }
}
