//! G71 and G70 along lines as plain blocks: the passes, and then the contour.
ghost use Rattle.std.specs.Prelude.{◌≡◌, ◌≤◌, ◌++◌, IfOk, IfSome, OnOk, unsigned_abs, All, true, map, [], ◌∷◌};
ghost use Rattle.std.specs.List.{flat_map};
ghost use Rattle.nc_number.specs.declared.limits.TheConstants.{LONGEST_SAID};
ghost use Rattle.rough_cycle.specs.declared.form.TheConstants.{TRIED};
ghost use Rattle.rough_cycle.specs.Contour.{moved_point, moved_points};
ghost use Rattle.rough_cycle.specs.Inside.{IsNear};
ghost use Rattle.rough_cycle.specs.Roughing.{passes_from, made_at, off_pass, x_of_pass, pass_blocks, contour_blocks, rough_blocks, finish_blocks, first_moved, points_moved, across_to, along_to, straight_to};
ghost use Rattle.rough_cycle.specs.Form.{rough_of, IsNearForm, IsNearPass, IsWritten};

use crate::block::PlainBlock;
use crate::contour::end_at;
use nc_number::Point;
use std::alloc::{AllocError, Global};

/// One pass more than a form may have: cycle_form takes no form with so many (its `MOST_PASSES` is
/// one less).
pub const TRIED: u32 = 1_001;

/// What a G71 form says; lengths are in 0.001 mm.
#[derive(Debug, Drop)]
pub struct RoughForm {
    /// Where the cycle starts and ends.
    pub start: Point,
    /// The depth of a cut, as a radius.
    pub depth: u64,
    /// How far a pass is left off its cut, as a radius in X and along Z.
    pub retreat: u64,
    /// The finishing allowance in X, a diameter.
    pub across: u64,
    /// The finishing allowance in Z.
    pub along: u64,
    /// The first point of the contour.
    pub first: Point,
    /// The points after it.
    pub points: Vec<Point>,
}

impl RoughForm {
    /// The blocks of the G71 part: the passes, and then the contour with its allowances.
    pub fn rough_blocks(&self, alloc: Global) -> Result<Vec<PlainBlock>, AllocError>
        requires { IsNearForm (rough_of self.now) }
        ensures { IfOk result (λ v. v.items ≡ rough_blocks (rough_of self.now) TRIED) }
    {
        let first = moved_point(self.across, self.along, &self.first);
        let points = moved(alloc, self.across, self.along, &self.points)?;
        let passes = self.passes(alloc, &first, &points)?;
        let mut blocks = Vec::new(alloc);
        self.push_passes(&passes, &mut blocks)?;
        push_contour(&self.start, &first, &points, &mut blocks)?;
        Ok(blocks)
    }

    /// The blocks of the G70 part from a start: to the contour, along it, and back.
    pub fn finish_blocks(&self, alloc: Global, start: &Point) -> Result<Vec<PlainBlock>, AllocError>
        ensures { IfOk result (λ v. v.items ≡ finish_blocks (rough_of self.now) start.now) }
    {
        let mut blocks = Vec::new(alloc);
        push_contour(start, &self.first, &self.points, &mut blocks)?;
        Ok(blocks)
    }

    /// The passes, or the first 1,001 of them.
    fn passes(
        &self,
        alloc: Global,
        first: &Point,
        points: &[Point],
    ) -> Result<Vec<Point>, AllocError>
        requires near { IsNearForm (rough_of self.now) }
        requires first { first.now ≡ first_moved (rough_of self.now) }
        requires points { points.now ≡ points_moved (rough_of self.now) }
        requires near_first { IsNear first.now }
        requires near_points { All IsNear points.now }
        ensures passes { IfOk result (λ v. v.items ≡ passes_from (rough_of self.now) 1 TRIED) }
        ensures near { IfOk result (λ v. All IsNearPass v.items) }
    {
        let mut passes = Vec::new(alloc);
        for k in 1..TRIED + 1 {
            let Some(pass) = self.pass_at(first, points, k) else {
                return Ok(passes);
            };
            passes.push(pass)?;
        }
        Ok(passes)
    }

    /// The end of pass k, if it is made: above the contour's first point, and leading down from the
    /// start's Z.
    fn pass_at(&self, first: &Point, points: &[Point], k: u32) -> Option<Point>
        requires near { IsNearForm (rough_of self.now) }
        requires first { first.now ≡ first_moved (rough_of self.now) }
        requires points { points.now ≡ points_moved (rough_of self.now) }
        requires near_first { IsNear first.now }
        requires near_points { All IsNear points.now }
        requires k { k ≤ TRIED }
        ensures pass { result ≡ made_at (rough_of self.now) k }
        ensures near { IfSome result IsNearPass }
    {
        let x = self.x_of_pass(k);
        if x <= first.x {
            return None;
        }
        let end = end_at(x, first, points);
        if end < self.start.z {
            Some(Point { x, z: end })
        } else {
            None
        }
    }

    /// The X of pass k: it counts diameters and a depth is a radius, so each pass is two depths
    /// lower.
    fn x_of_pass(&self, k: u32) -> i64
        requires near { IsNearForm (rough_of self.now) }
        requires k { k ≤ TRIED }
        ensures x { result ≡ x_of_pass (rough_of self.now) k }
        ensures near { unsigned_abs result ≤ 400000000000000 }
    {
        self.start.x - (2 * self.depth * u64::from(k)) as i64
    }

    /// Where a pass is left to: off its cut by the retreat, but no farther than the start's Z.
    fn off(&self, pass: &Point) -> Point
        requires near { IsNearForm (rough_of self.now) }
        requires pass { IsNearPass pass.now }
        ensures { result ≡ off_pass (rough_of self.now) pass.now }
    {
        let back = pass.z + self.retreat as i64;
        Point {
            x: pass.x + (2 * self.retreat) as i64,
            z: if self.start.z < back {
                self.start.z
            } else {
                back
            },
        }
    }

    /// Puts the blocks of the passes, in turn.
    fn push_passes(&self, passes: &[Point], blocks: &mut Vec<PlainBlock>) -> Result<(), AllocError>
        requires near { IsNearForm (rough_of self.now) }
        requires passes { All IsNearPass passes.now }
        ensures ok { OnOk result
            (blocks.new.items ≡ blocks.old.items ++ flat_map (pass_blocks (rough_of self.now)) passes.now) }
    {
        for pass in passes {
            self.push_pass(pass, blocks)?;
        }
        Ok(())
    }

    /// Puts the blocks to the pass, along it, off it, and back to the start's Z.
    fn push_pass(&self, pass: &Point, blocks: &mut Vec<PlainBlock>) -> Result<(), AllocError>
        requires near { IsNearForm (rough_of self.now) }
        requires pass { IsNearPass pass.now }
        ensures ok { OnOk result (blocks.new.items ≡ blocks.old.items ++ pass_blocks (rough_of self.now) pass.now) }
    {
        let off = self.off(pass);
        push(blocks, across_to(false, pass))?;
        push(blocks, along_to(true, pass))?;
        push(blocks, straight_to(false, &off))?;
        push(blocks, along_to(false, &self.start))?;
        Ok(())
    }
}

/// A point with its allowances.
fn moved_point(across: u64, along: u64, point: &Point) -> Point
    requires across { across ≤ LONGEST_SAID }
    requires along { along ≤ LONGEST_SAID }
    requires point { IsWritten point.now }
    ensures point { result ≡ moved_point across along point.now }
    ensures near { IsNear result }
{
    Point {
        x: point.x + across as i64,
        z: point.z + along as i64,
    }
}

/// Points with their allowances.
fn moved(alloc: Global, across: u64, along: u64, points: &[Point]) -> Result<Vec<Point>, AllocError>
    requires across { across ≤ LONGEST_SAID }
    requires along { along ≤ LONGEST_SAID }
    requires points { All IsWritten points.now }
    ensures points { IfOk result (λ v. v.items ≡ moved_points across along points.now) }
    ensures near { IfOk result (λ v. All IsNear v.items) }
{
    let mut out = Vec::new(alloc);
    for point in points {
        out.push(moved_point(across, along, point))?;
    }
    Ok(out)
}

/// Puts the blocks to the contour's first point, along it, off it, and back to the start.
fn push_contour(
    start: &Point,
    first: &Point,
    points: &[Point],
    blocks: &mut Vec<PlainBlock>,
) -> Result<(), AllocError>
    ensures ok { OnOk result (blocks.new.items ≡ blocks.old.items ++ contour_blocks start.now first.now points.now) }
{
    push(blocks, along_to(false, first))?;
    push(blocks, across_to(false, first))?;
    push_lines(points, blocks)?;
    push(blocks, across_to(true, start))?;
    push(blocks, along_to(false, start))?;
    Ok(())
}

/// Puts a block to each point of a contour after its first.
fn push_lines(points: &[Point], blocks: &mut Vec<PlainBlock>) -> Result<(), AllocError>
    ensures ok { OnOk result (blocks.new.items ≡ blocks.old.items ++ map (straight_to true) points.now) }
{
    for point in points {
        push(blocks, straight_to(true, point))?;
    }
    Ok(())
}

/// A block that moves across alone, in X.
fn across_to(cuts: bool, point: &Point) -> PlainBlock
    ensures { result ≡ across_to cuts point.now }
{
    PlainBlock {
        cuts,
        x: Some(point.x),
        z: None,
    }
}

/// A block that moves along alone, in Z.
fn along_to(cuts: bool, point: &Point) -> PlainBlock
    ensures { result ≡ along_to cuts point.now }
{
    PlainBlock {
        cuts,
        x: None,
        z: Some(point.z),
    }
}

/// A block that moves in X and in Z.
fn straight_to(cuts: bool, point: &Point) -> PlainBlock
    ensures { result ≡ straight_to cuts point.now }
{
    PlainBlock {
        cuts,
        x: Some(point.x),
        z: Some(point.z),
    }
}

/// Puts one block more.
fn push(blocks: &mut Vec<PlainBlock>, block: PlainBlock) -> Result<(), AllocError>
    ensures ok { OnOk result (blocks.new.items ≡ blocks.old.items ++ block ∷ []) }
{
    blocks.push(block)?;
    Ok(())
}
