//! Which stretches of one path come within the gap of the hull of others: what does not keeps the gap
//! from each of them, and is left out.
ghost use Rattle.std.specs.Prelude.{◌≡◌, ◌∷◌, ◌++◌, All, IfOk, OnOk};
ghost use Rattle.std.specs.List.{filter};
ghost use Rattle.nc_number.specs.Position.{IsPosition};
ghost use Rattle.zone_area.specs.Range.{IsInCell};
ghost use Rattle.zone_area.specs.Area.{hull_of};
ghost use Rattle.zone_moves.specs.Pairs.{meets, near_one, hull_along, first_pair};
ghost use Rattle.zone_moves.specs.Stretches.{IsPlaced};

use crate::stretch::Stretch;
use nc_number::{NoMemory, Point};
use std::alloc::Global;
use zone_area::{Area, is_clear};

/// Whether two areas come within the gap.
pub(crate) fn meets(gap: &Point, area: &Area, other: &Area) -> bool
    requires gap { IsPosition gap.now }
    requires area { IsInCell area.now }
    requires other { IsInCell other.now }
    ensures { result ≡ meets gap.now area.now other.now }
{
    !is_clear(gap, area, other)
}

/// The least area that holds another and those of the stretches.
fn hull_along(area: &Area, stretches: &[Stretch]) -> Area
    requires area { IsInCell area.now }
    requires stretches { All IsPlaced stretches.now }
    ensures hull { result ≡ hull_along area.now stretches.now }
    ensures near { IsInCell result }
{
    let mut hull = *area;
    for stretch in stretches {
        hull = cell_hull(&hull, &stretch.area);
    }
    hull
}

/// The least area in the cell that holds two.
fn cell_hull(area: &Area, other: &Area) -> Area
    requires area { IsInCell area.now }
    requires other { IsInCell other.now }
    ensures hull { result ≡ hull_of area.now other.now }
    ensures near { IsInCell result }
{
    area.hull(other)
}

/// Keeps a stretch if it comes within the gap of the area.
fn keep_near(
    gap: &Point,
    area: &Area,
    stretch: &Stretch,
    near: &mut Vec<Stretch>,
) -> Result<(), NoMemory>
    requires gap { IsPosition gap.now }
    requires area { IsInCell area.now }
    requires stretch { IsPlaced stretch.now }
    ensures { OnOk result (near.new.items ≡ near.old.items ++ near_one gap.now area.now stretch.now) }
{
    if meets(gap, area, &stretch.area) {
        near.push(*stretch)?;
    }
    Ok(())
}

/// The stretches that come within the gap of the area, in order.
fn near_ones(
    alloc: Global,
    gap: &Point,
    area: &Area,
    stretches: &[Stretch],
) -> Result<Vec<Stretch>, NoMemory>
    requires gap { IsPosition gap.now }
    requires area { IsInCell area.now }
    requires stretches { All IsPlaced stretches.now }
    ensures near { IfOk result (λ v. v.items ≡ filter (λ s. meets gap.now area.now s.area) stretches.now) }
{
    let mut near = Vec::new(alloc);
    for stretch in stretches {
        keep_near(gap, area, stretch, &mut near)?;
    }
    Ok(near)
}

/// Those of the stretches on the right that come within the gap of the hull of this one and the rest
/// on the left.
fn near_rest(
    alloc: Global,
    gap: &Point,
    one: &Stretch,
    rest: &[Stretch],
    right: &[Stretch],
) -> Result<Vec<Stretch>, NoMemory>
    requires gap { IsPosition gap.now }
    requires one { IsPlaced one.now }
    requires rest { All IsPlaced rest.now }
    requires right { All IsPlaced right.now }
    ensures same { IfOk result (λ v. first_pair gap.now (one.now ∷ rest.now) v.items ≡ first_pair gap.now (one.now ∷ rest.now) right.now) }
    ensures placed { IfOk result (λ v. All IsPlaced v.items) }
{
    let near = near_ones(alloc, gap, &hull_along(&one.area, rest), right)?;
    Ok(near)
}

/// Those of the stretches on the right that come within the gap of the hull of those on the left:
/// the others keep the gap from each of them.
pub(crate) fn near_all(
    alloc: Global,
    gap: &Point,
    left: &[Stretch],
    right: &[Stretch],
) -> Result<Vec<Stretch>, NoMemory>
    requires gap { IsPosition gap.now }
    requires left { All IsPlaced left.now }
    requires right { All IsPlaced right.now }
    ensures same { IfOk result (λ v. first_pair gap.now left.now v.items ≡ first_pair gap.now left.now right.now) }
    ensures placed { IfOk result (λ v. All IsPlaced v.items) }
{
    match left {
        [] => Ok(Vec::new(alloc)),
        [one, rest @ ..] => near_rest(alloc, gap, one, rest, right),
    }
}
