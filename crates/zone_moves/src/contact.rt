//! Whether any stretch of one path comes within the gap of one of the other. One path's are parted by
//! where they lie, again and again, and what keeps off the hull of a part is left out there. So few
//! pairs are looked at, whatever the order of the moves.
ghost use Rattle.std.specs.Prelude.{◌≡◌, All, IfOk};
ghost use Rattle.nc_number.specs.Position.{IsPosition};
ghost use Rattle.zone_moves.specs.Pairs.{first_met, is_met, any_met};
ghost use Rattle.zone_moves.specs.Stretches.{IsPlaced};

use crate::parts::parted;
use crate::pruning::{meets, near_all};
use crate::stretch::Stretch;
use nc_number::{NoMemory, Point};
use std::alloc::Global;

/// So many stretches are few: each of them is looked at.
const FEW: usize = 8;

/// The first of the stretches that comes within the gap of this one.
pub(crate) fn first_met(gap: &Point, stretch: &Stretch, others: &[Stretch]) -> Option<Stretch>
    requires gap { IsPosition gap.now }
    requires stretch { IsPlaced stretch.now }
    requires others { All IsPlaced others.now }
    ensures { result ≡ first_met gap.now stretch.now others.now }
{
    for other in others {
        if meets(gap, &stretch.area, &other.area) {
            return Some(*other);
        }
    }
    None
}

/// Whether the stretch comes within the gap of one of these.
fn is_met(gap: &Point, stretch: &Stretch, others: &[Stretch]) -> bool
    requires gap { IsPosition gap.now }
    requires stretch { IsPlaced stretch.now }
    requires others { All IsPlaced others.now }
    ensures { result ≡ is_met gap.now others.now stretch.now }
{
    first_met(gap, stretch, others).is_some()
}

/// Whether there are so few on a side that each pair is looked at. It decides how long a search takes,
/// and nothing of what is found.
fn are_few(left: &[Stretch], right: &[Stretch]) -> bool {
    left.len() <= FEW || right.len() <= FEW
}

/// Whether one on the left comes within the gap of one on the right: each pair is looked at.
fn is_one_met(gap: &Point, left: &[Stretch], right: &[Stretch]) -> bool
    requires gap { IsPosition gap.now }
    requires left { All IsPlaced left.now }
    requires right { All IsPlaced right.now }
    ensures { result ≡ any_met gap.now left.now right.now }
{
    for stretch in left {
        if is_met(gap, stretch, right) {
            return true;
        }
    }
    false
}

/// Whether one on the left comes within the gap of one on the right. The only error is out of memory.
pub(crate) fn is_any_met(
    alloc: Global,
    gap: &Point,
    left: &[Stretch],
    right: &[Stretch],
) -> Result<bool, NoMemory>
    requires gap { IsPosition gap.now }
    requires left { All IsPlaced left.now }
    requires right { All IsPlaced right.now }
    ensures { IfOk result (λ met. met ≡ any_met gap.now left.now right.now) }
{
    let near = near_all(alloc, gap, left, right)?;
    if are_few(left, near.as_slice()) {
        return Ok(is_one_met(gap, left, near.as_slice()));
    }
    let parts = parted(alloc, left)?;
    if !parts.are_both() {
        return Ok(is_one_met(gap, left, near.as_slice()));
    }
    if is_any_met(alloc, gap, parts.before(), near.as_slice())? {
        return Ok(true);
    }
    is_any_met(alloc, gap, parts.behind(), near.as_slice())
}
