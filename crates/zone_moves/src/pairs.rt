//! Which two stretches of the paths come within the gap. If any do, the list of path 1 is halved again
//! and again, in the order of its moves, down to the first that does.
ghost use Rattle.std.specs.Prelude.{◌≡◌, ◌≤◌, None, All, IfOk, length};
ghost use Rattle.nc_number.specs.Position.{IsPosition};
ghost use Rattle.zone_moves.specs.Pairs.{pair_or, first_pair};
ghost use Rattle.zone_moves.specs.Stretches.{IsPlaced};

use crate::contact::{first_met, is_any_met};
use crate::pruning::near_all;
use crate::stretch::Stretch;
use nc_number::{Both, NoMemory, Point};
use std::alloc::Global;

/// The first pair of one stretch on the left at most.
fn single_pair(gap: &Point, left: &[Stretch], right: &[Stretch]) -> Option<Both<Stretch>>
    requires gap { IsPosition gap.now }
    requires left { All IsPlaced left.now }
    requires right { All IsPlaced right.now }
    requires single { length left.now ≤ 1 }
    ensures { result ≡ first_pair gap.now left.now right.now }
{
    match left {
        [] => None,
        [one, ..] => pair_of(one, first_met(gap, one, right)),
    }
}

/// The first stretch of path 1 that comes within the gap of one of path 2, with the first such one.
pub(crate) fn first_pair(
    alloc: Global,
    gap: &Point,
    left: &[Stretch],
    right: &[Stretch],
) -> Result<Option<Both<Stretch>>, NoMemory>
    requires gap { IsPosition gap.now }
    requires left { All IsPlaced left.now }
    requires right { All IsPlaced right.now }
    ensures { IfOk result (λ pair. pair ≡ first_pair gap.now left.now right.now) }
{
    if left.len() < 2 {
        return Ok(single_pair(gap, left, right));
    }
    let near = near_all(alloc, gap, left, right)?;
    if !is_any_met(alloc, gap, left, near.as_slice())? {
        return Ok(None);
    }
    let (front, back) = left.split_at(left.len() / 2);
    match first_pair(alloc, gap, front, near.as_slice())? {
        Some(pair) => Ok(Some(pair)),
        None => first_pair(alloc, gap, back, near.as_slice()),
    }
}

/// A stretch with another, if there is one.
fn pair_of(one: &Stretch, met: Option<Stretch>) -> Option<Both<Stretch>>
    ensures { result ≡ pair_or one.now met None }
{
    match met {
        Some(two) => Some(Both { one: *one, two }),
        None => None,
    }
}
