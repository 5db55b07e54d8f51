//! What lies inside a contour of lines, and where a pass ends at it; in 0.001 mm, X a diameter.
//! form.rt calls `end_at` for each pass; `inside` is for tests.
ghost use Rattle.std.specs.Prelude.{◌≡◌, ◌≤ℤ◌, ◌<ℤ◌, ◌<◌, ◌≤◌, ◌*◌, ◌/◌, ◌-ℤ◌, ◌*ℤ◌, pos, unsigned_abs, All};
ghost use Rattle.nc_number.specs.Distances.{distance};
ghost use Rattle.rough_cycle.specs.Inside.{holds, is_below, is_below_line, some_holds, is_below_each, is_inside, IsNear};
ghost use Rattle.rough_cycle.specs.Roughing.{end_at};

use nc_number::Point;

/// Whether the point lies inside the contour.
pub fn inside(contour: &[Point], at: Point) -> bool
    requires contour { All IsNear contour.now }
    requires at { IsNear at }
    ensures { result ≡ is_inside contour.now at }
{
    let Some((first, points)) = contour.split_first() else {
        return false;
    };
    some_holds(first, points, at.z) && is_below_each(first, points, &at)
}

/// Whether the Z lies between those of two points of the contour that follow each other.
fn some_holds(first: &Point, points: &[Point], z: i64) -> bool
    ensures { result ≡ some_holds first.now points.now z }
{
    let mut from = *first;
    for to in points {
        if holds(&from, to, z) {
            return true;
        }
        from = *to;
    }
    false
}

/// Whether the point is below every segment that its Z lies in.
fn is_below_each(first: &Point, points: &[Point], at: &Point) -> bool
    requires first { IsNear first.now }
    requires points { All IsNear points.now }
    requires at { IsNear at.now }
    ensures { result ≡ is_below_each first.now points.now at.now }
{
    let mut from = *first;
    for to in points {
        if holds(&from, to, at.z) && !is_below(&from, to, at) {
            return false;
        }
        from = *to;
    }
    true
}

/// Whether the Z lies within the segment, its ends included.
#[tactic(auto, unfolding(crate::specs::Inside::holds))]
fn holds(p: &Point, q: &Point, z: i64) -> bool
    ensures { result ≡ holds p.now q.now z }
{
    (q.z <= z && z <= p.z) || (p.z <= z && z <= q.z)
}

/// Whether the point is below the segment from p to q; below one across, whose ends have one Z, is
/// below both ends.
#[tactic(auto, unfolding(crate::specs::Inside::is_below))]
fn is_below(p: &Point, q: &Point, at: &Point) -> bool
    requires p { IsNear p.now }
    requires q { IsNear q.now }
    requires at { IsNear at.now }
    ensures { result ≡ is_below p.now q.now at.now }
{
    if p.z == q.z {
        at.x < p.x && at.x < q.x
    } else {
        is_below_line(p, q, at)
    }
}

/// Whether the point is below the line through two points; its Z lies between theirs.
fn is_below_line(p: &Point, q: &Point, at: &Point) -> bool
    requires p { IsNear p.now }
    requires q { IsNear q.now }
    requires at { IsNear at.now }
    ensures { result ≡ is_below_line p.now q.now at.now }
{
    product(at.x - p.x, q.z.abs_diff(p.z)) < product(q.x - p.x, at.z.abs_diff(p.z))
}

/// The product of two lengths, exact: it is twice as wide as a length.
#[tactic(auto, using(crate::proofs::Products::product_fits))]
fn product(across: i64, along: u64) -> i128
    requires across { unsigned_abs across ≤ 2000000000000 }
    requires along { along ≤ 2000000000000 }
    ensures { result ≡ across *ℤ pos along }
{
    i128::from(across) * i128::from(along)
}

/// The end of a pass at `x`: the least Z, rounded up, at which a contour that descends has X at
/// most `x`.
pub(crate) fn end_at(x: i64, first: &Point, points: &[Point]) -> i64
    requires x { first.now.x ≤ℤ x }
    requires first { IsNear first.now }
    requires points { All IsNear points.now }
    ensures end { result ≡ end_at x first.now points.now }
    ensures near { unsigned_abs result ≤ 4000000000000 }
{
    let mut from = *first;
    for to in points {
        if x < to.x {
            return part_way(x, &from, to);
        }
        from = *to;
    }
    from.z
}

/// Where the segment comes to `x`: rounded down from its upper end, so the Z is rounded up.
fn part_way(x: i64, p: &Point, q: &Point) -> i64
    requires low { p.now.x ≤ℤ x }
    requires high { x <ℤ q.now.x }
    requires p { IsNear p.now }
    requires q { IsNear q.now }
    ensures near { unsigned_abs result ≤ 4000000000000 }
    ensures part { result
        ≡ p.now.z -ℤ pos (distance p.now.z q.now.z * distance x p.now.x / distance q.now.x p.now.x) }
{
    p.z - share(p.z.abs_diff(q.z), x.abs_diff(p.x), q.x.abs_diff(p.x)) as i64
}

/// `across` parts in `width` of `along`, rounded down.
#[tactic(auto, using(crate::proofs::Products::product_bound, crate::proofs::Products::part_below))]
fn share(along: u64, across: u64, width: u64) -> u64
    requires along { along ≤ 2000000000000 }
    requires across { across ≤ width }
    requires width { 0 < width }
    requires far { width ≤ 2000000000000 }
    ensures share { result ≡ along * across / width }
    ensures bound { result ≤ along }
{
    (u128::from(along) * u128::from(across) / u128::from(width)) as u64
}
