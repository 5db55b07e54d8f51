//! The legs of a path beside the lines of a contour, and those that lead to it and off it.
ghost use Rattle.std.specs.Prelude.{◌≡◌, ◌≤◌, ◌-◌, ◌∷◌, All, IfOk, IfErr, IfSome, Ok, Err};
ghost use Rattle.plane_ways.specs.declared.place.TheConstants.{FAR};
ghost use Rattle.plane_ways.specs.Plane.{IsWithin};
ghost use Rattle.nose_path.specs.declared.nose.TheConstants.{OFF, LARGEST_RADIUS};
ghost use Rattle.nose_path.specs.declared.nose.NoseCause.TheVariants.{NoLength, UsedUp, TooNear};
ghost use Rattle.nose_path.specs.Paths.{KeepsOff, first_near, near_move};
ghost use Rattle.nose_path.specs.Beside.{HasLegs};
ghost use Rattle.nose_path.specs.Legs.{leg_before, last_leg, lead, legs_from, legs_of, places_of, without_length, path_along, path_of, IsNearLeg, IsNearStep, AreNear};

use crate::corner::{first_turn, kept, last_turn, turn_at};
use crate::nose::{Ends, Nose, NoseCause, NoseFault, OFF, Step};
use plane_ways::{Line, Place, direction, is_off, is_same};
use std::alloc::{AllocError, Global};

/// The leg beside the line from p to q, before a line to t, and where the next one begins.
fn leg_before(nose: &Nose, at: &Place, p: &Place, q: &Place, t: &Place) -> Option<Step>
    requires nose { nose.now.radius ≤ 2000000 }
    requires at { IsWithin FAR at.now }
    requires p { IsWithin FAR p.now }
    requires q { IsWithin FAR q.now }
    requires t { IsWithin FAR t.now }
    ensures step { result ≡ leg_before nose.now at.now p.now q.now t.now }
    ensures near { IfSome result IsNearStep }
{
    let d = direction(p, q)?;
    let e = direction(q, t)?;
    let turn = turn_at(nose, q, &d, &e)?;
    let leg = kept(
        nose,
        p,
        q,
        Line {
            from: *at,
            to: turn.to,
        },
    )?;
    Some(Step {
        leg,
        from: turn.from,
    })
}

/// The leg beside the last line, and where the one that leads off begins.
fn last_leg(nose: &Nose, ends: &Ends, at: &Place, p: &Place, q: &Place) -> Option<Step>
    requires nose { nose.now.radius ≤ 2000000 }
    requires ends { AreNear ends.now }
    requires at { IsWithin FAR at.now }
    requires p { IsWithin FAR p.now }
    requires q { IsWithin FAR q.now }
    ensures step { result ≡ last_leg nose.now ends.now at.now p.now q.now }
    ensures near { IfSome result IsNearStep }
{
    let own = direction(p, q)?;
    let off = direction(q, &ends.after);
    let turn = last_turn(nose, q, &own, &off)?;
    let leg = kept(
        nose,
        p,
        q,
        Line {
            from: *at,
            to: turn.to,
        },
    )?;
    Some(Step {
        leg,
        from: turn.from,
    })
}

/// The leg that leads to a contour, and where the first one beside it begins.
fn lead(nose: &Nose, ends: &Ends, p: &Place, q: &Place) -> Option<Step>
    requires nose { nose.now.radius ≤ 2000000 }
    requires ends { AreNear ends.now }
    requires p { IsWithin FAR p.now }
    requires q { IsWithin FAR q.now }
    ensures step { result ≡ lead nose.now ends.now p.now q.now }
    ensures near { IfSome result IsNearStep }
{
    let own = direction(p, q)?;
    let on = direction(&ends.before, p);
    let turn = first_turn(nose, p, &on, &own)?;
    Some(Step {
        leg: Line {
            from: ends.start,
            to: turn.to,
        },
        from: turn.from,
    })
}

/// All legs of a path along a contour of two places and those after them, or the number of the first
/// that is not there.
#[tactic(auto, using(crate::proofs::Joined::started, crate::proofs::Joined::goes_on, crate::proofs::Joined::ended), unfolding(crate::specs::Legs::legs_of))]
fn legs(
    alloc: Global,
    nose: &Nose,
    ends: &Ends,
    first: &Place,
    second: &Place,
    points: &[Place],
) -> Result<Result<Vec<Line>, usize>, AllocError>
    requires nose { nose.now.radius ≤ 2000000 }
    requires ends { AreNear ends.now }
    requires first { IsWithin FAR first.now }
    requires second { IsWithin FAR second.now }
    requires points { All (IsWithin FAR) points.now }
    ensures legs { IfOk result (λ legs. IfOk legs (λ v. legs_of nose.now ends.now first.now second.now points.now ≡ Ok v.items)) }
    ensures none { IfOk result (λ legs. IfErr legs (λ leg. legs_of nose.now ends.now first.now second.now points.now ≡ Err leg)) }
    ensures near { IfOk result (λ legs. IfOk legs (λ v. All IsNearLeg v.items)) }
{
    let Some(lead) = lead(nose, ends, first, second) else {
        return Ok(Err(0));
    };
    let mut legs = Vec::new(alloc);
    legs.push(lead.leg)?;
    let mut at = lead.from;
    let mut p = *first;
    let mut q = *second;
    for t in points {
        let Some(step) = leg_before(nose, &at, &p, &q, t) else {
            return Ok(Err(legs.len()));
        };
        legs.push(step.leg)?;
        at = step.from;
        p = q;
        q = *t;
    }
    let Some(step) = last_leg(nose, ends, &at, &p, &q) else {
        return Ok(Err(legs.len()));
    };
    legs.push(step.leg)?;
    legs.push(Line {
        from: step.from,
        to: ends.end,
    })?;
    Ok(Ok(legs))
}

/// The places that legs lead from and to.
fn places(alloc: Global, legs: &[Line]) -> Result<Vec<Place>, AllocError>
    requires { All IsNearLeg legs.now }
    ensures places { IfOk result (λ v. v.items ≡ places_of legs.now) }
    ensures near { IfOk result (λ v. All (IsWithin FAR) v.items) }
{
    let mut places = Vec::new(alloc);
    for leg in legs {
        places.push(leg.from)?;
        places.push(leg.to)?;
    }
    Ok(places)
}

/// The leg of the first line without length of a contour, if there is one: line 0 has leg 1.
fn without_length(first: &Place, points: &[Place]) -> Option<usize>
    ensures { result ≡ without_length 1 first.now points.now }
{
    let mut from = *first;
    for (line, to) in points.iter().enumerate() {
        if is_same(&from, to) {
            return Some(line + 1);
        }
        from = *to;
    }
    None
}

/// The number of the first move of a path that is not at least d from the contour, if there is one.
fn first_near(
    d: u128,
    start: &Place,
    path: &[Place],
    first: &Place,
    points: &[Place],
) -> Option<usize>
    requires d { d ≤ 2000000 }
    requires start { IsWithin FAR start.now }
    requires path { All (IsWithin FAR) path.now }
    requires first { IsWithin FAR first.now }
    requires points { All (IsWithin FAR) points.now }
    ensures { result ≡ first_near 0 d start.now path.now first.now points.now }
{
    let mut from = *start;
    for (number, to) in path.iter().enumerate() {
        if !is_off(d, &Line { from, to: *to }, first, points) {
            return Some(number);
        }
        from = *to;
    }
    None
}

/// The same of a path of these places.
fn near_move(d: u128, path: &[Place], first: &Place, points: &[Place]) -> Option<usize>
    requires d { d ≤ 2000000 }
    requires path { All (IsWithin FAR) path.now }
    requires first { IsWithin FAR first.now }
    requires points { All (IsWithin FAR) points.now }
    ensures { result ≡ near_move d path.now first.now points.now }
{
    let Some((start, path)) = path.split_first() else {
        return None;
    };
    first_near(d, start, path, first, points)
}

/// The legs of a path along a contour: the one that leads to it, one beside each of its lines, and
/// the one that leads off it; or why there is no path, and at which leg. Every place on the moves of
/// the path is at least the radius, less `OFF`, from every place of the contour, in any number of
/// parts (`off`), and each line's leg is beside it (`beside`).
pub fn nose_path(
    alloc: Global,
    nose: &Nose,
    ends: &Ends,
    first: &Place,
    points: &[Place],
) -> Result<Result<Vec<Line>, NoseFault>, AllocError>
    requires nose { nose.now.radius ≤ LARGEST_RADIUS }
    requires ends { AreNear ends.now }
    requires first { IsWithin FAR first.now }
    requires points { All (IsWithin FAR) points.now }
    ensures path { IfOk result (λ path. IfOk path (λ v. path_of nose.now ends.now first.now points.now ≡ Ok v.items)) }
    ensures fault { IfOk result (λ path. IfErr path (λ fault. path_of nose.now ends.now first.now points.now ≡ Err fault)) }
    ensures off { IfOk result (λ path. IfOk path (λ v. KeepsOff (nose.now.radius - OFF) (places_of v.items) first.now points.now)) }
    ensures beside { IfOk result (λ path. IfOk path (λ v. HasLegs nose.now.side nose.now.radius first.now points.now v.items)) }
{
    found(alloc, nose, ends, first, points)
}

/// The same legs, or why there are none.
fn found(
    alloc: Global,
    nose: &Nose,
    ends: &Ends,
    first: &Place,
    points: &[Place],
) -> Result<Result<Vec<Line>, NoseFault>, AllocError>
    requires nose { nose.now.radius ≤ 2000000 }
    requires ends { AreNear ends.now }
    requires first { IsWithin FAR first.now }
    requires points { All (IsWithin FAR) points.now }
    ensures path { IfOk result (λ path. IfOk path (λ v. path_of nose.now ends.now first.now points.now ≡ Ok v.items)) }
    ensures fault { IfOk result (λ path. IfErr path (λ fault. path_of nose.now ends.now first.now points.now ≡ Err fault)) }
{
    if let Some(leg) = without_length(first, points) {
        return Ok(Err(no_length(leg)));
    }
    found_along(alloc, nose, ends, first, points)
}

/// The same legs along a contour whose lines have a length, or why there are none.
fn found_along(
    alloc: Global,
    nose: &Nose,
    ends: &Ends,
    first: &Place,
    points: &[Place],
) -> Result<Result<Vec<Line>, NoseFault>, AllocError>
    requires nose { nose.now.radius ≤ 2000000 }
    requires ends { AreNear ends.now }
    requires first { IsWithin FAR first.now }
    requires points { All (IsWithin FAR) points.now }
    ensures path { IfOk result (λ path. IfOk path (λ v. path_along nose.now ends.now first.now points.now ≡ Ok v.items)) }
    ensures fault { IfOk result (λ path. IfErr path (λ fault. path_along nose.now ends.now first.now points.now ≡ Err fault)) }
{
    let Some((second, rest)) = points.split_first() else {
        return Ok(Err(no_length(1)));
    };
    let legs = match legs(alloc, nose, ends, first, second, rest)? {
        Ok(legs) => legs,
        Err(leg) => return Ok(Err(used_up(leg))),
    };
    let path = places(alloc, &legs)?;
    match near_move(nose.radius.saturating_sub(OFF), &path, first, points) {
        Some(number) => Ok(Err(too_near(number / 2))),
        None => Ok(Ok(legs)),
    }
}

/// That the line of this leg has no length.
fn no_length(leg: usize) -> NoseFault
    ensures { result ≡ record { cause = NoLength; leg = leg } }
{
    NoseFault {
        cause: NoseCause::NoLength,
        leg,
    }
}

/// That this leg is used up.
fn used_up(leg: usize) -> NoseFault
    ensures { result ≡ record { cause = UsedUp; leg = leg } }
{
    NoseFault {
        cause: NoseCause::UsedUp,
        leg,
    }
}

/// That this leg, or the move from it, comes too near to the contour.
fn too_near(leg: usize) -> NoseFault
    ensures { result ≡ record { cause = TooNear; leg = leg } }
{
    NoseFault {
        cause: NoseCause::TooNear,
        leg,
    }
}
