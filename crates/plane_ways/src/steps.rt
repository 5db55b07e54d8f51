//! Steps off a place: in whole counts, along a direction, and how long a direction is.
ghost use Rattle.std.specs.Prelude.{◌≡◌, ◌≤◌, ◌<◌, max, IfSome, unsigned_abs};
ghost use Rattle.nc_number.specs.Arithmetic.{nearest};
ghost use Rattle.plane_ways.specs.declared.place.TheConstants.{FAR, LONG};
ghost use Rattle.plane_ways.specs.Plane.{way, times, IsWithin};
ghost use Rattle.plane_ways.specs.Steps.{from_zero, stepped, nearest_part, nearest_stepped, near_place, is_same, direction, IsDirection, length_of};

use crate::place::{FAR, LONG, Place};
use crate::ways::{length_of, times, way};

/// n / d, rounded away from 0.
fn from_zero(n: i128, d: u128) -> i128
    requires d { 0 < d }
    requires n { unsigned_abs n ≤ 100000000000000000000000000000000 }
    ensures quotient { result ≡ from_zero n d }
    ensures bound { unsigned_abs result ≤ 100000000000000000000000000000000 }
{
    let size = n.unsigned_abs().div_ceil(d) as i128;
    if n < 0 { -size } else { size }
}

/// Where the step `by` / d leads from p, in whole counts.
fn stepped(p: &Place, by: &Place, d: u128) -> Place
    requires p { IsWithin FAR p.now }
    requires by { IsWithin 100000000000000000000000000000000 by.now }
    requires d { 0 < d }
    requires room { d ≤ 10000000000000000000000000 }
    ensures { result ≡ stepped p.now by.now d }
{
    Place {
        across: p.across + from_zero(by.across, d),
        along: p.along + 2 * from_zero(by.along, 2 * d),
    }
}

/// The place, if no part of it is farther than `FAR`.
fn near_place(p: &Place) -> Option<Place>
    ensures place { result ≡ near_place p.now }
    ensures near { IfSome result (IsWithin FAR) }
{
    if p.across.unsigned_abs() <= FAR && p.along.unsigned_abs() <= FAR {
        Some(*p)
    } else {
        None
    }
}

/// Whether the places are one.
pub fn is_same(p: &Place, q: &Place) -> bool
    ensures { result ≡ is_same p.now q.now }
{
    p.across == q.across && p.along == q.along
}

/// The direction from one place to another, if they differ.
#[tactic(auto, unfolding(crate::specs::Steps::direction))]
pub fn direction(p: &Place, q: &Place) -> Option<Place>
    requires p { IsWithin FAR p.now }
    requires q { IsWithin FAR q.now }
    ensures direction { result ≡ direction p.now q.now }
    ensures is { IfSome result IsDirection }
{
    if is_same(p, q) {
        return None;
    }
    let w = way(p, q);
    let most = greater(w.across.unsigned_abs(), w.along.unsigned_abs());
    Some(times(LONG / most, &w))
}

/// The greater of two lengths.
fn greater(a: u128, b: u128) -> u128
    ensures { result ≡ max a b }
{
    if a < b { b } else { a }
}

/// The length of a direction.
pub fn length(d: &Place) -> u128
    requires { IsDirection d.now }
    ensures length { result ≡ length_of d.now }
    ensures some { 0 < result }
    ensures bound { result ≤ 2000000000000 }
{
    length_of(d)
}

/// The place n times `by` / d from p, in whole counts, if it is near enough.
pub fn step_off(p: &Place, n: u128, by: &Place, d: u128) -> Option<Place>
    requires n { n ≤ 2000000 }
    requires p { IsWithin FAR p.now }
    requires by { IsWithin 10000000000000000000000000 by.now }
    requires d { 0 < d }
    requires room { d ≤ 10000000000000000000000000 }
    ensures place { result ≡ near_place (stepped p.now (times n by.now) d) }
    ensures near { IfSome result (IsWithin FAR) }
{
    near_place(&stepped(p, &times(n, by), d))
}

/// n / d to the nearest whole number, halves away from 0.
fn nearest_part(n: i128, d: u128) -> i128
    requires d { 0 < d }
    requires room { d ≤ 100000000000000000000000000 }
    requires n { unsigned_abs n ≤ 100000000000000000000000000000000 }
    ensures quotient { result ≡ nearest_part n d }
    ensures bound { unsigned_abs result ≤ 100000000000000000000000000000001 }
{
    let size = nearest(n.unsigned_abs(), d) as i128;
    if n < 0 { -size } else { size }
}

/// The same of a count.
fn nearest(n: u128, d: u128) -> u128
    requires d { 0 < d }
    requires room { d ≤ 100000000000000000000000000 }
    requires n { n ≤ 100000000000000000000000000000000 }
    ensures quotient { result ≡ nearest n d }
    ensures bound { result ≤ 100000000000000000000000000000001 }
{
    let whole = n / d;
    if d <= 2 * (n % d) { whole + 1 } else { whole }
}

/// The place `by` / d from p, in steps of 0.001 mm, to the nearest; if it is near enough.
pub fn nearest_step(p: &Place, by: &Place, d: u128) -> Option<Place>
    requires p { IsWithin FAR p.now }
    requires by { IsWithin 100000000000000000000000000000000 by.now }
    requires d { 0 < d }
    requires room { d ≤ 10000000000000000000000000 }
    ensures place { result ≡ near_place (nearest_stepped p.now by.now d) }
    ensures near { IfSome result (IsWithin FAR) }
{
    near_place(&nearest_stepped(p, by, d))
}

/// The same place, near enough or not.
fn nearest_stepped(p: &Place, by: &Place, d: u128) -> Place
    requires p { IsWithin FAR p.now }
    requires by { IsWithin 100000000000000000000000000000000 by.now }
    requires d { 0 < d }
    requires room { d ≤ 10000000000000000000000000 }
    ensures { result ≡ nearest_stepped p.now by.now d }
{
    Place {
        across: p.across + 2 * nearest_part(by.across, 2 * d),
        along: p.along + 2 * nearest_part(by.along, 2 * d),
    }
}
