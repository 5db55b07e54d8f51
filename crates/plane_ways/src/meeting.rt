//! Where two lines that were moved to one side meet, seen from their corner.
ghost use Rattle.std.specs.Prelude.{◌≡◌, ◌≤◌, ◌<◌, ◌*◌, ◌≤ℤ◌, ◌<ℤ◌, pos};
ghost use Rattle.plane_ways.specs.Plane.{dot, turned, IsWithin};
ghost use Rattle.plane_ways.specs.Steps.{IsDirection};
ghost use Rattle.plane_ways.specs.Meetings.{wide_meeting, sharp_meeting};

use crate::place::{Place, Side};
use crate::steps::length;
use crate::ways::{dot, plus, times, turned, way};

/// The way from a corner to where both of its lines meet after each was moved by a length: that
/// length times `by`, in so many parts.
#[derive(Clone, Copy, Debug, PartialEq, Eq)]
pub struct Meeting {
    /// The way, for a length of `parts`.
    pub by: Place,
    /// How many parts a length of 1 has.
    pub parts: u128,
}

/// Where lines of directions d and e meet that were moved to this side, at a corner of 90 degrees or
/// less.
pub fn wide_meeting(side: Side, d: &Place, e: &Place) -> Meeting
    requires d { IsDirection d.now }
    requires e { IsDirection e.now }
    requires ahead { pos 0 ≤ℤ dot d.now e.now }
    ensures meeting { result ≡ wide_meeting side d.now e.now }
    ensures within { IsWithin 10000000000000000000000000 result.by }
    ensures some { 0 < result.parts }
    ensures room { result.parts ≤ 10000000000000000000000000 }
{
    let d_length = length(d);
    let e_length = length(e);
    let d_side = times(e_length, &turned(side, d));
    let e_side = times(d_length, &turned(side, e));
    let by = plus(&d_side, &e_side);
    let parts = area(d_length, e_length) + dot(d, e);
    Meeting {
        by,
        parts: parts.unsigned_abs(),
    }
}

/// The product of two lengths.
fn area(d: u128, e: u128) -> i128
    requires d { 0 < d }
    requires e { 0 < e }
    requires d_bound { d ≤ 2000000000000 }
    requires e_bound { e ≤ 2000000000000 }
    ensures area { result ≡ pos (d * e) }
    ensures some { 0 < d * e }
    ensures bound { d * e ≤ 4000000000000000000000000 }
{
    (d * e) as i128
}

/// Where they meet at a corner of more than 90 degrees whose inner side this is.
pub fn sharp_meeting(side: Side, d: &Place, e: &Place) -> Meeting
    requires d { IsDirection d.now }
    requires e { IsDirection e.now }
    requires inner { pos 0 <ℤ dot (turned side d.now) e.now }
    ensures meeting { result ≡ sharp_meeting side d.now e.now }
    ensures within { IsWithin 10000000000000000000000000 result.by }
    ensures some { 0 < result.parts }
    ensures room { result.parts ≤ 10000000000000000000000000 }
{
    let by = way(&times(length(e), d), &times(length(d), e));
    let parts = dot(&turned(side, d), e);
    Meeting {
        by,
        parts: parts.unsigned_abs(),
    }
}
