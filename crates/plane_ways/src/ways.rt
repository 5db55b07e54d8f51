//! Ways of the plane: sums, multiples, products, lengths.
ghost use Rattle.std.specs.Prelude.{◌≡◌, ◌≤◌, ◌*◌, ◌*ℤ◌, unsigned_abs};
ghost use Rattle.plane_ways.specs.Plane.{way, plus, times, turned, dot, square, IsWithin};
ghost use Rattle.plane_ways.specs.Steps.{length_of};

use crate::place::{Place, Side};

/// The way from one place to another.
pub fn way(from: &Place, to: &Place) -> Place
    requires from { IsWithin 10000000000000000000000000 from.now }
    requires to { IsWithin 10000000000000000000000000 to.now }
    ensures { result ≡ way from.now to.now }
{
    Place {
        across: to.across - from.across,
        along: to.along - from.along,
    }
}

/// The sum of two places.
pub fn plus(p: &Place, q: &Place) -> Place
    requires p { IsWithin 10000000000000000000000000 p.now }
    requires q { IsWithin 10000000000000000000000000 q.now }
    ensures { result ≡ plus p.now q.now }
{
    Place {
        across: p.across + q.across,
        along: p.along + q.along,
    }
}

/// A way a right angle to that side.
pub fn turned(side: Side, w: &Place) -> Place
    requires { IsWithin 10000000000000000000000000 w.now }
    ensures { result ≡ turned side w.now }
{
    match side {
        Side::Left => Place {
            across: w.along,
            along: -w.across,
        },
        Side::Right => Place {
            across: -w.along,
            along: w.across,
        },
    }
}

/// The product of two lengths that fit.
fn product(a: i128, b: i128) -> i128
    requires a { unsigned_abs a ≤ 2000000000000 }
    requires b { unsigned_abs b ≤ 10000000000000000000000000 }
    ensures { result ≡ a *ℤ b }
{
    a * b
}

/// n times a place.
pub fn times(n: u128, p: &Place) -> Place
    requires n { n ≤ 2000000000000 }
    requires p { IsWithin 10000000000000000000000000 p.now }
    ensures { result ≡ times n p.now }
{
    Place {
        across: product(n as i128, p.across),
        along: product(n as i128, p.along),
    }
}

/// How far a way goes along another, times that one's length.
pub fn dot(w: &Place, v: &Place) -> i128
    requires w { IsWithin 1000000000000 w.now }
    requires v { IsWithin 1000000000000 v.now }
    ensures { result ≡ dot w.now v.now }
{
    product(w.across, v.across) + product(w.along, v.along)
}

/// The square of a way's length.
pub fn square(w: &Place) -> u128
    requires { IsWithin 1000000000000 w.now }
    ensures square { result ≡ square w.now }
    ensures bound { result ≤ 2000000000000000000000000 }
{
    squared(w.across.unsigned_abs()) + squared(w.along.unsigned_abs())
}

/// The square of a length.
fn squared(n: u128) -> u128
    requires { n ≤ 1000000000000 }
    ensures square { result ≡ n * n }
    ensures bound { result ≤ 1000000000000000000000000 }
{
    n * n
}

/// The length of a way, rounded down.
pub fn length_of(d: &Place) -> u128
    requires { IsWithin 1000000000000 d.now }
    ensures length { result ≡ length_of d.now }
    ensures bound { result ≤ 2000000000000 }
{
    square(d).isqrt()
}
