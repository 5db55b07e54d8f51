//! A point that may be an offset, as a type: neither axis is past the travel. An operator's edit of
//! an offset has one.
ghost use Rattle.std.specs.Prelude.{◌≡◌};
ghost use Rattle.nc_number.specs.Position.{IsPosition};

use nc_number::Point;
use std::marker::Model;

/// A point that may be an offset: no part of it is farther from 0 than 99,999.999 mm.
#[derive(Clone, Copy, Debug, PartialEq, Eq)]
pub struct Offset {
    /// The point, in 0.001 mm.
    to: Point,
}

// Clauses see the point.
impl Model for Offset {
    ghost use Rattle.nc_number.specs.declared.point.Point.{Point};
    ghost use Rattle.nc_number.specs.Position.{IsPosition};

    ghost Value = { Point };

    ghost view = { λ o. o.to };

    ghost invariant = { λ o. IsPosition o.to };

    ghost inverse = { λ p. record { to = p } };
}

impl Offset {
    ghost use Rattle.offset_store.specs.Table.{offset_of};

    /// The offset to this point, no part of which may be past 99,999.999 mm.
    pub fn new(to: Point) -> Self
        requires { IsPosition to }
        ensures { result ≡ to }
    {
        Offset { to }
    }

    /// The offset to this point: none exactly if a part of it is past 99,999.999 mm.
    pub fn of(to: Point) -> Option<Self>
        ensures { result ≡ offset_of to }
    {
        if to.is_position() {
            Some(Offset::new(to))
        } else {
            None
        }
    }

    /// The point, no part of which is past 99,999.999 mm.
    pub fn get(&self) -> Point
        ensures point { result ≡ self.now }
        ensures position { IsPosition result }
    {
        self.to
    }
}
