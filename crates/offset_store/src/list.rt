//! Offsets by their numbers, each a position. Which number means what is in number.rt and slot.rt.
//! For offsets.rt of this crate alone.
ghost use Rattle.std.specs.Prelude.{◌≡◌, ◌<◌, replicate, slice_set};
ghost use Rattle.nc_number.specs.Position.{IsPosition, origin};
ghost use Rattle.offset_store.specs.Lists.{offset_at};

use nc_number::Point;
use std::marker::Model;

/// The point at 0, which is no offset at all.
pub(crate) const ORIGIN: Point = Point { x: 0, z: 0 };

/// Offsets, each at the place of its number, from 0 on. Each may be a position.
#[derive(Debug, Drop)]
pub(crate) struct OffsetList<const N: usize> {
    /// The offset of each number, in 0.001 mm.
    points: [Point; N],
}

// Clauses see the list.
impl<const N: usize> Model for OffsetList<N> {
    ghost use Rattle.std.specs.Prelude.{List};
    ghost use Rattle.nc_number.specs.declared.point.Point.{Point};
    ghost use Rattle.offset_store.specs.Lists.{ArePositions};

    ghost Value = { List Point };

    ghost view = { λ l. l.points };

    ghost invariant = { λ l. ArePositions l.points };
}

impl<const N: usize> OffsetList<N> {
    /// A list in which every offset is 0.
    pub(crate) fn new() -> Self
        ensures { result ≡ replicate N origin }
    {
        OffsetList {
            points: [ORIGIN; N],
        }
    }

    /// The offset with this number, in 0.001 mm.
    pub(crate) fn at(&self, n: u8) -> Point
        requires { n < N }
        ensures offset { result ≡ offset_at self.now n }
        ensures position { IsPosition result }
    {
        self.points[n as usize]
    }

    /// Gives the offset with this number another value, in 0.001 mm.
    pub(crate) fn put(&mut self, n: u8, to: Point)
        requires number { n < N }
        requires position { IsPosition to }
        ensures list { self.new ≡ slice_set self.old n to }
        ensures there { offset_at self.new n ≡ to }
    {
        self.points[n as usize] = to;
    }
}
