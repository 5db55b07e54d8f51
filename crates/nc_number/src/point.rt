//! Points of the X and Z plane in 0.001 mm, how far from 0 they may lie, and how many tool offsets a
//! path has.
ghost use Rattle.std.specs.Prelude.{◌≡◌, ◌↔◌, IsTrue};

/// How far from 0 a position or an offset may be, in 0.001 mm.
pub const TRAVEL: u64 = 99_999_999;

/// How many tool offsets a path has, numbered from 1.
pub const TOOL_OFFSETS: u8 = 64;

/// A point of the X and Z plane, in 0.001 mm.
#[derive(Clone, Copy, Debug, PartialEq, Eq)]
pub struct Point {
    /// A diameter.
    pub x: i64,
    /// A length along the axis.
    pub z: i64,
}

impl Point {
    ghost use Rattle.nc_number.specs.Position.{is_position, IsPosition};

    /// Whether no part is farther from 0 than 99,999.999 mm, so that it may be a position or an
    /// offset.
    pub fn is_position(&self) -> bool
        ensures test { result ≡ is_position self.now }
        ensures within { IsTrue result ↔ IsPosition self.now }
    {
        self.x.unsigned_abs() <= TRAVEL && self.z.unsigned_abs() <= TRAVEL
    }
}
