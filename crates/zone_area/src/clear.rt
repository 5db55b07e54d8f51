//! Whether two areas are clear: more than the gap apart in X or in Z.
ghost use Rattle.std.specs.Prelude.{◌≡◌, ◌≤◌, unsigned_abs};
ghost use Rattle.nc_number.specs.Position.{travel, IsPosition};
ghost use Rattle.zone_area.specs.Area.{is_beyond, lie_apart, is_clear};
ghost use Rattle.zone_area.specs.Range.{far_in_cell, IsInCell};

use crate::area::Area;
use nc_number::Point;

/// Whether the areas lie more than the gap apart in X or in Z.
pub fn is_clear(gap: &Point, a: &Area, b: &Area) -> bool
    requires gap { IsPosition gap.now }
    requires a { IsInCell a.now }
    requires b { IsInCell b.now }
    ensures { result ≡ is_clear gap.now a.now b.now }
{
    lie_apart(gap.x, a.low.x, a.high.x, b.low.x, b.high.x)
        || lie_apart(gap.z, a.low.z, a.high.z, b.low.z, b.high.z)
}

/// Whether of two spans of lengths one lies beyond the other by more than the gap.
fn lie_apart(gap: i64, low: i64, high: i64, other_low: i64, other_high: i64) -> bool
    requires gap { unsigned_abs gap ≤ travel }
    requires high { unsigned_abs high ≤ far_in_cell }
    requires other_high { unsigned_abs other_high ≤ far_in_cell }
    ensures { result ≡ lie_apart gap low high other_low other_high }
{
    is_beyond(gap, high, other_low) || is_beyond(gap, other_high, low)
}

/// Whether a span that begins at `first` lies beyond one that ends at `last` by more than the gap.
fn is_beyond(gap: i64, last: i64, first: i64) -> bool
    requires gap { unsigned_abs gap ≤ travel }
    requires last { unsigned_abs last ≤ far_in_cell }
    ensures { result ≡ is_beyond gap last first }
{
    last + gap < first
}
