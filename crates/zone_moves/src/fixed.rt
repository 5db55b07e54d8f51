//! Fixed boxes: what stands in the cell, and which moves of a path it bars.
ghost use Rattle.std.specs.Prelude.{◌≡◌, All};
ghost use Rattle.std.specs.List.{find};
ghost use Rattle.nc_number.specs.Position.{IsPosition};
ghost use Rattle.zone_area.specs.Range.{IsInCell};
ghost use Rattle.zone_moves.specs.Fixed.{binds, is_barred, first_barred, IsFixed};
ghost use Rattle.zone_moves.specs.Stretches.{IsPlaced};

use crate::stretch::Stretch;
use nc_number::{Path, Point};
use zone_area::{Area, is_clear};

/// Which moves a fixed box bars.
#[derive(Clone, Copy, Debug, PartialEq, Eq)]
pub enum Keeps {
    /// Each move, and a path that stands: a chuck, a tailstock.
    Whole,
    /// Rapid moves alone: a work piece, which moves that cut may enter.
    Rapids,
}

/// A box that stands in the cell, and that the bodies of a path must keep off.
#[derive(Clone, Copy, Debug, PartialEq, Eq)]
pub struct FixedBox {
    /// The path that must keep off.
    pub path: Path,
    /// The number by which the box is named.
    pub number: u32,
    /// The box as it lies in the cell, in 0.001 mm; X is a diameter.
    pub area: Area,
    /// Which moves it bars.
    pub keeps: Keeps,
}

/// A stretch, and a box that bars it.
#[derive(Clone, Copy, Debug, PartialEq, Eq)]
pub(crate) struct Barred {
    /// What the path does.
    pub(crate) stretch: Stretch,
    /// The box that bars it.
    pub(crate) fixed: FixedBox,
}

/// Whether the box bars a stretch of this kind.
fn binds(keeps: Keeps, rapid: bool) -> bool
    ensures { result ≡ binds keeps rapid }
{
    match keeps {
        Keeps::Whole => true,
        Keeps::Rapids => rapid,
    }
}

/// Whether the box bars the stretch, and the two come within the gap.
fn is_barred(gap: &Point, path: Path, stretch: &Stretch, fixed: &FixedBox) -> bool
    requires gap { IsPosition gap.now }
    requires stretch { IsPlaced stretch.now }
    requires fixed { IsFixed fixed.now }
    ensures { result ≡ is_barred gap.now path stretch.now fixed.now }
{
    fixed.path == path
        && binds(fixed.keeps, stretch.rapid)
        && !is_clear(gap, &stretch.area, &fixed.area)
}

/// The first of the boxes that bars the stretch.
fn barring(gap: &Point, path: Path, stretch: &Stretch, boxes: &[FixedBox]) -> Option<FixedBox>
    requires gap { IsPosition gap.now }
    requires stretch { IsPlaced stretch.now }
    requires boxes { All IsFixed boxes.now }
    ensures { result ≡ find (is_barred gap.now path stretch.now) boxes.now }
{
    for fixed in boxes {
        if is_barred(gap, path, stretch, fixed) {
            return Some(*fixed);
        }
    }
    None
}

/// The first of the stretches of a path that a box bars, with the first such box.
pub(crate) fn first_barred(
    gap: &Point,
    path: Path,
    boxes: &[FixedBox],
    stretches: &[Stretch],
) -> Option<Barred>
    requires gap { IsPosition gap.now }
    requires boxes { All IsFixed boxes.now }
    requires stretches { All IsPlaced stretches.now }
    ensures { result ≡ first_barred gap.now path boxes.now stretches.now }
{
    for stretch in stretches {
        if let Some(fixed) = barring(gap, path, stretch, boxes) {
            return Some(Barred {
                stretch: *stretch,
                fixed,
            });
        }
    }
    None
}
